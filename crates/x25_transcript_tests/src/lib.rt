//! Tests of `x25_text`, `x25_script` and `x25_transcript`: digits beside `hex`, the buffer, each function that writes
//! a frame or a packet, lines of a script beside what they read as, and entries of a transcript beside their lines.
#![tactic(auto)]

#[cfg(test)]
mod channels;
#[cfg(test)]
mod digits;
#[cfg(test)]
mod frames;
#[cfg(test)]
mod lines;
#[cfg(test)]
mod said;
#[cfg(test)]
mod script;
#[cfg(test)]
mod shown;
#[cfg(test)]
mod stations;
#[cfg(test)]
mod texts;

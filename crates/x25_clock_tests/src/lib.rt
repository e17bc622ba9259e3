//! Tests of `x25_clock`: a station whose other end stops answering, in virtual time.
#![tactic(auto)]

#[cfg(test)]
mod calls;
#[cfg(test)]
mod full;
#[cfg(test)]
mod moments;
#[cfg(test)]
mod silence;
#[cfg(test)]
mod times;

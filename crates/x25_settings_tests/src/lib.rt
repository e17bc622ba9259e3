//! Tests of `x25_settings`: plain words, and words that aren't.
#![tactic(auto)]

#[cfg(test)]
mod words;

//! What an end of a link may be, and what is told of it, frame by frame.
#![tactic(auto)]

#[cfg(test)]
mod sets;

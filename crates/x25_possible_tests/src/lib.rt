//! What an end of a channel may be, and what is told of it, packet by packet.
#![tactic(auto)]

#[cfg(test)]
mod sets;

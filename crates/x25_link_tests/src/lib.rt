//! Tests of `x25_link`: each public function with ample memory. What a link answers frame by frame is played by
//! `tests/golden`.
#![tactic(auto)]

#[cfg(test)]
mod calls;
#[cfg(test)]
mod ends;
#[cfg(test)]
mod lists;
#[cfg(test)]
mod steps;

//! Tests of `x25_world`: what no script of `sim` shows of it; `tests/golden` and `tests/tools` have the others.
#![tactic(auto)]

#[cfg(test)]
mod calls;
#[cfg(test)]
mod healing;
#[cfg(test)]
mod refusals;
#[cfg(test)]
mod set_up;
#[cfg(test)]
mod steps;

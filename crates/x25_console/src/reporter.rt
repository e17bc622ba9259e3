//! Who is told which lines ask for nothing, or for what is refused.

/// Is told of the lines that ask for nothing, and of refusals. What it is told of, and what becomes of that, changes
/// nothing of a run.
pub trait Reporter: Drop {
    /// The line of that number, counted from 1, asks for nothing; `None` where it is longer than any that is held.
    fn report(&mut self, number: u64, line: Option<&[u8]>);

    /// What the line of that number asks for is refused, by the number of an error.
    fn refuse(&mut self, number: u64, error: u8, line: &[u8]);
}

/// Tells nobody.
#[derive(Drop)]
pub struct Silent;

impl Reporter for Silent {
    fn report(&mut self, _number: u64, _line: Option<&[u8]>) {}

    fn refuse(&mut self, _number: u64, _error: u8, _line: &[u8]) {}
}

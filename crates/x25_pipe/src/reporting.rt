//! Who is told of what is refused.
use crate::pipe::Refusal;
use x25_console::Reporter;

/// Who is told of refusals, how many lines came and how many refusals there were, as far as these are counted.
#[derive(Drop)]
pub(crate) struct Reporting<P: Reporter> {
    reporter: P,
    lines: u64,
    refusals: u64,
}

impl<P: Reporter> Reporting<P> {
    pub(crate) fn new(reporter: P) -> Reporting<P> {
        Reporting {
            reporter,
            lines: 0,
            refusals: 0,
        }
    }

    /// A line more has come.
    pub(crate) fn pass(&mut self) {
        self.lines = self.lines.saturating_add(1);
    }

    /// A line more has come and is answered: where something was refused, of which the last is given, that is told.
    pub(crate) fn report(&mut self, refusals: u64, last: Refusal, line: Option<&[u8]>) {
        self.pass();
        if refusals == self.refusals {
            return;
        }
        self.refusals = refusals;
        match last {
            Refusal::Line => self.reporter.report(self.lines, line),
            Refusal::Event(error) => {
                self.reporter
                    .refuse(self.lines, error.number(), line.unwrap_or(b""));
            }
        }
    }
}

//! Lines answered as they come.
ghost use Rattle.std.specs.Prelude.{◌≡◌};

use crate::pipe::Pipe;
use crate::reporting::Reporting;
use x25_console::Reporter;
use x25_io::{Fault, LineTaker, Sink};

/// A station behind a pipe, and who is told of what it refuses.
#[derive(Drop)]
pub(crate) struct Answerer<P: Reporter> {
    pipe: Pipe,
    reporting: Reporting<P>,
}

impl<P: Reporter> Answerer<P> {
    pub(crate) fn new(pipe: Pipe, reporter: P) -> Answerer<P>
        ensures { result.pipe ≡ pipe }
    {
        Answerer {
            pipe,
            reporting: Reporting::new(reporter),
        }
    }
}

impl<P: Reporter> LineTaker for Answerer<P> {
    ghost use Rattle.x25_station.specs.Config.{Settings};
    ghost use Rattle.x25_pipe.specs.Pipe.{piped, status_of as status, text_of as text};
    ghost use Rattle.x25_pipe.specs.code.Stream.{Answers, WritesLines};

    // Which end it is, and the settings of the station.
    ghost Setting = { Settings };

    ghost text_of = { text };

    ghost status_of = { status };

    ghost waiting = { λ a. a.pipe.output };

    ghost may_want = { Unit {0} };

    ghost stands = { λ c a. Answers c a.pipe };

    ghost ended = { λ c old now lines input. WritesLines c old now lines (piped c input) };

    fn take_line<W: Sink>(&mut self, line: Option<&[u8]>, writer: &mut W) -> Result<(), Fault> {
        self.pipe.answer(line, writer)?;
        let (refusals, last) = self.pipe.refusals();
        self.reporting.report(refusals, last, line);
        self.pipe.mark(writer)
    }

    fn pass_over(&mut self) {
        self.reporting.pass();
    }

    fn write_out<W: Sink>(&mut self, writer: &mut W) -> Result<(), Fault> {
        self.pipe.flush(writer)
    }

    fn end<W: Sink>(&mut self, writer: &mut W) -> Result<u8, Fault> {
        self.pipe.flush(writer)?;
        Ok(u8::from(self.pipe.is_refused()))
    }
}

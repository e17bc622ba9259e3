//! Lines answered as they come by a station that has a clock.
ghost use Rattle.std.specs.Prelude.{◌≡◌};

use crate::reporting::Reporting;
use crate::timed::TimedPipe;
use x25_console::Reporter;
use x25_io::{Fault, LineTaker, Sink};

/// A station that has a clock, and who is told of what it refuses.
#[derive(Drop)]
pub(crate) struct TimedAnswerer<P: Reporter> {
    timed: TimedPipe,
    reporting: Reporting<P>,
}

impl<P: Reporter> TimedAnswerer<P> {
    pub(crate) fn new(timed: TimedPipe, reporter: P) -> TimedAnswerer<P>
        ensures { result.timed ≡ timed }
    {
        TimedAnswerer {
            timed,
            reporting: Reporting::new(reporter),
        }
    }
}

impl<P: Reporter> LineTaker for TimedAnswerer<P> {
    ghost use Rattle.x25_clock.specs.declared.times.Times.{Times};
    ghost use Rattle.x25_station.specs.Config.{Settings};
    ghost use Rattle.x25_pipe.specs.Timed.{timed, timed_status, timed_text};
    ghost use Rattle.x25_pipe.specs.code.TimedStream.{AnswersTimed, WritesTimed};

    // Which end it is, the settings of the station, and how long its timers are.
    ghost Setting = { Settings × Times };

    ghost text_of = { λ setting. timed_text setting.0 setting.1 };

    ghost status_of = { λ setting. timed_status setting.0 setting.1 };

    ghost waiting = { λ a. a.timed.pipe.output };

    ghost may_want = { Unit {0} };

    ghost stands = { λ setting a. AnswersTimed setting.0 setting.1 a.timed };

    ghost ended = { λ setting old now lines input. WritesTimed setting.0 setting.1 old now lines
        (timed setting.0 setting.1 input) };

    fn take_line<W: Sink>(&mut self, line: Option<&[u8]>, writer: &mut W) -> Result<(), Fault> {
        self.timed.answer(line, writer)?;
        let (refusals, last) = self.timed.pipe.refusals();
        self.reporting.report(refusals, last, line);
        self.timed.mark(writer)
    }

    fn pass_over(&mut self) {
        self.reporting.pass();
    }

    fn write_out<W: Sink>(&mut self, writer: &mut W) -> Result<(), Fault> {
        self.timed.pipe.flush(writer)
    }

    fn end<W: Sink>(&mut self, writer: &mut W) -> Result<u8, Fault> {
        self.timed.pipe.flush(writer)?;
        Ok(u8::from(self.timed.pipe.is_refused()))
    }
}

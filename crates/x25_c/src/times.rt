//! How long answers may take, as a C program hands it over.
ghost use Rattle.std.specs.Prelude.{◌≡◌};
ghost use Rattle.x25_c.specs.Clocked.{times_in, times_told};

use x25_clock::Times as ClockTimes;

/// How long each answer may take, in milliseconds, each as the clock has it; 0 is for ever.
#[repr(C)]
#[derive(Clone, Copy)]
pub struct Times {
    pub t1: u32,
    pub t3: u32,
    pub t20: u32,
    pub t21: u32,
    pub t22: u32,
    pub t23: u32,
    pub t26: u32,
    pub t25: u32,
}

impl Times {
    pub(crate) fn of(times: ClockTimes) -> Times
        ensures { result ≡ times_told times }
    {
        Times {
            t1: times.t1,
            t3: times.t3,
            t20: times.t20,
            t21: times.t21,
            t22: times.t22,
            t23: times.t23,
            t26: times.t26,
            t25: times.t25,
        }
    }

    pub(crate) fn times(self) -> ClockTimes
        ensures { result ≡ times_in self }
    {
        ClockTimes {
            t1: self.t1,
            t3: self.t3,
            t20: self.t20,
            t21: self.t21,
            t22: self.t22,
            t23: self.t23,
            t25: self.t25,
            t26: self.t26,
        }
    }
}

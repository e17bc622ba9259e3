ghost use Rattle.std.specs.Prelude.{◌≡◌};

/// Where a round is in which a switch asks the station of one line for what its calls want there, each thing until it
/// is refused.
#[derive(Clone, Copy)]
pub struct Round {
    pub(crate) line: u8,
    /// No clear of a call that wasn't taken is left to be asked.
    pub(crate) has_refused: bool,
    /// The place among the calls, and among the eight things that one wants.
    pub(crate) call: usize,
    pub(crate) place: usize,
}

impl Round {
    /// A round at a line, from its beginning.
    pub fn new(line: u8) -> Round
        ensures { result.line ≡ line }
    {
        Round {
            line,
            has_refused: false,
            call: 0,
            place: 0,
        }
    }

    /// This was asked for, at a place of a call: what is refused isn't asked again.
    pub(crate) fn went(&mut self, call: usize, place: usize, is_refused: bool)
        ensures { self.new.line ≡ self.old.line }
    {
        self.call = call;
        self.place = place;
        if is_refused {
            self.place = place.saturating_add(1);
        }
    }
}

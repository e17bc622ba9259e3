ghost use Rattle.std.specs.Prelude.{◌≡◌, ◌+◌, ◌%◌, ◌<◌, MatchOption};

/// A sequence number: a whole number modulo 8, as N(S), N(R), P(S) and P(R) are.
///
/// ITU-T X.25 (10/96), sections 2.3.2.1 and 4.4.1.
#[derive(Clone, Copy, Debug, PartialEq, Eq)]
pub struct Seq {
    pub number: u8,
    ghost below: { number < 8 },
}

impl Seq {
    /// The number 0, from which V(S) and V(R) start.
    pub const ZERO: Seq = Seq { number: 0 };

    /// The sequence number, where the number is 0 to 7.
    pub fn new(number: u8) -> Option<Seq>
        ensures { MatchOption result (¬ (number < 8)) (λ seq. (number < 8) × (seq.number ≡ number)) }
    {
        if number < 8 {
            Some(Seq { number })
        } else {
            None
        }
    }

    /// The sequence number that equals the number modulo 8.
    pub fn modulo(number: u8) -> Seq
        ensures { result.number ≡ number % 8 }
    {
        Seq { number: number % 8 }
    }

    /// The number, 0 to 7.
    pub fn get(self) -> u8
        ensures { result ≡ self.number }
    {
        self.number
    }

    /// The sequence number after this one, 0 after 7.
    pub fn next(self) -> Seq
        ensures { result.number ≡ (self.number + 1) % 8 }
    {
        Seq::modulo(self.number + 1)
    }
}

impl Default for Seq {
    fn default() -> Seq
        ensures { result.number ≡ 0 }
    {
        Seq::ZERO
    }
}

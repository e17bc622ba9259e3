ghost use Rattle.std.specs.Prelude.{◌≡◌};
ghost use Rattle.x25_circuit.specs.Awaits.{is_any};

/// The answer that an end awaits on a logical channel. ITU-T X.25 (10/96), Annex D, has the time for each.
#[derive(Clone, Copy, Debug, PartialEq, Eq)]
pub enum Awaits {
    /// None.
    Nothing,
    /// That its call be accepted: T21 of a DTE, T11 of a DCE.
    Acceptance,
    /// That its reset be confirmed: T22, or T12.
    ResetConfirmation,
    /// That its clearing be confirmed: T23, or T13.
    ClearConfirmation,
    /// That its interrupt be confirmed: T26 of a DTE.
    InterruptConfirmation,
}

impl Awaits {
    /// Whether there is one.
    pub fn is_any(self) -> bool
        ensures { result ≡ is_any self }
    {
        !matches!(self, Awaits::Nothing)
    }
}

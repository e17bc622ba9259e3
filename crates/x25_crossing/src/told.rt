use x25_circuit::Marks;

/// What is told at a leg of a call. Messages and interrupts are borrowed.
#[derive(Clone, Copy)]
pub enum Told<'a> {
    /// The other end accepted the call.
    Connected,
    /// The call was dropped for one that came.
    Collided,
    /// The other end cleared the call.
    Cleared { cause: u8, diagnostic: u8 },
    /// A clearing is confirmed for which the crossing didn't ask: no answer came in time.
    ClearDone,
    /// The station cleared the call for an error of procedure.
    ClearFault { diagnostic: u8 },
    /// The other end restarted all calls of the line.
    Restarted { cause: u8, diagnostic: u8 },
    /// The line went down, or this end restarts all calls.
    Lost,
    /// The other end reset the call.
    WasReset { cause: u8, diagnostic: u8 },
    /// A reset by this end is confirmed.
    ResetDone,
    /// The station resets the call for an error of procedure.
    ResetFault { diagnostic: u8 },
    /// A message came.
    Delivered { marks: Marks, user: &'a [u8] },
    /// An interrupt came.
    Interrupted { user: &'a [u8] },
    /// The station refuses for good what was asked of it.
    Refused { cause: u8, diagnostic: u8 },
    /// What waits for it has waited for long enough.
    Lingered,
}

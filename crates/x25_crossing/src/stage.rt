/// How a leg of a call stands.
#[derive(Clone, Copy, Debug, PartialEq, Eq)]
pub enum Stage {
    /// It is to be called.
    Calls,
    /// It was called, and hasn't answered.
    Called,
    /// The call came by it, and isn't answered.
    Came,
    /// Its call is to be accepted.
    Answers,
    /// Messages come and go.
    Open,
    /// It is to be reset.
    Resets { cause: u8, diagnostic: u8 },
    /// Its reset isn't confirmed.
    Resetting,
    /// It is to be cleared, once what waits for it has gone out.
    Clears { cause: u8, diagnostic: u8 },
    /// It stands no more.
    Gone,
}

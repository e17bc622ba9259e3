/// What is to be asked of the station of a leg before messages go.
#[derive(Clone, Copy, Debug, PartialEq, Eq)]
pub enum Ask {
    /// That a call be made, on a line of its route.
    Call,
    /// That the call that came be accepted.
    Accept,
    /// That the call be reset.
    Reset { cause: u8, diagnostic: u8 },
    /// That the call be cleared.
    Clear { cause: u8, diagnostic: u8 },
}

/// What the end of a leg is to be told of the messages that come by it.
#[derive(Clone, Copy, Debug, PartialEq, Eq)]
pub enum Flow {
    /// That they may come.
    Ready,
    /// That they are to wait.
    NotReady,
}

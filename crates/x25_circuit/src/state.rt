/// The state of a logical channel, seen from one end. ITU-T X.25 (10/96), sections 4.1 and 4.4.3.
#[derive(Clone, Copy, Debug, PartialEq, Eq)]
pub enum State {
    /// p1, ready.
    Free,
    /// This end called: p2 at a DTE, p3 at a DCE.
    Calling,
    /// The other end called: p3 at a DTE, p2 at a DCE.
    Arriving,
    /// p5, call collision, at a DTE alone.
    Collision,
    /// p4 with d1: data transfer, flow control ready.
    Open,
    /// This end reset: p4 with d2 at a DTE, with d3 at a DCE.
    Resetting,
    /// This end cleared: p6 at a DTE, p7 at a DCE.
    Clearing,
}

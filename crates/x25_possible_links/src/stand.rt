//! Where an end of a link stands.

/// In a session: its I frames, and how many of these are acknowledged to it; those that it took, and what its last N(R)
/// stood for. Numbers are whole.
#[derive(Clone, Copy)]
pub struct Numbers {
    pub sent: u64,
    pub acked: u64,
    pub taken: u64,
    pub told: u64,
}

#[derive(Clone, Copy, Default)]
pub enum Stand {
    /// In no session.
    Out,
    /// Awaiting UA.
    Asking,
    /// In a session.
    Up(Numbers),
    /// Nothing is known.
    #[default]
    Free,
}

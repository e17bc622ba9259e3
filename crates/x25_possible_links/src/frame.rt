//! What the rules of a link look at of a frame.

/// A frame of either end, or what stands for some.
#[derive(Clone, Copy, Default)]
pub enum Frame {
    /// An I frame, and whether its number is known to have gone before with other octets.
    Info { ns: u8, nr: u8, differs: bool },
    /// RR, RNR or REJ.
    Ready(u8),
    Sabm,
    Disc,
    Ua,
    Dm,
    Frmr,
    /// Octets that spell no frame: they may have been any.
    #[default]
    Unread,
    /// All that was sent before the first frame that was seen.
    Before,
}

ghost use Rattle.std.specs.Prelude.{◌≤◌};

/// Of one direction: the window, and the most octets of user data in a data packet. ITU-T X.25 (10/96), sections 4.3.2
/// and 4.4.1.2.
#[derive(Clone, Copy)]
pub struct Terms {
    pub window: u8,
    pub size: usize,
    ghost window_least: { 1 ≤ window },
    ghost window_most: { window ≤ 7 },
    ghost size_least: { 16 ≤ size },
    ghost size_most: { size ≤ 4096 },
}

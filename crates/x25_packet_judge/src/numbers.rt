//! Numbers of frames and packets, modulo 8.
ghost use Rattle.std.specs.Prelude.{◌≡◌};
ghost use Rattle.x25_packet_judge.specs.Numbers as definition;

/// How far one number lies behind another, modulo 8. ITU-T X.25 (10/96), sections 2.3.2.1 and 4.4.1.1.
pub fn apart(to: u8, from: u8) -> u8
    ensures { result ≡ definition.apart to from }
{
    (8 + to % 8 - from % 8) % 8
}

/// A count that goes down by one: 255 stands for 255 and more, so it stays.
pub fn less(count: u8) -> u8
    ensures { result ≡ definition.less count }
{
    if count == 255 {
        255
    } else {
        count.saturating_sub(1)
    }
}

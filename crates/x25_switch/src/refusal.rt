//! Calls that came and aren't taken.
ghost use Rattle.std.specs.Prelude.{◌≡◌, ◌<◌, length, IfSome};

/// A call that came by a line and is to be cleared, with this cause and diagnostic.
#[derive(Clone, Copy)]
pub(crate) struct Refusal {
    pub(crate) line: u8,
    pub(crate) channel: u16,
    pub(crate) cause: u8,
    pub(crate) diagnostic: u8,
}

/// The first one of a line.
pub(crate) fn refused_on(refusals: &[Refusal], line: u8) -> Option<usize>
    ensures { IfSome result (λ index. index < length refusals.now) }
{
    for index in 0..refusals.len() {
        if refusals[index].line == line {
            return Some(index);
        }
    }
    None
}

/// The first one of a channel of a line.
pub(crate) fn refused_at(refusals: &[Refusal], line: u8, channel: u16) -> Option<usize>
    ensures { IfSome result (λ index. index < length refusals.now) }
{
    for index in 0..refusals.len() {
        if refusals[index].line == line && refusals[index].channel == channel {
            return Some(index);
        }
    }
    None
}

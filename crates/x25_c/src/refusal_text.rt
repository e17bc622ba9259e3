//! What the number of a refusal says.
ghost use Rattle.std.specs.Prelude.{◌≡◌, length};
ghost use Rattle.x25_c.specs.Copying.{Copies};
ghost use Rattle.x25_c.specs.RefusalText.{text_of};

use crate::copying::copy;

/// Why a call is refused that answers this number; nothing where none does.
pub(crate) fn refusal_text(number: u32) -> &'static [u8]
    ensures { result.now ≡ text_of number }
{
    match number {
        9 => b"the link isn't up",
        10 => b"256 packets wait",
        11 => b"timer T1 isn't running",
        12 => b"the link is being set up",
        13 => b"the link was ended",
        14 => b"a setting is out of its range",
        15 => b"the link is up",
        16 => b"no station is held",
        17 => b"a station is held where one was to be made",
        30 => b"not in this state of the channel",
        31 => b"8 messages wait",
        32 => b"a message that is too long",
        33 => b"an interrupt isn't confirmed yet",
        34 => b"a parameter is out of range",
        40 => b"a restart is under way",
        41 => b"no channel is free",
        42 => b"no such channel",
        60 => b"no command",
        70 => b"no memory",
        _ => b"",
    }
}

/// Copies what the number of a refusal says, as `x25_frame` does; 0 where there is no such number.
#[unsafe(no_mangle)]
pub extern "C" fn x25_refusal_text(number: u32, text: &mut [u8]) -> usize
    ensures copied { Copies (text_of number) text.old text.new }
    ensures count { result ≡ length (text_of number) }
{
    copy(refusal_text(number), text)
}

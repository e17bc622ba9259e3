//! The packet sizes and windows that may follow a call or its acceptance: four numbers.
ghost use Rattle.std.specs.Prelude.{◌≡◌};
ghost use Rattle.x25_script.specs.Reading.{params_in, with_params_in, GivesWithParams};

use crate::fields::{small_number, split_blank};
use x25_circuit::Params;

#[tactic(auto, unfolding(crate::specs::Reading::params_in))]
fn read_params(text: &[u8]) -> Option<Params>
    ensures { result ≡ params_in text.now }
{
    let (size_called, rest) = split_blank(text)?;
    let (size_calling, rest) = split_blank(rest)?;
    let (win_called, win_calling) = split_blank(rest)?;
    Some(Params {
        size_called: small_number(size_called)?,
        size_calling: small_number(size_calling)?,
        win_called: small_number(win_called)?,
        win_calling: small_number(win_calling)?,
    })
}

/// The last field that has to stand, and the four numbers where a blank follows it.
#[inline(always)]
#[tactic(auto, unfolding(crate::specs::Reading::with_params_in))]
pub(crate) fn with_params(text: &[u8]) -> Option<(&[u8], Option<Params>)>
    ensures { GivesWithParams result (with_params_in text.now) }
{
    match split_blank(text) {
        Some((field, numbers)) => {
            let params = read_params(numbers)?;
            Some((field, Some(params)))
        }
        None => Some((text, None)),
    }
}

//! Bits that come in the place of those between the flags of a frame.
ghost use Rattle.std.specs.Prelude.{◌≡◌, ◌⊎◌, false, IfOk, OnOk, IfErr};
ghost use Rattle.x25_bits.specs.HarmlessBits.{between_flags, IsHarmless, first_content};
ghost use Rattle.x25_bits.specs.FrameCheck.Sealed.{is_sealed};
ghost use Rattle.x25_bits.specs.Found.{found_of};

use crate::error::WorldError;
use x25_bits::{Bits, first_content, harmless, harmless_bits_lose_a_frame};

/// The octets that come of harmless bits: those of their first content, or none. 52 Unseen where the bits aren't
/// harmless, or 70.
pub fn octets_of_damage(bits: &Bits) -> Result<Vec<u8>, WorldError>
    ensures octets { IfOk result (λ octets. octets.items ≡ first_content (found_of (between_flags bits.now))) }
    ensures harmless { OnOk result (IsHarmless bits.now) }
    ensures visible { IfOk result (λ octets. is_sealed octets.items ≡ false) }
    ensures refused { IfErr result (λ e. ((e ≡ WorldError.Unseen) × ¬ (IsHarmless bits.now))
        ⊎ (e ≡ WorldError.NoMemory)) }
{
    harmless_bits_lose_a_frame();
    let Ok(is_harmless) = harmless(bits) else {
        return Err(WorldError::NoMemory);
    };
    if !is_harmless {
        return Err(WorldError::Unseen);
    }
    match first_content(bits) {
        Ok(octets) => Ok(octets),
        Err(_) => Err(WorldError::NoMemory),
    }
}

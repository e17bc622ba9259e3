//! Laws of flags, spans and stuffing, and of the frame check sequence. Each is the contract of a function that does
//! nothing.
ghost use Rattle.std.specs.Prelude.{ℕ, ◌≡◌, ◌<◌, ◌≤◌, ◌↔◌, ◌++◌, ◌∷◌, [], All, Bool, true, false, List, length, drop};
ghost use Rattle.std.specs.List.{flat_map};
ghost use Rattle.x25_bits.specs.code.Prefix.{IsPrefix};
ghost use Rattle.x25_bits.specs.code.Calls.{Call, ReadToEnd, after_calls};
ghost use Rattle.x25_bits.specs.laws.Cuts.{found_by_cuts, found_more};
ghost use Rattle.x25_bits.specs.FrameCheck.{bits_of};
ghost use Rattle.x25_bits.specs.HarmlessBits.{between_flags, IsHarmless, IsFrame, sealed_contents, first_content};
ghost use Rattle.x25_bits.specs.FrameCheck.Sealed.{IsSealed, is_sealed};
ghost use Rattle.x25_bits.specs.Found.{Content, class_of, found_of};
ghost use Rattle.x25_bits.specs.Deframer.{flag, spans_of};
ghost use Rattle.x25_bits.specs.Stuffing.{framed, stuff, unstuff};

/// What is found in the bits so far stays found, and any cuts together find what their bits do as a whole.
pub fn cuts_agree()
    ensures begins { (before more : List Bool) → IsPrefix (found_of before) (found_of (before ++ more)) }
    ensures cuts { (cuts : List (List Bool)) → found_by_cuts [] cuts ≡ found_of (flat_map (λ cut. cut) cuts) }
    ensures later { (before : List Bool) (cuts : List (List Bool)) → found_of before
        ++ found_by_cuts before cuts ≡ found_of (before ++ flat_map (λ cut. cut) cuts) }
{}

/// Calls of `feed_next`, or of `feed_next_octets`, each from where the one before it stopped and until the bits end,
/// find together, in order, what these bits close, and the deframer then holds what it does of all the bits so far.
pub fn calls_find_all()
    ensures found { (before bits : List Bool) (at : ℕ) (calls : List Call) → ReadToEnd before bits at calls
        → flat_map (λ call. call.found) calls ≡ found_more before (drop at bits) }
    ensures read { (before bits : List Bool) (at : ℕ) (calls : List Call) → ReadToEnd before bits at calls
        → after_calls before bits at calls ≡ before ++ drop at bits }
{}

/// A flag parts the bits: what is found before it and behind it is found in all.
pub fn flag_parts()
    ensures { (before more : List Bool) → found_of (before ++ flag ++ more) ≡ found_of (before ++ flag)
        ++ found_of (flag ++ more) }
{}

/// Unstuffing gives the bits that were stuffed.
pub fn stuffing_is_undone()
    ensures { (bits : List Bool) → unstuff (stuff bits) ≡ bits }
{}

/// The content of a span, stuffed again, is the span.
pub fn content_stuffs_again()
    ensures { (bits : List Bool) → All (λ span. (octets : List ℕ) → class_of span ≡ Content octets
        → stuff (bits_of octets) ≡ span) (spans_of bits) }
{}

/// What is put is found, behind any bits: the one content between its flags is that of the octets.
pub fn put_is_found()
    ensures { (before : List Bool) (octets : List ℕ) → All (λ octet. octet < 256) octets → 4 ≤ length octets
        → length octets ≤ 4103
        → found_of (before ++ framed octets) ≡ found_of (before ++ flag) ++ Content octets ∷ [] }
{}

/// The test of octets finds their last two to be the frame check sequence of the others exactly where they are.
pub fn sealed_is_tested()
    ensures { (octets : List ℕ) → All (λ octet. octet < 256) octets → (is_sealed octets ≡ true) ↔ IsSealed octets }
{}

/// The contents that pass the check, of bits between flags one after another, are those of each; of a frame that was
/// put its octets. So where bits come in the place of those between the flags of one frame, the contents that pass are
/// those of the other frames exactly where these bits are harmless; and their first content doesn't pass.
pub fn harmless_bits_lose_a_frame()
    ensures parts { (pieces : List (List Bool))
        → sealed_contents (flat_map between_flags pieces)
        ≡ flat_map (λ bits. sealed_contents (between_flags bits)) pieces }
    ensures frame { (octets : List ℕ) → IsFrame octets → sealed_contents (framed octets) ≡ octets ∷ [] }
    ensures others { (before after : List (List ℕ)) (bits : List Bool) → All IsFrame before → All IsFrame after
        → IsHarmless bits
        → sealed_contents (flat_map framed before ++ between_flags bits ++ flat_map framed after) ≡ before ++ after }
    ensures only { (before after : List (List ℕ)) (bits : List Bool) → All IsFrame before → All IsFrame after
        → sealed_contents (flat_map framed before ++ between_flags bits ++ flat_map framed after) ≡ before ++ after
        → IsHarmless bits }
    ensures first { (bits : List Bool) → IsHarmless bits
        → is_sealed (first_content (found_of (between_flags bits))) ≡ false }
{}

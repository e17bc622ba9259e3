//! `deframe` behind `frame`: a law, the contract of a function that does nothing.
ghost use Rattle.std.specs.Prelude.{◌≡◌, ℕ, List};
ghost use Rattle.x25_bits.specs.declared.role.Role.{Role as RoleValue};
ghost use Rattle.x25_bit_line.specs.Deframing.{deframed};
ghost use Rattle.x25_bit_line.specs.Framing.{framed_octets};
ghost use Rattle.x25_bit_line.specs.laws.Trace.{AreContents, trace_text};

use x25_bits::{flag_parts, put_is_found};

/// Of a trace of frames that an end sends, each of 4 to 4,103 octets, `frame` makes octets of which `deframe` makes
/// that trace.
pub fn trace_comes_back()
    ensures { (from : RoleValue) (frames : List (List ℕ)) → AreContents frames
        → deframed from (framed_octets (trace_text from frames)) ≡ trace_text from frames }
{
    flag_parts();
    put_is_found();
}

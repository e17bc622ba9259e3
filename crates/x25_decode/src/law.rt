//! A law of the lines of a trace, as the contract of a function that does nothing.
ghost use Rattle.std.specs.Prelude.{◌≡◌, ◌<◌, ℕ, List, None, length};
ghost use Rattle.x25_decode.specs.Decoding.{gap_in, sent_in};
ghost use Rattle.x25_io.specs.HeldLine.{most_line};

/// A line that is longer than any that is held is none of a trace.
pub fn long_lines_send_nothing()
    ensures sent { (line : List ℕ) → most_line < length line → sent_in line ≡ None }
    ensures gap { (line : List ℕ) → most_line < length line → gap_in line ≡ None }
{}

//! Laws of the grammar of frames. Each is the contract of a function that does nothing.
ghost use Rattle.x25_frame.specs.laws.ReadingLaw.{ReadsSpelled, ReadsWhatIsSpelled, ReadsTheFirstError};

use x25_bits::sealed_is_tested;

/// Octets that spell a frame are read as that frame.
pub fn reads_what_is_spelled()
    ensures reads { ReadsSpelled }
{}

/// Octets read as the frame that they spell, and those that spell none read as their first error.
pub fn reading_is_the_grammar()
    ensures spelled { ReadsWhatIsSpelled }
    ensures error { ReadsTheFirstError }
{
    sealed_is_tested();
}

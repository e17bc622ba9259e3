//! The laws of the grammar of a script's lines, each as the contract of a function that does nothing.
ghost use Rattle.x25_script.specs.laws.ReadingLaw.{ReadsOctets, ReadsWhatIsSpelled};

/// Characters read as the line that they spell, and as none where they spell none.
pub fn reading_is_the_grammar()
    ensures { ReadsWhatIsSpelled }
{}

/// The user data of a command that is read, and what comes in the place of a frame, is octets.
pub fn lines_are_in_octets()
    ensures { ReadsOctets }
{}

//! The laws of both readings of packets, each the contract of a function that does nothing.
ghost use Rattle.x25_packet.specs.laws.TakingLaw.{TakesAllBehindThree, TakesInRange, TakesItsUserData};
ghost use Rattle.x25_packet.specs.laws.TakingLaw.{TakesOnItsChannel, TakesWhatIsSpelled, TakesWhatIsWritten};
ghost use Rattle.x25_packet.specs.laws.ReadingLaw.{ReadsFormsThatAreSpelled, ReadsTheFirstError, ReadsWhatIsSpelled};

/// Octets read as the packet that they spell, and those that spell none read as their first error; and so does a packet
/// in any form.
pub fn reading_is_the_grammar()
    ensures spelled { ReadsWhatIsSpelled }
    ensures error { ReadsTheFirstError }
    ensures form { ReadsFormsThatAreSpelled }
{}

/// What a station reads octets as, whether it reads one form or all: what they are in the form that it writes, where
/// they are a packet then; in all forms data with D too; on the channel that they name; a data packet's user data is
/// all that lies behind the first three; and all fields are in their ranges.
pub fn taking_keeps_octets()
    ensures written { TakesWhatIsWritten }
    ensures spelled { TakesWhatIsSpelled }
    ensures channel { TakesOnItsChannel }
    ensures octets { TakesItsUserData }
    ensures user { TakesAllBehindThree }
    ensures range { TakesInRange }
{}

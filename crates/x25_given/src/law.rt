ghost use Rattle.x25_given.specs.laws.ReadingLaw.{WrittenIsInForm, WrittenIsRead};

use x25_packet::taking_keeps_octets;

/// A packet with what is given beside it is taken, by who reads packets in all their forms, for that packet; and read
/// in the form in which it was written.
pub fn what_is_written_is_read()
    ensures read { WrittenIsRead }
    ensures form { WrittenIsInForm }
{
    taking_keeps_octets();
}

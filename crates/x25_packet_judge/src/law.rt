//! What is told of an end by a book, as laws: each is the contract of a function that does nothing.
ghost use Rattle.x25_packet_judge.specs.laws.BookClaims.{BooksFollowTapes, BooksTellExactly};
ghost use Rattle.x25_packet_judge.specs.laws.BookClaims.{InnocentTapesStayUntold, RestartsBegin};
ghost use Rattle.x25_packet_judge.specs.laws.UnseenClaims.{UnjudgedIsNoted, UnseenIsUnknown, WholeBooksFollow};

use x25_possible::{innocents_stay_untold, polite_stay_untold, sets_tell_exactly};

/// A rule of order is told of a packet exactly where no run of an end that keeps the rules explains what both ends sent
/// since the end was known, as long as it is known behind it; nothing where it isn't known.
pub fn books_tell_exactly()
    ensures { BooksTellExactly }
{
    sets_tell_exactly();
}

/// Of each end and channel the book has the set that the packets of that channel leave, whatever goes on other
/// channels.
pub fn books_follow_tapes()
    ensures { BooksFollowTapes }
{}

/// Over a whole tape, on a channel from a restart on: no rule of order is told of an end that keeps the rules there and
/// those of RESTART, whatever the other end sends on all channels, and however late that comes. Nor are manners of one
/// that keeps these too.
pub fn innocent_tapes_stay_untold()
    ensures { InnocentTapesStayUntold }
{
    sets_tell_exactly();
    innocents_stay_untold();
    polite_stay_untold();
}

/// Such tapes there are: behind a set-up of the link one end restarts, and the other one confirms it.
pub fn restarts_begin()
    ensures { RestartsBegin }
{}

/// Where frames weren't seen, or an N(R) shows that packets weren't, no end is known and the book isn't whole.
pub fn unseen_is_unknown()
    ensures { UnseenIsUnknown }
{}

/// The sets of a whole book are those that all packets since the set-up leave.
pub fn whole_books_follow()
    ensures { WholeBooksFollow }
{}

/// What isn't judged is noted, once since both ends were known; octets that are no packet break a rule.
pub fn unjudged_is_noted()
    ensures { UnjudgedIsNoted }
{}

use crate::spans::boxed;
use std::alloc::Global;
use x25_bits::Role::{Dce, Dte};
use x25_bits::{Role, Seq};
use x25_window::{Receiver, Sender};

/// A frame between two bare ends: an N(R), and perhaps a number and an item.
#[derive(Clone, Copy)]
struct Frame {
    carried: Option<(Seq, u8)>,
    ack: Seq,
}

/// What one end does, or what befalls the line to it.
#[derive(Clone, Copy)]
enum Act {
    Offer(u8),
    Next,
    Again,
    Tell,
    Deliver,
    Lose,
}

/// A sender and a receiver, with all items that were handed down and up.
#[derive(Drop)]
struct End {
    sender: Sender<u8>,
    receiver: Receiver,
    given: Vec<u8>,
    taken: Vec<u8>,
}

impl End {
    fn new(alloc: Global) -> Option<End> {
        match Sender::new(alloc, 7) {
            Ok(Some(sender)) => Some(End {
                sender,
                receiver: Receiver::new(),
                given: Vec::new(alloc),
                taken: Vec::new(alloc),
            }),
            _ => None,
        }
    }

    fn put(&self, carried: Option<(Seq, u8)>, out: &mut Vec<Frame>) -> Result<(), u8> {
        let ack = self.receiver.wanted();
        match out.push(Frame { carried, ack }) {
            Ok(()) => Ok(()),
            Err(_) => Err(70),
        }
    }

    fn offer(&mut self, item: u8, out: &mut Vec<Frame>) -> Result<(), u8> {
        match self.sender.offer(item) {
            Ok(number) => {
                if self.given.push(item).is_err() {
                    return Err(70);
                }
                self.put(Some((number, item)), out)
            }
            Err(error) => Err(error.number()),
        }
    }

    fn send_next(&mut self, out: &mut Vec<Frame>) -> Result<(), u8> {
        let Some((number, item)) = self.sender.next() else {
            return Err(55);
        };
        let item = *item;
        self.put(Some((number, item)), out)
    }

    fn hear(&mut self, frame: Frame) -> Result<(), u8> {
        if let Err(error) = self.sender.ack(frame.ack) {
            return Err(error.number());
        }
        let Some((number, item)) = frame.carried else {
            return Ok(());
        };
        if self.receiver.accept(number) && self.taken.push(item).is_err() {
            return Err(70);
        }
        Ok(())
    }

    fn receive(&mut self, back: &mut Vec<Frame>) -> Result<(), u8> {
        if back.is_empty() {
            return Err(50);
        }
        let frame = back.remove(0);
        self.hear(frame)
    }

    // Answers the number of the error that it is refused with.
    fn act(&mut self, out: &mut Vec<Frame>, back: &mut Vec<Frame>, act: Act) -> Result<(), u8> {
        match act {
            Act::Offer(item) => self.offer(item, out),
            Act::Next => self.send_next(out),
            Act::Again => {
                self.sender.go_back();
                Ok(())
            }
            Act::Tell => self.put(None, out),
            Act::Deliver => self.receive(back),
            Act::Lose => {
                if back.is_empty() {
                    return Err(51);
                }
                back.remove(0);
                Ok(())
            }
        }
    }
}

/// Two bare ends and the line between them.
#[derive(Drop)]
struct Ends {
    dte: End,
    dce: End,
    to_dce: Vec<Frame>,
    to_dte: Vec<Frame>,
}

fn two_ends(alloc: Global) -> Option<Box<Ends>> {
    let dte = End::new(alloc)?;
    let dce = End::new(alloc)?;
    boxed(
        alloc,
        Ends {
            dte,
            dce,
            to_dce: Vec::new(alloc),
            to_dte: Vec::new(alloc),
        },
    )
}

fn happens(ends: &mut Ends, role: Role, act: Act) -> Result<(), u8> {
    match role {
        Role::Dte => ends.dte.act(&mut ends.to_dce, &mut ends.to_dte, act),
        Role::Dce => ends.dce.act(&mut ends.to_dte, &mut ends.to_dce, act),
    }
}

/// An end, what it does, and what is answered; and then how many items of the DTE are unacknowledged and how many the
/// DCE has taken.
type Row = (Role, Act, Result<(), u8>, u8, usize);

/// A full window is sent again and taken once.
static REPEATED: [Row; 32] = [
    (Dte, Act::Offer(0), Ok(()), 1, 0),
    (Dte, Act::Offer(1), Ok(()), 2, 0),
    (Dte, Act::Offer(2), Ok(()), 3, 0),
    (Dte, Act::Offer(3), Ok(()), 4, 0),
    (Dte, Act::Offer(4), Ok(()), 5, 0),
    (Dte, Act::Offer(5), Ok(()), 6, 0),
    (Dte, Act::Offer(6), Ok(()), 7, 0),
    (Dce, Act::Deliver, Ok(()), 7, 1),
    (Dce, Act::Deliver, Ok(()), 7, 2),
    (Dce, Act::Deliver, Ok(()), 7, 3),
    (Dce, Act::Deliver, Ok(()), 7, 4),
    (Dce, Act::Deliver, Ok(()), 7, 5),
    (Dce, Act::Deliver, Ok(()), 7, 6),
    (Dce, Act::Deliver, Ok(()), 7, 7),
    (Dte, Act::Again, Ok(()), 7, 7),
    (Dte, Act::Next, Ok(()), 7, 7),
    (Dte, Act::Next, Ok(()), 7, 7),
    (Dte, Act::Next, Ok(()), 7, 7),
    (Dte, Act::Next, Ok(()), 7, 7),
    (Dte, Act::Next, Ok(()), 7, 7),
    (Dte, Act::Next, Ok(()), 7, 7),
    (Dte, Act::Next, Ok(()), 7, 7),
    (Dce, Act::Deliver, Ok(()), 7, 7),
    (Dce, Act::Deliver, Ok(()), 7, 7),
    (Dce, Act::Deliver, Ok(()), 7, 7),
    (Dce, Act::Deliver, Ok(()), 7, 7),
    (Dce, Act::Deliver, Ok(()), 7, 7),
    (Dce, Act::Deliver, Ok(()), 7, 7),
    (Dce, Act::Deliver, Ok(()), 7, 7),
    (Dte, Act::Offer(7), Err(8), 7, 7),
    (Dce, Act::Tell, Ok(()), 7, 7),
    (Dte, Act::Deliver, Ok(()), 0, 7),
];

/// What was lost is sent again.
static LOST: [Row; 16] = [
    (Dte, Act::Offer(0), Ok(()), 1, 0),
    (Dte, Act::Offer(1), Ok(()), 2, 0),
    (Dte, Act::Offer(2), Ok(()), 3, 0),
    (Dce, Act::Lose, Ok(()), 3, 0),
    (Dce, Act::Deliver, Ok(()), 3, 0),
    (Dce, Act::Deliver, Ok(()), 3, 0),
    (Dte, Act::Again, Ok(()), 3, 0),
    (Dte, Act::Next, Ok(()), 3, 0),
    (Dte, Act::Next, Ok(()), 3, 0),
    (Dte, Act::Next, Ok(()), 3, 0),
    (Dce, Act::Deliver, Ok(()), 3, 1),
    (Dce, Act::Deliver, Ok(()), 3, 2),
    (Dce, Act::Deliver, Ok(()), 3, 3),
    (Dte, Act::Next, Err(55), 3, 3),
    (Dce, Act::Deliver, Err(50), 3, 3),
    (Dce, Act::Lose, Err(51), 3, 3),
];

static ITEMS: [u8; 7] = [0, 1, 2, 3, 4, 5, 6];

fn answers(ends: &mut Ends, &(role, act, answer, unacked, taken): &Row) -> bool {
    happens(ends, role, act) == answer
        && ends.dte.sender.unacked() == unacked
        && Some(ends.dce.taken.as_slice()) == ITEMS.get(..taken)
}

// The first row in which two ends answer otherwise, and whether at last all items that were given are taken.
fn odd_row(alloc: Global, rows: &[Row]) -> Option<(Option<usize>, bool)> {
    let mut ends = two_ends(alloc)?;
    for (place, row) in rows.iter().enumerate() {
        if !answers(&mut ends, row) {
            return Some((Some(place), false));
        }
    }
    Some((None, ends.dte.given.as_slice() == ends.dce.taken.as_slice()))
}

#[test]
fn items_come_once_and_in_order(rt: HostRuntime) {
    for rows in [REPEATED.as_slice(), LOST.as_slice()] {
        assert_eq!(rt; odd_row(rt.alloc(), rows), Some((None, true)));
    }
}

use crate::spans::boxed;
use std::alloc::Global;
use x25_bits::Seq;
use x25_window::{Sender, WindowError};

/// A call of a sender, with numbers modulo 8.
#[derive(Clone, Copy)]
enum Call {
    Offer(u8),
    Next,
    Again,
    Acknowledges(u8),
    Ack(u8),
    Release,
    Clear,
}

/// The number, count or item that is answered, and behind the number of the next one its item; or the number of the
/// error.
type Answer = Result<Option<(u8, u8)>, u8>;

fn offer(sender: &mut Sender<u8>, item: u8) -> Answer {
    match sender.offer(item) {
        Ok(number) => Ok(Some((number.get(), 0))),
        Err(error) => Err(error.number()),
    }
}

fn counted(answer: Result<u8, WindowError>) -> Answer {
    match answer {
        Ok(count) => Ok(Some((count, 0))),
        Err(error) => Err(error.number()),
    }
}

fn play(sender: &mut Sender<u8>, call: Call) -> Answer {
    match call {
        Call::Offer(item) => offer(sender, item),
        Call::Next => match sender.next() {
            Some((number, item)) => Ok(Some((number.get(), *item))),
            None => Ok(None),
        },
        Call::Again => {
            sender.go_back();
            Ok(None)
        }
        Call::Ack(number) => counted(sender.ack(Seq::modulo(number))),
        Call::Acknowledges(number) => counted(sender.acknowledges(Seq::modulo(number))),
        Call::Release => {
            if sender.unacked() == 0 {
                return Ok(None);
            }
            Ok(Some((sender.release(), 0)))
        }
        Call::Clear => {
            sender.clear();
            Ok(None)
        }
    }
}

/// A call, its answer, and how many items are unacknowledged then.
type Row = (Call, Answer, u8);

/// A full window is sent again and acknowledged.
static FULL: [Row; 22] = [
    (Call::Offer(10), Ok(Some((0, 0))), 1),
    (Call::Offer(11), Ok(Some((1, 0))), 2),
    (Call::Offer(12), Ok(Some((2, 0))), 3),
    (Call::Offer(13), Ok(Some((3, 0))), 4),
    (Call::Offer(14), Ok(Some((4, 0))), 5),
    (Call::Offer(15), Ok(Some((5, 0))), 6),
    (Call::Offer(16), Ok(Some((6, 0))), 7),
    (Call::Offer(17), Err(8), 7),
    (Call::Next, Ok(None), 7),
    (Call::Ack(3), Ok(Some((3, 0))), 4),
    (Call::Again, Ok(None), 4),
    (Call::Next, Ok(Some((3, 13))), 4),
    (Call::Next, Ok(Some((4, 14))), 4),
    (Call::Next, Ok(Some((5, 15))), 4),
    (Call::Next, Ok(Some((6, 16))), 4),
    (Call::Offer(17), Ok(Some((7, 0))), 5),
    (Call::Offer(18), Ok(Some((0, 0))), 6),
    (Call::Ack(2), Err(7), 6),
    (Call::Ack(3), Ok(Some((0, 0))), 6),
    (Call::Ack(1), Ok(Some((6, 0))), 0),
    (Call::Clear, Ok(None), 0),
    (Call::Offer(19), Ok(Some((0, 0))), 1),
];

/// An item offered waits behind those to send again.
static AGAIN: [Row; 6] = [
    (Call::Offer(1), Ok(Some((0, 0))), 1),
    (Call::Again, Ok(None), 1),
    (Call::Offer(2), Ok(Some((1, 0))), 2),
    (Call::Next, Ok(Some((0, 1))), 2),
    (Call::Next, Ok(Some((1, 2))), 2),
    (Call::Next, Ok(None), 2),
];

/// Items are handed out as they are acknowledged, one by one.
static RELEASED: [Row; 11] = [
    (Call::Offer(1), Ok(Some((0, 0))), 1),
    (Call::Offer(2), Ok(Some((1, 0))), 2),
    (Call::Acknowledges(3), Err(7), 2),
    (Call::Acknowledges(2), Ok(Some((2, 0))), 2),
    (Call::Again, Ok(None), 2),
    (Call::Release, Ok(Some((1, 0))), 1),
    (Call::Acknowledges(2), Ok(Some((1, 0))), 1),
    (Call::Next, Ok(Some((1, 2))), 1),
    (Call::Release, Ok(Some((2, 0))), 0),
    (Call::Release, Ok(None), 0),
    (Call::Offer(3), Ok(Some((2, 0))), 1),
];

// Whether a call is answered so, and whether as many items are unacknowledged then, of a window of so many.
fn answers(sender: &mut Sender<u8>, window: u8, &(call, answer, unacked): &Row) -> bool {
    play(sender, call) == answer
        && sender.unacked() == unacked
        && sender.is_full() == (unacked == window)
        && sender.window() == window
}

// The first row in which a sender answers otherwise.
fn odd_row(sender: &mut Sender<u8>, window: u8, rows: &[Row]) -> Option<usize> {
    for (place, row) in rows.iter().enumerate() {
        if !answers(sender, window, row) {
            return Some(place);
        }
    }
    None
}

// None where there is no such window.
fn sender(alloc: Global, window: u8) -> Option<Box<Sender<u8>>> {
    match Sender::new(alloc, window) {
        Ok(Some(sender)) => boxed(alloc, sender),
        _ => None,
    }
}

fn odd_row_of(alloc: Global, window: u8, rows: &[Row]) -> Option<Option<usize>> {
    let mut sender = sender(alloc, window)?;
    Some(odd_row(&mut sender, window, rows))
}

#[test]
fn sends_and_sends_again(rt: HostRuntime) {
    assert_eq!(rt; odd_row_of(rt.alloc(), 7, FULL.as_slice()), Some(None));
    assert_eq!(rt; odd_row_of(rt.alloc(), 3, AGAIN.as_slice()), Some(None));
    assert_eq!(rt; odd_row_of(rt.alloc(), 2, RELEASED.as_slice()), Some(None));
}

// The number that the next item gets, what is answered as one is offered, and the number of the next one then.
fn numbers(alloc: Global) -> Option<(u8, Answer, u8)> {
    let mut sender = sender(alloc, 1)?;
    let first = sender.top().get();
    let answer = offer(&mut sender, 9);
    Some((first, answer, sender.top().get()))
}

#[test]
fn counts_from_zero(rt: HostRuntime) {
    assert_eq!(rt; numbers(rt.alloc()), Some((0, Ok(Some((0, 0))), 1)));
}

/// Windows, and whether there is such a window.
static WINDOWS: [(u8, bool); 5] = [(0, false), (1, true), (7, true), (8, false), (255, false)];

#[test]
fn a_window_is_one_to_seven(rt: HostRuntime) {
    for &(window, is_one) in &WINDOWS {
        assert!(rt;
            sender(rt.alloc(), window).is_some() == is_one,
            "at {window}"
        );
    }
}

#[test]
fn refusals_have_numbers(rt: HostRuntime) {
    let numbers = (WindowError::BadAck.number(), WindowError::Full.number());
    assert_eq!(rt; numbers, (7, 8));
}

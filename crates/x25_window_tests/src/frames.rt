use std::alloc::Global;
use x25_frame::Role::{Dce, Dte};
use x25_frame::{Frame, Role, Seq, command_address, decode, encode};

/// Which frame a row has: a constant can hold no sequence number but 0.
#[derive(Clone, Copy)]
enum Kind {
    Sabm,
    Ua,
    Frmr,
    Rr(u8),
    Poll,
    Rej,
    I,
}

fn frame_of(kind: Kind) -> Frame<'static> {
    match kind {
        Kind::Sabm => Frame::Sabm { p: true },
        Kind::Ua => Frame::Ua { f: true },
        Kind::Frmr => Frame::Frmr {
            f: false,
            why: [0x20, 0x00, 0x08],
        },
        Kind::Rr(number) => Frame::Rr {
            command: false,
            nr: Seq::modulo(number),
            pf: false,
        },
        Kind::Poll => Frame::Rr {
            command: true,
            nr: Seq::ZERO,
            pf: true,
        },
        Kind::Rej => Frame::Rej {
            command: false,
            nr: Seq::ZERO,
            pf: false,
        },
        Kind::I => Frame::I {
            ns: Seq::ZERO,
            nr: Seq::ZERO,
            p: false,
            info: &[0x10, 0x00, 0xFB, 0x00, 0x00],
        },
    }
}

/// Who sends the octets, the octets, and the frame that they spell.
static ROWS: [(Role, &[u8], Kind); 8] = [
    (Dte, &[0x01, 0x3F, 0xEB, 0xDF], Kind::Sabm),
    (Dce, &[0x01, 0x73, 0x83, 0x57], Kind::Ua),
    (Dce, &[0x01, 0x87, 0x20, 0x00, 0x08, 0x0F, 0x31], Kind::Frmr),
    (Dce, &[0x01, 0x21, 0x14, 0x26], Kind::Rr(1)),
    (Dte, &[0x03, 0x21, 0xA4, 0x15], Kind::Rr(1)),
    (Dte, &[0x01, 0x11, 0x97, 0x17], Kind::Poll),
    (Dce, &[0x01, 0x09, 0x5E, 0x8B], Kind::Rej),
    (
        Dte,
        &[0x01, 0x00, 0x10, 0x00, 0xFB, 0x00, 0x00, 0x77, 0x02],
        Kind::I,
    ),
];

// Whether these octets spell the frame, and are what it is spelled as.
fn spells(alloc: Global, from: Role, octets: &[u8], kind: Kind) -> bool {
    let Ok(frame) = decode(from, 4099, octets) else {
        return false;
    };
    let mut spelled = Vec::new(alloc);
    let is_spelled = encode(from, &frame, &mut spelled).is_ok();
    is_spelled && frame == frame_of(kind) && spelled.as_slice() == octets
}

#[test]
fn octets_and_frames(rt: HostRuntime) {
    for &(from, octets, kind) in &ROWS {
        assert!(rt; spells(rt.alloc(), from, octets, kind), "{octets:?}");
    }
}

/// A kind, whether it is a command, its poll or final bit, and whether it is a poll.
static KINDS: [(Kind, bool, bool, bool); 7] = [
    (Kind::Sabm, true, true, true),
    (Kind::Ua, false, true, false),
    (Kind::Frmr, false, false, false),
    (Kind::Rr(1), false, false, false),
    (Kind::Poll, true, true, true),
    (Kind::Rej, false, false, false),
    (Kind::I, true, false, false),
];

fn told(kind: Kind) -> (bool, bool, bool) {
    let frame = frame_of(kind);
    (frame.is_command(), frame.poll_or_final(), frame.is_poll())
}

#[test]
fn commands_and_polls(rt: HostRuntime) {
    for (row, &(kind, is_command, bit, is_poll)) in KINDS.iter().enumerate() {
        assert_eq!(rt; told(kind), (is_command, bit, is_poll), "row {row}");
    }
}

#[test]
fn addresses_of_commands(rt: HostRuntime) {
    assert_eq!(rt; (command_address(Dte), command_address(Dce)), (1, 3));
}

//! Octets that no table chose: 10,000 strings, made from stored numbers, at a station whose user accepts each call.

use crate::calls::{ask, receive, station};
use crate::steps::SETTINGS;
use std::alloc::Global;
use x25_bits::{Seq, seal};
use x25_frame::{Frame, decode, encode};
use x25_station::{Cfg, Cmd, Role, Station, StationError, Step};

static SABM: [u8; 4] = [0x01, 0x3f, 0xeb, 0xdf];

static RESTART: [u8; 5] = [0x10, 0x00, 0xfb, 0x00, 0x00];

static CALL: [u8; 5] = [0x10, 0x01, 0x0b, 0x00, 0x00];

/// The first octets of packets: each type, on channels 0 to 2, and two formats that there aren't.
static BEGINNINGS: [[u8; 3]; 20] = [
    [0x10, 0x01, 0x0b],
    [0x10, 0x02, 0x0b],
    [0x10, 0x01, 0x0f],
    [0x10, 0x01, 0x13],
    [0x10, 0x01, 0x17],
    [0x10, 0x01, 0x00],
    [0x90, 0x01, 0x02],
    [0x10, 0x01, 0x12],
    [0x10, 0x01, 0x01],
    [0x10, 0x01, 0x05],
    [0x10, 0x01, 0x23],
    [0x10, 0x01, 0x27],
    [0x10, 0x01, 0x1b],
    [0x10, 0x02, 0x1b],
    [0x10, 0x01, 0x1f],
    [0x10, 0x00, 0xfb],
    [0x10, 0x00, 0xff],
    [0x10, 0x00, 0x0b],
    [0x50, 0x01, 0x00],
    [0x20, 0x01, 0x00],
];

/// The number that follows a number: a xorshift of 64 bits.
fn following(number: u64) -> u64 {
    let first = number ^ (number << 13);
    let second = first ^ (first >> 7);
    second ^ (second << 17)
}

/// What the other end of the link of a DCE goes by: the numbers of its next I frame, and how many entries the DCE made.
#[derive(Clone, Copy)]
struct Seen {
    ns: Seq,
    nr: Seq,
    told: usize,
}

impl Seen {
    fn frame(&mut self, frame: &Frame) {
        match frame {
            Frame::I {
                ns,
                nr,
                p: _,
                info: _,
            } => {
                self.ns = *nr;
                self.nr = ns.next();
            }
            Frame::Rr {
                command: _,
                nr,
                pf: _,
            }
            | Frame::Rnr {
                command: _,
                nr,
                pf: _,
            } => self.ns = *nr,
            Frame::Ua { f: _ } => {
                self.ns = Seq::ZERO;
                self.nr = Seq::ZERO;
            }
            _ => {}
        }
    }

    fn octets(&mut self, octets: &[u8]) {
        if let Ok(frame) = decode(Role::Dce, 4099, octets) {
            self.frame(&frame);
        }
    }

    fn step(&mut self, step: &Step) {
        self.told = self.told.saturating_add(step.entries.len());
        for octets in step.frames.as_slice() {
            self.octets(octets.as_slice());
        }
    }
}

// The octets of an I frame with this packet.
fn information(alloc: Global, ns: Seq, nr: Seq, info: &[u8]) -> Option<Vec<u8>> {
    let frame = Frame::I {
        ns,
        nr,
        p: false,
        info,
    };
    let mut octets = Vec::new(alloc);
    encode(Role::Dte, &frame, &mut octets).ok()?;
    Some(octets)
}

// A few octets, with a frame check sequence behind them that is right but for one string of eight.
fn few_octets(alloc: Global, number: u64) -> Option<Vec<u8>> {
    let bytes = number.to_le_bytes();
    let mut octets = Vec::from_slice(alloc, &bytes[..(number % 9) as usize]).ok()?;
    if number % 8 > 0 {
        seal(&mut octets).ok()?;
    }
    Some(octets)
}

/// A DCE, and what the other end of its link goes by.
#[derive(Drop)]
struct Peer {
    alloc: Global,
    station: Box<Station>,
    out: Step,
    seen: Seen,
}

impl Peer {
    fn new(alloc: Global, cfg: Cfg) -> Result<Peer, StationError> {
        let station = station(alloc, Role::Dce, cfg)?;
        let seen = Seen {
            ns: Seq::ZERO,
            nr: Seq::ZERO,
            told: 0,
        };
        Ok(Peer {
            alloc,
            station,
            out: Step::new(alloc)?,
            seen,
        })
    }

    fn accepts(&mut self) {
        let command = Cmd::Accept {
            channel: 1,
            params: None,
            given: None,
        };
        if ask(&mut self.station, command, &mut self.out).is_ok() {
            self.seen.step(&self.out);
        }
    }

    fn sends(&mut self, octets: &[u8]) -> Option<()> {
        receive(&mut self.station, octets, &mut self.out);
        self.seen.step(&self.out);
        self.accepts();
        Some(())
    }

    /// The next I frame, with this packet.
    fn hands(&mut self, packet: &[u8]) -> Option<()> {
        let octets = information(self.alloc, self.seen.ns, self.seen.nr, packet)?;
        self.sends(octets.as_slice())
    }

    /// A packet that begins as one does.
    fn packet(&mut self, number: u64) -> Option<()> {
        let [a, b, c] = BEGINNINGS[(number % 20) as usize];
        let [d, e, f, _, _, _, _, g] = number.to_le_bytes();
        let packet = [a, b, c, d & 0x11, e & 1, f];
        self.hands(&packet[..3 + (g % 4) as usize])
    }

    fn frame(&mut self, number: u64) -> Option<()> {
        let octets = few_octets(self.alloc, number)?;
        self.sends(octets.as_slice())
    }

    // What comes as this string, made from this number.
    fn string(&mut self, string: u16, number: u64) -> Option<()> {
        match string % 32 {
            0 => self.sends(&SABM),
            1 => self.hands(&RESTART),
            2 => self.hands(&CALL),
            31 => self.frame(number),
            _ => self.packet(number),
        }
    }

    /// How many entries the DCE makes of all strings.
    fn strings(&mut self) -> Option<usize> {
        let mut number = 88_172_645_463_325_252;
        for string in 0..10_000u16 {
            number = following(number);
            self.string(string, number)?;
        }
        Some(self.seen.told)
    }
}

fn told_of_strings(alloc: Global) -> Option<usize> {
    let mut peer = Peer::new(alloc, SETTINGS).ok()?;
    peer.strings()
}

#[test]
fn all_octets_are_taken(rt: HostRuntime) {
    let told = told_of_strings(rt.alloc());
    assert!(rt; told > Some(2_000), "{told:?}");
}

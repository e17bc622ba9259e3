//! Lines of entries with what their step lends.

use std::alloc::{AllocError, Global};
use x25_station::{Cfg, Cmd, Ranges, Role, Station, StationError, Step};
use x25_text::Text;
use x25_transcript::push_entry;

const SETTINGS: Cfg = Cfg {
    k: 7,
    n2: 1,
    channels: Ranges {
        count: 1,
        incoming: 0,
        outgoing: 0,
        message: 65_535,
    },
    long_data: false,
    say_sizes: false,
    wide: false,
};

const CALL: Cmd<'static> = Cmd::Call {
    called: "123",
    calling: "4",
    user: b"A",
    params: None,
    given: None,
};

// Frames of the DCE, by ITU-T X.25 (10/96), sections 2.4.4.1, 5.5.1 and 5.2.1: UA, RESTART INDICATION, RR and CALL
// ACCEPTED.

const UA: &[u8] = &[0x01, 0x73, 0x83, 0x57];

const RESTARTS: &[u8] = &[0x03, 0x00, 0x10, 0x00, 0xFB, 0x07, 0x00, 0xC4, 0x78];

const RR_1: &[u8] = &[0x01, 0x21, 0x14, 0x26];

const ACCEPTED: &[u8] = &[0x03, 0x42, 0x10, 0x01, 0x0F, 0xC0, 0x99];

// The calls of a station without their claims: a body that makes one of the station's own carries all that it promises.

fn station(alloc: Global) -> Option<Box<Station>> {
    let station = Station::new(alloc, Role::Dte, SETTINGS).ok()?;
    Box::new(alloc, station).ok()
}

fn receive(station: &mut Station, octets: &[u8], out: &mut Step) {
    station.receive(octets, out);
}

fn ask(station: &mut Station, command: Cmd<'_>, out: &mut Step) -> Result<(), StationError> {
    station.command(command, out)
}

// What the step tells, behind the text.
fn push_entries(out: &Step, text: &mut Text) -> Result<(), AllocError> {
    for entry in out.entries.as_slice() {
        push_entry(Role::Dte, entry, out.entries.lent(), text)?;
    }
    Ok(())
}

// A call is asked for over a link that is set up.
fn calls(station: &mut Station, out: &mut Step) -> Result<(), StationError> {
    ask(station, Cmd::Connect, out)?;
    for octets in [UA, RESTARTS, RR_1] {
        receive(station, octets, out);
    }
    ask(station, CALL, out)
}

// Its other end accepts it, and a message of 65,535 octets is sent.
fn sends(alloc: Global, station: &mut Station, out: &mut Step) -> Option<()> {
    let octets = vec![in alloc; 0xabu8; 65_535].ok()?;
    receive(station, ACCEPTED, out);
    let message = Cmd::Send {
        channel: 1,
        q: true,
        d: false,
        user: octets.as_slice(),
    };
    ask(station, message, out).ok()
}

// The lines of the call, and of the message behind it.
fn said(alloc: Global) -> Option<Text> {
    let mut station = station(alloc)?;
    let mut out = Step::new(alloc).ok()?;
    let mut text = Text::new(alloc).ok()?;
    calls(&mut station, &mut out).ok()?;
    push_entries(&out, &mut text).ok()?;
    sends(alloc, &mut station, &mut out)?;
    push_entries(&out, &mut text).ok()?;
    Some(text)
}

fn wanted(alloc: Global) -> Result<Vec<u8>, AllocError> {
    let mut wanted = Vec::new(alloc);
    wanted.extend_from_slice(b"dte call ch=1 at 1.0.0 called=123 calling=4 data=41\n")?;
    wanted.extend_from_slice(b"dte send ch=1 at 1.0.0 q=1 data=")?;
    for _ in 0..65_535u32 {
        wanted.extend_from_slice(b"ab")?;
    }
    wanted.extend_from_slice(b"\n")?;
    Ok(wanted)
}

fn is_said(alloc: Global) -> Option<bool> {
    let wanted = wanted(alloc).ok()?;
    Some(said(alloc)?.as_slice() == wanted.as_slice())
}

// More characters than the text has room for at first.
#[test]
fn says_what_its_step_lends(rt: HostRuntime) {
    assert_eq!(rt; is_said(rt.alloc()), Some(true));
}

//! What a call asks of a station whose link is down, and what it is told of what one tells.
use std::alloc::Global;
use x25_crossing::{Crossing, Side, Told};
use x25_station::{Cfg, Ranges, Role, Station, Step, Told as StationTold};
use x25_switch::{Kind, ask, told_of};

const SETTINGS: Cfg = Cfg {
    k: 7,
    n2: 1,
    channels: Ranges {
        count: 1,
        incoming: 0,
        outgoing: 0,
        message: 65_535,
    },
    long_data: false,
    say_sizes: false,
    wide: false,
};

fn boxed<T: Drop>(alloc: Global, value: T) -> Option<Box<T>> {
    Box::new(alloc, value).ok()
}

// A call whose near leg is to be accepted.
fn call(alloc: Global) -> Option<Box<Crossing>> {
    let mut call = Crossing::new(alloc, 10).ok()?;
    call.asked(Side::Far);
    call.told(Side::Far, Told::Connected).ok()?;
    boxed(alloc, call)
}

fn station(alloc: Global) -> Option<Box<Station>> {
    boxed(alloc, Station::new(alloc, Role::Dce, SETTINGS).ok()?)
}

fn step(alloc: Global) -> Option<Box<Step>> {
    boxed(alloc, Step::new(alloc).ok()?)
}

// The number of the refusal, 0 where it is accepted, none where nothing is asked.
fn number(call: &mut Crossing, kind: Kind, station: &mut Station, step: &mut Step) -> Option<u8> {
    match ask(call, Side::Near, kind, Role::Dce, 1, station, step)? {
        Ok(()) => Some(0),
        Err(error) => Some(error.number()),
    }
}

fn asked(alloc: Global, kind: Kind) -> Option<Option<u8>> {
    let mut call = call(alloc)?;
    let mut station = station(alloc)?;
    let mut step = step(alloc)?;
    Some(number(&mut call, kind, &mut station, &mut step))
}

#[test]
fn a_call_asks_its_station(rt: HostRuntime) {
    let control = asked(rt.alloc(), Kind::Control);
    let message = asked(rt.alloc(), Kind::Message);
    assert_eq!(rt; (control, message), (Some(Some(9)), Some(None)));
}

fn is_cleared(step: &Step, clears: bool) -> Option<bool> {
    let fault = StationTold::Fault { diagnostic: 2 };
    let told = told_of(&fault, step.entries.lent(), clears)?;
    Some(matches!(told, Told::ClearFault { diagnostic: 2 }))
}

fn told(alloc: Global) -> Option<(bool, bool)> {
    let step = step(alloc)?;
    Some((is_cleared(&step, true)?, is_cleared(&step, false)?))
}

#[test]
fn faults_clear_or_reset(rt: HostRuntime) {
    assert_eq!(rt; told(rt.alloc()), Some((true, false)));
}

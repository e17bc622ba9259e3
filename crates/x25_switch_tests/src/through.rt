//! A call through a switch of two lines.
use crate::net::Net;
use std::alloc::Global;
use x25_station::Cmd;

/// Both lines come up; the user of line 0 calls that of line 1, who accepts; a message; the call is cleared.
static STEPS: [(u8, Cmd<'static>); 6] = [
    (0, Cmd::Connect),
    (1, Cmd::Connect),
    (
        0,
        Cmd::Call {
            called: "15",
            calling: "05",
            user: &[1],
            params: None,
            given: None,
        },
    ),
    (
        1,
        Cmd::Accept {
            channel: 1,
            params: None,
            given: None,
        },
    ),
    (
        0,
        Cmd::Send {
            channel: 1,
            q: true,
            d: false,
            user: &[7; 300],
        },
    ),
    (
        0,
        Cmd::Clear {
            channel: 1,
            cause: 0,
            diagnostic: 5,
            given: None,
        },
    ),
];

/// What users are told, as `net.rt` has it.
static TOLD: [u8; 4] = [0x11, 2, 0x13, 0x14];

fn play(net: &mut Net, steps: &[(u8, Cmd<'static>)]) -> Option<usize> {
    for (index, &(line, asked)) in steps.iter().enumerate() {
        if net.user(line, asked).is_none() {
            return Some(index);
        }
    }
    None
}

// The first step that fails, what users were told, and how many calls there are in the end.
fn played(alloc: Global) -> Option<(Option<usize>, bool, usize)> {
    let mut net = Net::new(alloc)?;
    if net.route(&[1], &[1]) != 0 {
        return None;
    }
    let failed = play(&mut net, &STEPS);
    net.linger();
    Some((failed, net.log.as_slice() == TOLD.as_slice(), net.calls()))
}

#[test]
fn a_call_goes_through_a_switch(rt: HostRuntime) {
    assert_eq!(rt; played(rt.alloc()), Some((None, true, 0)));
}

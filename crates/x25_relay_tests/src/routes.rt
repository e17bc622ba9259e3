//! Routes that are made, refused, found and removed.
use std::alloc::Global;
use x25_routes::{RouteError, Routes};

/// What is done to routes over three lines.
#[derive(Clone, Copy)]
enum Step {
    /// A route is made: its prefix, what that becomes, and its lines.
    Make(&'static [u8], &'static [u8], &'static [u8]),
    Remove(&'static [u8]),
}

/// What is done, and the number of its refusal or else 0.
static STEPS: [(Step, u8); 12] = [
    (Step::Make(&[3, 1], &[3, 1], &[0]), 0),
    (Step::Make(&[3, 1], &[9], &[1]), 83),
    (Step::Make(&[3, 10], &[], &[0]), 81),
    (Step::Make(&[1; 16], &[], &[0]), 81),
    (Step::Make(&[4], &[10], &[9]), 81),
    (Step::Make(&[3, 1], &[3, 1], &[]), 80),
    (Step::Make(&[4], &[4], &[0, 3]), 80),
    (Step::Make(&[1; 15], &[], &[0]), 0),
    (Step::Make(&[4, 5, 6, 7], &[9, 9], &[1, 2]), 0),
    (Step::Make(&[], &[], &[2]), 0),
    (Step::Remove(&[4]), 82),
    (Step::Remove(&[1; 15]), 0),
];

/// A called address; the lines that are found, what its prefix becomes, and the digits after it.
type Row = (
    &'static [u8],
    Option<(&'static [u8], &'static [u8], &'static [u8])>,
);

static FOUND: [Row; 6] = [
    (&[3, 1, 5], Some((&[0], &[3, 1], &[5]))),
    (&[3], Some((&[2], &[], &[3]))),
    (&[4, 5, 6, 7, 8], Some((&[1, 2], &[9, 9], &[8]))),
    (&[4, 5, 6], Some((&[2], &[], &[4, 5, 6]))),
    (&[1; 15], Some((&[2], &[], &[1; 15]))),
    (&[], Some((&[2], &[], &[]))),
];

static FOUND_WITHOUT_ALL: [Row; 2] = [(&[3, 1], Some((&[0], &[3, 1], &[]))), (&[3], None)];

fn number(done: Result<(), RouteError>) -> u8 {
    match done {
        Ok(()) => 0,
        Err(error) => error.number(),
    }
}

fn does(routes: &mut Routes, step: Step) -> u8 {
    match step {
        Step::Make(prefix, becomes, lines) => number(routes.route(prefix, becomes, lines)),
        Step::Remove(prefix) => number(routes.unroute(prefix)),
    }
}

// The first step that is refused otherwise, if any.
fn odd_step(routes: &mut Routes, steps: &[(Step, u8)]) -> Option<usize> {
    for (index, &(step, wanted)) in steps.iter().enumerate() {
        if does(routes, step) != wanted {
            return Some(index);
        }
    }
    None
}

fn finds(routes: &Routes, called: &[u8], wanted: Option<(&[u8], &[u8], &[u8])>) -> bool {
    match (routes.find(called), wanted) {
        (Some(found), Some((lines, becomes, rest))) => {
            found.lines == lines && found.becomes == becomes && found.rest == rest
        }
        (None, None) => true,
        _ => false,
    }
}

// The first row of which another is found, if any.
fn odd_row(routes: &Routes, rows: &[Row]) -> Option<usize> {
    for (index, &(called, wanted)) in rows.iter().enumerate() {
        if !finds(routes, called, wanted) {
            return Some(index);
        }
    }
    None
}

// What is odd of the steps, of what is found then, and of what is found without the route of all addresses.
fn played(alloc: Global) -> (Option<usize>, Option<usize>, u8, Option<usize>) {
    let mut routes = Routes::new(alloc, 3);
    let steps = odd_step(&mut routes, &STEPS);
    let rows = odd_row(&routes, &FOUND);
    let removed = does(&mut routes, Step::Remove(&[]));
    (steps, rows, removed, odd_row(&routes, &FOUND_WITHOUT_ALL))
}

#[test]
fn the_longest_prefix_holds(rt: HostRuntime) {
    assert_eq!(rt; played(rt.alloc()), (None, None, 0, None));
}

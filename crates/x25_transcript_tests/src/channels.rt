use crate::lines::is_line;
use x25_layer::{Params, Stretch};
use x25_station::{Asked, Entry, Role, Told};

/// A count may have 20 digits.
const LATE: Stretch = Stretch {
    restarts: 18_446_744_073_709_551_615,
    clears: 10,
    resets: 260,
};

/// Each isn't the default.
const OTHERS: Params = Params {
    size_called: 8,
    size_calling: 12,
    win_called: 3,
    win_calling: 1,
};

/// All but one are the defaults.
const ONE_WINDOW: Params = Params {
    size_called: 7,
    size_calling: 7,
    win_called: 2,
    win_calling: 7,
};

/// Entries of each order; `tests/golden` has one of each kind.
static SHOWN: [&str; 5] = [
    "dce call ch=16 at 18446744073709551615.10.260 called=- calling=- data=- size=8,12 win=3,1\n",
    "dce int ch=16 at 18446744073709551615.10.260 data=-\n",
    "dce accept ch=16 size=7,7 win=2,7\n",
    "dce incoming ch=16 at 18446744073709551615.10.260 called=- calling=- data=- size=7,7 win=2,7\n",
    "dce interrupt ch=16 at 18446744073709551615.10.260 data=-\n",
];

fn asked(asked: Asked) -> Entry {
    Entry::Asked {
        channel: 16,
        name: LATE,
        asked,
    }
}

fn told(told: Told) -> Entry {
    Entry::Told {
        channel: 16,
        name: LATE,
        told,
    }
}

fn entry(row: usize) -> Entry {
    match row {
        0 => asked(Asked::Call { params: OTHERS }),
        1 => asked(Asked::Interrupt),
        2 => asked(Asked::Accept { params: ONE_WINDOW }),
        3 => told(Told::Incoming { params: ONE_WINDOW }),
        _ => told(Told::Interrupted),
    }
}

#[test]
fn shows_entries_of_a_channel(rt: HostRuntime) {
    for (row, shown) in SHOWN.iter().enumerate() {
        let is_shown = is_line(rt.alloc(), Role::Dce, entry(row), shown);
        assert_eq!(rt; is_shown, Ok(true), "{shown}");
    }
}

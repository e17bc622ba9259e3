use std::alloc::{AllocError, Global};
use x25_layer::Stretch;
use x25_station::{Asked, Entries, Entry, Marks, Role, Told};
use x25_text::Text;
use x25_transcript::{entry_line, push_entry};

/// Whether this is the line of the entry at this end, where its step lends nothing.
pub fn is_line(alloc: Global, at: Role, entry: Entry, line: &str) -> Result<bool, AllocError> {
    let entries = Entries::new(alloc)?;
    let found = entry_line(alloc, at, &entry, entries.lent())?;
    Ok(found.as_slice() == line.as_bytes())
}

// Whether these are the lines of two entries, the one at the DCE and the other at the DTE.
fn are_lines(
    alloc: Global,
    at_dce: &Entry,
    at_dte: &Entry,
    lines: &[u8],
) -> Result<bool, AllocError> {
    let entries = Entries::new(alloc)?;
    let mut text = Text::new(alloc)?;
    push_entry(Role::Dce, at_dce, entries.lent(), &mut text)?;
    push_entry(Role::Dte, at_dte, entries.lent(), &mut text)?;
    Ok(text.as_slice() == lines)
}

fn are_link_up_and_restart(alloc: Global, lines: &[u8]) -> Result<bool, AllocError> {
    let restart = Entry::RestartAsked {
        cause: 0,
        diagnostic: 7,
    };
    are_lines(alloc, &Entry::LinkUp, &restart, lines)
}

#[test]
fn stands_behind_what_was_pushed(rt: HostRuntime) {
    let lines = b"dce linkup\ndte restart diag=7\n".as_slice();
    assert_eq!(rt; are_link_up_and_restart(rt.alloc(), lines), Ok(true));
}

/// A channel, and counts of several digits.
const LATE: Stretch = Stretch {
    restarts: 10,
    clears: 3,
    resets: 18_446_744_073_709_551_615,
};

// A message of no octets that came.
const DELIVERED: Entry = Entry::Told {
    channel: 16,
    name: LATE,
    told: Told::Delivered {
        marks: Marks { q: true, d: false },
    },
};

#[test]
fn writes_deliveries_of_larger_numbers(rt: HostRuntime) {
    let line = "dce message ch=16 at 10.3.18446744073709551615 q=1 data=-\n";
    assert_eq!(rt; is_line(rt.alloc(), Role::Dce, DELIVERED, line), Ok(true));
}

// A message of no octets whose confirmation is asked.
const ASKING: Entry = Entry::Asked {
    channel: 16,
    name: LATE,
    asked: Asked::Send {
        marks: Marks { q: false, d: true },
    },
};

#[test]
fn shows_that_confirmation_is_asked(rt: HostRuntime) {
    let line = "dte send ch=16 at 10.3.18446744073709551615 q=0 d=1 data=-\n";
    assert_eq!(rt; is_line(rt.alloc(), Role::Dte, ASKING, line), Ok(true));
}

// A message that is to be sent.
fn sent(channel: u16, name: Stretch) -> Entry {
    Entry::Asked {
        channel,
        name,
        asked: Asked::Send {
            marks: Marks { q: true, d: false },
        },
    }
}

/// Channels and stretches whose numbers have one digit, two, three and more, and the lines of messages there.
static NUMBERS: [(u16, Stretch, &str); 9] = [
    (
        9,
        Stretch {
            restarts: 0,
            clears: 9,
            resets: 5,
        },
        "dte send ch=9 at 0.9.5 q=1 data=-\n",
    ),
    (
        10,
        Stretch {
            restarts: 9,
            clears: 0,
            resets: 9,
        },
        "dte send ch=10 at 9.0.9 q=1 data=-\n",
    ),
    (
        1,
        Stretch {
            restarts: 1,
            clears: 10,
            resets: 4,
        },
        "dte send ch=1 at 1.10.4 q=1 data=-\n",
    ),
    (
        1,
        Stretch {
            restarts: 1,
            clears: 99,
            resets: 42,
        },
        "dte send ch=1 at 1.99.42 q=1 data=-\n",
    ),
    (
        1,
        Stretch {
            restarts: 1,
            clears: 100,
            resets: 7,
        },
        "dte send ch=1 at 1.100.7 q=1 data=-\n",
    ),
    (
        3,
        Stretch {
            restarts: 1,
            clears: 137,
            resets: 0,
        },
        "dte send ch=3 at 1.137.0 q=1 data=-\n",
    ),
    (
        57,
        Stretch {
            restarts: 306,
            clears: 999,
            resets: 480,
        },
        "dte send ch=57 at 306.999.480 q=1 data=-\n",
    ),
    (
        128,
        Stretch {
            restarts: 12,
            clears: 1_000,
            resets: 9_999,
        },
        "dte send ch=128 at 12.1000.9999 q=1 data=-\n",
    ),
    (
        4_095,
        Stretch {
            restarts: 65_536,
            clears: 5,
            resets: 123_456_789,
        },
        "dte send ch=4095 at 65536.5.123456789 q=1 data=-\n",
    ),
];

#[test]
fn writes_numbers_of_one_digit_and_more(rt: HostRuntime) {
    for &(channel, name, shown) in &NUMBERS {
        let entry = sent(channel, name);
        assert_eq!(rt;
            is_line(rt.alloc(), Role::Dte, entry, shown),
            Ok(true),
            "{shown}"
        );
    }
}

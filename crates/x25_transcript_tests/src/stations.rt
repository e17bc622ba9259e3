use crate::lines::is_line;
use x25_layer::Stretch;
use x25_link::{Ending, Reason};
use x25_station::{Entry, Role};

/// Why a link goes down, and its line at the DCE.
static REASONS: [(Reason, &str); 8] = [
    (Reason::Retries, "dce linkdown retries\n"),
    (Reason::Disc, "dce linkdown disc\n"),
    (Reason::Dm, "dce linkdown dm\n"),
    (Reason::FrmrSent, "dce linkdown frmr-sent\n"),
    (Reason::FrmrGot, "dce linkdown frmr-got\n"),
    (Reason::Reset, "dce linkdown reset\n"),
    (Reason::Local, "dce linkdown local\n"),
    (Reason::Counts, "dce linkdown counts\n"),
];

#[test]
fn says_why_the_link_went_down(rt: HostRuntime) {
    for &(reason, shown) in &REASONS {
        let is_shown = is_line(rt.alloc(), Role::Dce, Entry::LinkDown(reason), shown);
        assert_eq!(rt; is_shown, Ok(true), "{shown}");
    }
}

/// How it ends that a link is disconnected, and its line at the DTE.
static ENDINGS: [(Ending, &str); 3] = [
    (Ending::ByUa, "dte disconnected ua\n"),
    (Ending::ByDm, "dte disconnected dm\n"),
    (Ending::GivenUp, "dte disconnected retries\n"),
];

#[test]
fn says_how_a_disc_ended(rt: HostRuntime) {
    for &(ending, shown) in &ENDINGS {
        let is_shown = is_line(rt.alloc(), Role::Dte, Entry::Disconnected(ending), shown);
        assert_eq!(rt; is_shown, Ok(true), "{shown}");
    }
}

#[test]
fn shows_that_something_came_beside(rt: HostRuntime) {
    let shown = "dce beside ch=3 fac=- data=-\n";
    let is_shown = is_line(rt.alloc(), Role::Dce, Entry::Beside { channel: 3 }, shown);
    assert_eq!(rt; is_shown, Ok(true));
}

#[test]
fn shows_what_is_confirmed(rt: HostRuntime) {
    let name = Stretch {
        restarts: 1,
        clears: 0,
        resets: 12,
    };
    let confirmed = Entry::Confirmed {
        channel: 4_095,
        name,
        count: 15,
    };
    let shown = "dte confirmed ch=4095 at 1.0.12 count=15\n";
    assert_eq!(rt; is_line(rt.alloc(), Role::Dte, confirmed, shown), Ok(true));
}

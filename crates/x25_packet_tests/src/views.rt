use x25_packet::{Halves, call_views};

/// Whether these are the digits that a text shows.
pub fn are_figures(found: &Halves, wanted: &str) -> bool {
    let wanted = wanted.as_bytes();
    if found.len() != wanted.len() {
        return false;
    }
    for place in 0..wanted.len() {
        if found.get(place) + 48 != wanted[place] {
            return false;
        }
    }
    true
}

/// The A bit and a body; its digits, facility field and user data.
struct Row {
    a: bool,
    body: &'static [u8],
    called: &'static str,
    calling: &'static str,
    field: &'static [u8],
    user: &'static [u8],
}

/// Of no octet; with addresses; with all; with less than it says; with types and plans.
static ROWS: [Row; 6] = [
    Row {
        a: false,
        body: &[],
        called: "",
        calling: "",
        field: &[],
        user: &[],
    },
    Row {
        a: false,
        body: &[0x43, 0x12, 0x34, 0x56, 0x70],
        called: "123",
        calling: "4567",
        field: &[],
        user: &[],
    },
    Row {
        a: false,
        body: &[0x12, 0x12, 0x30, 6, 1, 0x80, 0x43, 2, 3, 0, 0x41, 0x42],
        called: "12",
        calling: "3",
        field: &[0x43, 2, 3],
        user: &[0x41, 0x42],
    },
    Row {
        a: false,
        body: &[0x43, 0x12, 0x34],
        called: "123",
        calling: "4",
        field: &[],
        user: &[],
    },
    Row {
        a: false,
        body: &[0, 9, 0x42, 7, 8],
        called: "",
        calling: "",
        field: &[0x42, 7, 8],
        user: &[],
    },
    Row {
        a: true,
        body: &[
            6, 5, 0x11, 0x49, 0x30, 0x20, 0x13, 0x20, 3, 0x42, 7, 7, 0x41,
        ],
        called: "4930",
        calling: "132",
        field: &[0x42, 7, 7],
        user: &[0x41],
    },
];

#[test]
fn bodies(rt: HostRuntime) {
    for row in &ROWS {
        let body = row.body;
        let views = call_views(row.a, body);
        let has_views = are_figures(&views.called, row.called)
            && are_figures(&views.calling, row.calling)
            && views.facilities.as_slice() == row.field
            && views.user == row.user;
        assert!(rt; has_views, "{body:?}");
    }
}

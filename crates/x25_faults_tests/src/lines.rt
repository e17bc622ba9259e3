use std::test::Fail;
use x25_io::{HeldLine, Piece, split_line};

/// The most characters of a line that is held.
const MOST_LINE: usize = 131_200;

/// A text, and where it has a line feed the line before the first one and what stands behind it.
static TEXTS: [(&[u8], Option<(&[u8], &[u8])>); 11] = [
    (b"\n", Some((b"", b""))),
    (b"a\nb", Some((b"a", b"b"))),
    (b"a\n\nb\n", Some((b"a", b"\nb\n"))),
    (b"> 01\n< 02", Some((b"> 01", b"< 02"))),
    (b"dte send 1 0 aa\n", Some((b"dte send 1 0 aa", b""))),
    (
        b"deliver >\ndeliver <\n",
        Some((b"deliver >", b"deliver <\n")),
    ),
    (b"dte send 1 0 aabb\na", Some((b"dte send 1 0 aabb", b"a"))),
    (
        b"dte send 1 0 aa0\na\n",
        Some((b"dte send 1 0 aa0", b"a\n")),
    ),
    (b"", None),
    (b"a", None),
    (b"dte send 1 0 aabbccddeeff", None),
];

#[test]
fn splits_at_the_first_line_feed(rt: HostRuntime) {
    for &(text, wanted) in &TEXTS {
        assert_eq!(rt; split_line(text), wanted);
    }
}

/// How many characters a line has, and whether it is held.
static LINES: [(usize, bool); 5] = [
    (0, true),
    (MOST_LINE, true),
    (MOST_LINE + 1, false),
    (1, true),
    (2 * MOST_LINE, false),
];

// Whether there are no characters of a line that came in pieces, whether it is held, and whether none is.
fn holds(held: &mut HeldLine, line: &[u8]) -> (bool, bool, bool) {
    for piece in line.chunks(1_000) {
        held.hold(piece);
    }
    let found = (
        held.is_empty(),
        held.line() == Some(line),
        held.line().is_none(),
    );
    held.clear();
    found
}

#[test]
fn holds_lines_in_pieces(rt: HostRuntime) -> Result<(), Fail> {
    let mut held = HeldLine::new(rt.alloc())?;
    for &(count, is_held) in &LINES {
        let line = vec![in rt.alloc(); b'a'; count]?;
        let found = holds(&mut held, line.as_slice());
        assert_eq!(rt; found, (count == 0, is_held, !is_held), "{count}");
    }
    Ok(())
}

#[test]
fn makes_memory_to_read_into(rt: HostRuntime) {
    assert!(rt; Piece::new(rt.alloc()).is_ok());
}

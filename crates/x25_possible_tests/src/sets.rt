//! Sets of states behind tapes.
use x25_bits::Role;
use x25_possible::{Defaults, Packet, Said, Set, Terms, Told};

static USUAL: Terms = Terms {
    defaults: Defaults {
        size: 128,
        window: 2,
    },
    calling_size: 128,
    called_size: 128,
    calling_window: 2,
    called_window: 2,
};

static AS_PROPOSED: Said = Said {
    sizes: None,
    windows: None,
};

fn data(ps: u8) -> Packet {
    Packet::Data {
        q: false,
        m: false,
        ps,
        pr: 0,
        size: 9,
    }
}

/// 0 to 7 are data packets by P(S), a to h RRs by P(R).
fn packet_of(letter: u8) -> Packet {
    match letter {
        b'C' => Packet::Call(USUAL),
        b'A' => Packet::Accept(AS_PROPOSED),
        b'L' => Packet::Clear,
        b'M' => Packet::ClearConf,
        b'R' => Packet::Reset,
        b'S' => Packet::ResetConf,
        b'T' => Packet::Restart,
        b'U' => Packet::RestartConf,
        b'I' => Packet::Interrupt,
        b'J' => Packet::InterruptConf,
        b'E' => Packet::Elsewhere,
        b'a'..=b'h' => Packet::Rr(letter - b'a'),
        _ => data(letter % 8),
    }
}

fn mark_of(told: Told) -> u8 {
    match told {
        Told::Nothing => b'.',
        Told::Rude(_) => b'~',
        Told::Broken(_) => b'!',
    }
}

/// Whether of the packets of the end (behind `>`; `<` of the other one) this is told.
fn is_told(begun: &Set, tape: &[u8], told: &[u8]) -> bool {
    let mut set = begun.copy();
    let mut count = 0;
    let mut is_own = false;
    for &letter in tape {
        match letter {
            b'>' => is_own = true,
            b'<' => is_own = false,
            _ => if is_own {
                let mark = mark_of(set.sends(&packet_of(letter)));
                if count >= told.len() || told[count] != mark {
                    return false;
                }
                count += 1;
            } else {
                set.shows(&packet_of(letter));
            },
        }
    }
    count == told.len()
}

/// Tapes from a restart on, and what is told of each packet of the end.
static KNOWN: [(Role, &[u8], &[u8]); 18] = [
    (Role::Dte, b">C<A>0>1>2>3>4>5>6>7", b"...~~~~~!"),
    (Role::Dte, b">C<A>0>2>3>5", b"..!.!"),
    (Role::Dte, b">C<A<0>b>c>d>e", b"..!.."),
    (Role::Dte, b">0", b"!"),
    (Role::Dte, b">C>C<A>0", b".!."),
    (Role::Dte, b">T>T<U>C", b"..."),
    (Role::Dte, b">C<A>L>L<M>C", b"...."),
    (Role::Dte, b">C<A>R>R<S>0<S>1", b"....."),
    (Role::Dte, b"<C>A<L<L>M>M", b"..."),
    (Role::Dte, b"<L<L>M>C<A>0", b"..."),
    (Role::Dce, b">C<C>A>0", b"..."),
    (Role::Dte, b">C<C>A", b".!"),
    (Role::Dte, b">C<A<R<R>S>a", b"..."),
    (Role::Dte, b">C<A>I>I", b"..!"),
    (Role::Dte, b">C<A<I>J>J", b"..!"),
    (Role::Dce, b"<C>A<L>R>a", b"..!"),
    (Role::Dte, b">E>T>E", b"..!"),
    (Role::Dte, b"<T>E>U>E", b"..."),
];

#[test]
fn tells_of_an_end(rt: HostRuntime) {
    for &(role, tape, told) in &KNOWN {
        assert!(rt; is_told(&Set::new(role), tape, told), "{tape:?}");
    }
}

/// Tapes from where nothing is known.
static UNKNOWN: [(&[u8], &[u8]); 11] = [
    (b">0>M>S>J>U>A", b"......"),
    (b">L<M>0", b".!"),
    (b"<L>0>M>0", b"..."),
    (b">C<A>1", b".!"),
    (b"<C>0>A>1", b"..."),
    (b"<T>T>0", b".!"),
    (b">T<T>M", b".."),
    (b">L<C<L>M", b".."),
    (b">1>2>3>4>5>6>7>0>1>2>3>4>5>6>7>0>2", b"................."),
    (
        b">0>1>2>3>4>5>6<h>7>0>1>2>3>4>5<g>6>7<a>0>2>J>I>I",
        b".................!..!",
    ),
    (
        b">0>1>2>3>4>5>6<h>7>0>1>2>3>4>5<g>6>7<h>0>2>J>I>I",
        b".....................",
    ),
];

#[test]
fn finds_an_end(rt: HostRuntime) {
    for &(tape, told) in &UNKNOWN {
        assert!(rt; is_told(&Set::any(Role::Dte), tape, told), "{tape:?}");
    }
}

/// Whether a set is known behind a tape.
fn is_found(begun: &Set, tape: &[u8]) -> bool {
    let mut set = begun.copy();
    is_found_by(&mut set, tape)
}

fn is_found_by(set: &mut Set, tape: &[u8]) -> bool {
    let mut is_own = false;
    for &letter in tape {
        match letter {
            b'>' => is_own = true,
            b'<' => is_own = false,
            _ => if is_own {
                set.sends(&packet_of(letter));
            } else {
                set.shows(&packet_of(letter));
            },
        }
    }
    set.is_known()
}

/// Behind which tapes the DTE is known that wasn't.
static FOUND: [(&[u8], bool); 8] = [
    (b"", false),
    (b">L", false),
    (b">L<M", true),
    (b">L<L", false),
    (b">0>L<0<M", true),
    (b"<L>M", true),
    (b">M", false),
    (b"<R>S", false),
];

#[test]
fn knows_an_end(rt: HostRuntime) {
    for &(tape, is_known) in &FOUND {
        assert_eq!(rt; is_found(&Set::any(Role::Dte), tape), is_known, "{tape:?}");
    }
    assert!(rt; is_found(&Set::new(Role::Dte), b""));
    assert!(rt; is_found(&Set::ready(Role::Dte), b">T"));
}

/// Behind which tapes from a restart on a packet of the DTE is its request once more, before the answer.
static REPEATS: [(&[u8], u8, bool); 9] = [
    (b"", b'T', false),
    (b">T", b'T', true),
    (b">T<U", b'T', false),
    (b">T", b'L', false),
    (b">L<C", b'L', true),
    (b"<L", b'L', false),
    (b">C<A>R", b'R', true),
    (b">C<A<R", b'R', false),
    (b">C<A>R", b'L', false),
];

#[test]
fn knows_repeats(rt: HostRuntime) {
    for &(tape, letter, is_again) in &REPEATS {
        let mut set = Set::new(Role::Dte);
        is_found_by(&mut set, tape);
        assert_eq!(rt;
            set.repeats(&packet_of(letter)),
            is_again,
            "{tape:?} {letter}"
        );
    }
    let mut set = Set::any(Role::Dte);
    is_found_by(&mut set, b">T");
    assert!(rt; !set.repeats(&Packet::Restart));
}

/// Tapes from a set-up of the link: each RESTART may be answered by some of those that cross it.
static SET_UP: [(&[u8], &[u8]); 3] = [
    (b">0>T>0", b"..!"),
    (b"<T>T>T<U<C<T>T<C>A>h", b"....!"),
    (b"<T>T>T<U>T<C<U>T<U>C>L<M>C<T>L>U>C<A>g", b"..........!"),
];

#[test]
fn follows_restarts(rt: HostRuntime) {
    for &(tape, told) in &SET_UP {
        assert!(rt; is_told(&Set::ready(Role::Dte), tape, told), "{tape:?}");
    }
}

/// What was on the way where packets weren't seen comes yet: from there on, what is told of the DTE, and whether it is
/// known.
static LOST: [(&[u8], &[u8], &[u8], bool); 10] = [
    (b"", b"", b"", false),
    (b"", b">T<U", b".", true),
    (b"<T", b">T<T>U", b"..", true),
    (b"<L", b">0>1", b"..", false),
    (b"<L", b">M>C", b"..", true),
    (b"<L", b">L<C<L>M>M", b"..!", false),
    (b"<T", b">M>E>U>U", b"...!", false),
    (b"<C", b">A>0>2", b"..!", true),
    (b">C<A<R", b">0>S>0>2", b"....", false),
    (b"<L", b"<C<C<C<C<C<C<C<C<C<C<C<C<C<C<C<C>M", b".", false),
];

#[test]
fn keeps_the_way(rt: HostRuntime) {
    for &(before, tape, told, is_known) in &LOST {
        let mut set = Set::new(Role::Dte);
        is_found_by(&mut set, before);
        set.lose();
        set.lose();
        assert!(rt; is_told(&set, tape, told), "{before:?} {tape:?}");
        assert_eq!(rt; is_found(&set, tape), is_known, "{before:?} {tape:?}");
    }
}

// A packet that wasn't read: no call is known behind it, but a CLEAR that is answered is.
#[test]
fn doubts_an_end(rt: HostRuntime) {
    let mut set = Set::new(Role::Dte);
    set.doubt();
    assert!(rt; !is_found(&set, b""));
    assert!(rt; !is_found(&set, b"<C>A>0"));
    assert!(rt; is_found(&set, b"<L>M"));
}

// More wait than there is room for.
#[test]
fn tells_nothing_without_room(rt: HostRuntime) {
    let mut set = Set::new(Role::Dte);
    for _ in 0..17 {
        set.shows(&Packet::Reset);
        set.shows(&Packet::Call(USUAL));
    }
    assert!(rt; !set.is_known());
    assert_eq!(rt; mark_of(set.sends(&Packet::InterruptConf)), b'.');
    set.shows(&Packet::Restart);
    assert_eq!(rt; mark_of(set.sends(&Packet::RestartConf)), b'.');
    assert!(rt; !set.is_known());
}

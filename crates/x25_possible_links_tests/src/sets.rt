//! Sets of places behind tapes.
use x25_possible_links::{Frame, LinkSet, Stand, Told};

/// 0 to 7 are I frames by N(S), p to w those that went before with other octets, a to h RRs by N(R).
fn frame_of(letter: u8) -> Frame {
    match letter {
        b'S' => Frame::Sabm,
        b'D' => Frame::Disc,
        b'U' => Frame::Ua,
        b'M' => Frame::Dm,
        b'F' => Frame::Frmr,
        b'X' => Frame::Unread,
        b'a'..=b'h' => Frame::Ready(letter - b'a'),
        b'p'..=b'w' => Frame::Info {
            ns: letter - b'p',
            nr: 0,
            differs: true,
        },
        _ => Frame::Info {
            ns: letter % 8,
            nr: 0,
            differs: false,
        },
    }
}

/// Whether of the frames of the end (behind `>`; `<` of the other one) this is told: nothing, a rule, or `~`, that one
/// leaves numbers out.
fn is_told(tape: &[u8], told: &[u8]) -> bool {
    let mut set = LinkSet::new();
    let mut count = 0;
    let mut is_own = false;
    for &letter in tape {
        match letter {
            b'>' => is_own = true,
            b'<' => is_own = false,
            _ => if is_own {
                let mark = match set.sends(frame_of(letter)) {
                    Told::Nothing => b'.',
                    Told::Skips(_) => b'~',
                    Told::Broken(_) => b'!',
                };
                if count >= told.len() || told[count] != mark {
                    return false;
                }
                count += 1;
            } else {
                set.shows(frame_of(letter));
            },
        }
    }
    count == told.len()
}

/// Tapes from where nothing is known.
static TOLD: [(&[u8], &[u8]); 27] = [
    (b">S0", b".!"),
    (b">S<U>01", b"..."),
    (b">S<U>0p", b"..!"),
    (b">S<U>02", b"..~"),
    (b">S<U>0230", b"..~.."),
    (b">S<U>0p12", b"..!.."),
    (b">S<U>bb", b".!."),
    (b">S<U>0<b>01", b"...."),
    (b">S<U>0123456", b"........"),
    (b">S<U>01234567", b"........!"),
    (b">S<U>0123456<b>7", b"........."),
    (b">S<U>b", b".!"),
    (b">S<U0>b", b".."),
    (b">S<U0>ba", b"..!"),
    (b">S<U0>a<1>c", b"..."),
    (b">S<U>aD<U>a", b"...!"),
    (b">S<U>aM0", b"...!"),
    (b">SS<U0U>b", b"..."),
    (b">SS<U0U>a", b"..."),
    (b">S<S>U0", b"..."),
    (b">S<SU>U0", b"..."),
    (b">S<U0>b<S>UU", b"...!"),
    (b">S<U0>b<S>U0", b"...."),
    (b">S<U0>b<D>Ua", b"...!"),
    (b">S<X>0", b".."),
    (b">S<U>X01", b"...."),
    (b">5UU0", b"...."),
];

#[test]
fn tells_of_an_end(rt: HostRuntime) {
    for &(tape, told) in &TOLD {
        assert!(rt; is_told(tape, told), "{tape:?}");
    }
}

/// Where more is on the way than there is room for, it is told of on.
#[test]
fn tells_behind_a_long_way(rt: HostRuntime) {
    let mut set = behind(b"<S>U");
    for _ in 0..300 {
        set.shows(Frame::Ready(0));
        assert!(rt; matches!(set.sends(Frame::Ready(0)), Told::Nothing));
    }
    assert!(rt; !set.is_blind && set.facts(Frame::Ready(0)).is_sure);
    assert!(rt; matches!(set.sends(Frame::Ready(3)), Told::Broken(_)));
}

/// An end that awaits UA may have missed one that counts as come, so nothing is known of it.
#[test]
fn may_miss_its_answer(rt: HostRuntime) {
    let mut set = behind(b">S<U");
    for _ in 0..128 {
        set.shows(Frame::Ready(0));
    }
    assert!(rt; set.is_blind && !set.is_known());
    assert!(rt; matches!(set.sends(Frame::Sabm), Told::Nothing));
    assert!(rt; set.is_known());
}

/// UA to what was sent before may come to it as long as it awaits UA, and none that is shown may have come; and I
/// frames where no frame that is shown began its session.
#[test]
fn awaits_an_answer_of_before(rt: HostRuntime) {
    let waits: [&[u8]; 5] = [b">S", b">S<S", b"<S>U>S<0", b">U", b">U<0"];
    for tape in waits {
        assert!(rt; behind(tape).awaits_before(), "{tape:?}");
    }
    let others: [&[u8]; 7] = [b"", b">D", b">S<U", b">S<U>0S", b">S0", b"<S>U", b">U<0>b"];
    for tape in others {
        assert!(rt; !behind(tape).awaits_before(), "{tape:?}");
    }
}

/// I frames, or octets that may be one, may come in front of a SABM or DISC as long as an older one may wait.
#[test]
fn is_open_where_its_answer_may_be_an_older_one(rt: HostRuntime) {
    let open: [&[u8]; 4] = [b"<S>U<0S>U", b"<0S>U", b"<S>U<XD>U", b"<S>U<S0S>U"];
    for tape in open {
        assert!(rt; behind(tape).is_open(), "{tape:?}");
    }
    let others: [&[u8]; 5] = [
        b"",
        b"<S>U<0",
        b"<SS>U<0>U",
        b"<S>U<0>b<S>U",
        b"<S>U<0>b<0SS>U<0",
    ];
    for tape in others {
        assert!(rt; !behind(tape).is_open(), "{tape:?}");
    }
}

/// Where there is no room for its places it may be anywhere, and what is on the way is.
#[test]
fn keeps_the_way_without_room(rt: HostRuntime) {
    let mut set = behind(b">S<U0>b<S>XXXXXXXXX");
    assert!(rt; set.is_blind && !set.is_known());
    assert!(rt; set.has_request() && set.is_followed());
    assert!(rt; matches!(set.sends(Frame::Ua), Told::Nothing));
}

/// The set behind a tape.
fn behind(tape: &[u8]) -> LinkSet {
    let mut set = LinkSet::new();
    let mut is_own = false;
    for &letter in tape {
        match letter {
            b'>' => is_own = true,
            b'<' => is_own = false,
            _ => if is_own {
                set.sends(frame_of(letter));
            } else {
                set.shows(frame_of(letter));
            },
        }
    }
    set
}

/// Its I frames in a session; or 97 in none, 98 where it awaits UA, 99 where nothing is known.
fn sent_by(stand: Stand) -> u64 {
    match stand {
        Stand::Up(k) => k.sent,
        Stand::Out => 97,
        Stand::Asking => 98,
        Stand::Free => 99,
    }
}

fn digit(is_so: bool) -> u8 {
    if is_so { b'1' } else { b'0' }
}

/// What it has sent, where octets that spell no frame were none, and where it is known to be in a session; how much
/// can't be read.
fn stands(tape: &[u8]) -> (u64, u64, usize) {
    let set = behind(tape);
    (
        sent_by(set.numbers()),
        match set.takes(Frame::Ready(0)) {
            Some(k) => k.sent,
            None => 99,
        },
        set.unread(),
    )
}

/// Whether it is known, surely, with V(S), and whether UA of it is judged and what it may answer is shown.
fn marks(tape: &[u8]) -> [u8; 5] {
    let set = behind(tape);
    let facts = set.facts(Frame::Ua);
    [
        digit(set.is_known() && facts.is_known),
        digit(facts.is_sure),
        digit(facts.is_counted),
        digit(facts.is_answering),
        digit(set.is_followed()),
    ]
}

static KNOWN: [(&[u8], (u64, u64, usize), [u8; 5]); 13] = [
    (b"", (99, 99, 0), *b"00100"),
    (b"<S", (99, 99, 0), *b"00110"),
    (b">0<S", (99, 99, 0), *b"00110"),
    (b">S", (98, 99, 0), *b"11100"),
    (b">U", (0, 99, 0), *b"11100"),
    (b">D", (97, 99, 0), *b"11100"),
    (b">X", (99, 99, 0), *b"00100"),
    (b">S<U>0", (1, 1, 0), *b"11111"),
    (b">S<U>01", (2, 2, 0), *b"11111"),
    (b">S<U>0X", (1, 99, 0), *b"11011"),
    (b">S<U>0<X", (1, 99, 1), *b"10111"),
    (b">S<U>0<S", (1, 99, 0), *b"11111"),
    (b">S<U>0b", (1, 99, 0), *b"10111"),
];

#[test]
fn knows_an_end(rt: HostRuntime) {
    for &(tape, at, marked) in &KNOWN {
        assert_eq!(rt; (stands(tape), marks(tape)), (at, marked), "{tape:?}");
        assert!(rt; !behind(tape).facts(Frame::Dm).is_answering);
    }
}

/// What it has sent behind a frame that it sends in its session; 99 where it isn't in one so, or may not send that.
fn step(set: &mut LinkSet, frame: Frame) -> u64 {
    match set.steps(frame) {
        Some((_, next)) => {
            set.stands(next);
            sent_by(set.numbers())
        }
        None => 99,
    }
}

#[test]
fn goes_on_in_a_session(rt: HostRuntime) {
    let mut set = behind(b">S<U>0");
    let steps = (
        step(&mut set, frame_of(b'1')),
        step(&mut set, frame_of(b'3')),
    );
    assert_eq!(rt; steps, (2, 99));
}

// What is heard at once doesn't wait. Of 129 set-ups 65 do.
#[test]
fn keeps_half_without_room(rt: HostRuntime) {
    let mut set = LinkSet::new();
    set.sends(Frame::Sabm);
    set.shows(Frame::Ua);
    set.sends(Frame::Ready(0));
    for _ in 0..1000 {
        set.shows(Frame::Ready(0));
        set.sends(Frame::Ready(0));
    }
    assert!(rt; !set.is_blind);
    for _ in 0..129 {
        set.shows(Frame::Sabm);
    }
    assert!(rt; !set.is_blind && set.is_known());
    for _ in 0..65 {
        assert!(rt; matches!(set.sends(Frame::Ua), Told::Nothing));
    }
    assert!(rt; matches!(set.sends(Frame::Ua), Told::Broken(_)));
}

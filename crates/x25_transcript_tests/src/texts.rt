use std::alloc::{AllocError, Global};
use x25_text::{ROOM, Text, lowest_set};

fn push(text: &mut Text) -> Result<(), AllocError> {
    text.try_push(b"> ")?;
    text.try_push_hexadecimal(&[1, 63, 235, 223])?;
    text.try_push_number(b" n=", 18_446_744_073_709_551_615)?;
    text.try_push_number(b" m=", 0)?;
    text.try_push(b" data=")?;
    text.try_push_octets(&[])?;
    text.try_push_octets(&[0, 171])
}

// Whether a text is empty when it is made, and is this behind what is pushed.
fn is_pushed(alloc: Global, wanted: &[u8]) -> Result<(bool, bool), AllocError> {
    let mut text = Text::new(alloc)?;
    let is_new = text.is_empty();
    push(&mut text)?;
    Ok((is_new, text.as_slice() == wanted))
}

#[test]
fn pushes_labels_and_what_stands_behind_them(rt: HostRuntime) {
    let wanted = b"> 013febdf n=18446744073709551615 m=0 data=-00ab".as_slice();
    assert_eq!(rt; is_pushed(rt.alloc(), wanted), Ok((true, true)));
}

fn ends_so(characters: &[u8]) -> bool {
    characters.len() > ROOM && &characters[ROOM..] == b"fafaf and more".as_slice()
}

// How many characters are there, whether the last are right, and whether the text begins anew once it is cleared.
fn grows_by(text: &mut Text, octets: &[u8]) -> Result<(usize, bool, bool), AllocError> {
    text.try_push_octets(octets)?;
    text.try_push(b" and more")?;
    let count = text.len();
    let ends_so = ends_so(text.as_slice());
    text.clear();
    text.push(b"again");
    Ok((count, ends_so, text.as_slice() == b"again".as_slice()))
}

// More characters than are set aside at first, and others behind them.
fn grown(alloc: Global) -> Result<(usize, bool, bool), AllocError> {
    let octets = vec![in alloc; 175u8; ROOM / 2]?;
    let mut text = Text::new(alloc)?;
    text.push(b"data=");
    grows_by(&mut text, octets.as_slice())
}

#[test]
fn grows(rt: HostRuntime) {
    assert_eq!(rt; grown(rt.alloc()), Ok((ROOM + 14, true, true)));
}

#[test]
fn finds_the_lowest_bit(rt: HostRuntime) {
    assert_eq!(rt;
        (lowest_set(0), lowest_set(1), lowest_set(0x8400)),
        (16, 0, 10)
    );
}

use crate::shown::Shown;
use std::alloc::Global;
use x25_script::{lines_are_in_octets, read_line, reading_is_the_grammar};

/// Lines of a script, each with what it says behind ` = `.
const LINES: &str = "\
dte call 1 2 41 = DTE: call of [1] from [2] with 41\n\
dce call 123 4567 48656C6c6F = DCE: call of [123] from [4567] with 48656c6c6f\n\
dte call - - - = DTE: call of [] from [] with none\n\
dte call 0 - 00 = DTE: call of [0] from [] with 00\n\
dce call 1234567890123456 00 - = DCE: call of [1234567890123456] from [00] with none\n\
dte accept 1 = DTE: accepts 1\n\
dce accept 0 = DCE: accepts 0\n\
dte accept 65535 = DTE: accepts 65535\n\
dte call 1 2 - 7 7 2 2 = DTE: call of [1] from [2] with none, called 7 by 2, calling 7 by 2\n\
dce call 12 3 4142 4 12 1 7 = DCE: call of [12] from [3] with 4142, called 4 by 1, calling 12 by 7\n\
dte call - - - 0 255 0 255 = DTE: call of [] from [] with none, called 0 by 0, calling 255 by 255\n\
dce call 1 2 - 3 7 2 2 = DCE: call of [1] from [2] with none, called 3 by 2, calling 7 by 2\n\
dce call 1 2 - 7 7 0 8 = DCE: call of [1] from [2] with none, called 7 by 0, calling 7 by 8\n\
dte call 1 2 00 255 0 255 0 = DTE: call of [1] from [2] with 00, called 255 by 255, calling 0 by 0\n\
dte accept 1 7 7 2 2 = DTE: accepts 1, called 7 by 2, calling 7 by 2\n\
dce accept 0 7 7 2 2 = DCE: accepts 0, called 7 by 2, calling 7 by 2\n\
dce accept 1 7 8 3 2 = DCE: accepts 1, called 7 by 3, calling 8 by 2\n\
dte accept 65535 255 254 253 252 = DTE: accepts 65535, called 255 by 253, calling 254 by 252\n\
dte accept 1 0 0 0 0 = DTE: accepts 1, called 0 by 0, calling 0 by 0\n\
dte clear 4095 = DTE: clears 4095\n\
dte send 1 0 - = DTE: sends on 1 with Q false none\n\
dce send 10 1 0aF9 = DCE: sends on 10 with Q true 0af9\n\
dte send 1 0 d 41 = DTE: sends on 1 with Q false, D 41\n\
dce send 4095 1 d - = DCE: sends on 4095 with Q true, D none\n\
dte int 1 00 = DTE: interrupts 1 by 00\n\
dte int 1 - = DTE: interrupts 1 by none\n\
dce reset 2 = DCE: resets 2\n\
dte ready 3 = DTE: is ready on 3\n\
dte notready 256 = DTE: is not ready on 256\n\
dce restart = DCE: restarts\n\
dte pull = DTE: pulls\n\
dce pull = DCE: pulls\n\
dce connect = DCE: connects\n\
dte disconnect = DTE: disconnects\n\
dte probe = DTE: probes\n\
dce relink = DCE: relinks\n\
t1 dte = T1 of DTE\n\
t1 dce = T1 of DCE\n\
deliver > = from DTE comes one\n\
deliver < = from DCE comes one\n\
lose > 0 = from DTE is lost 0\n\
lose < 65535 = from DCE is lost 65535\n\
damage > 0 - = from DTE 0 becomes none\n\
damage < 12 0AbCdEf9 = from DCE 12 becomes 0abcdef9\n\
drain 1 = at most 1 come\n\
drain 65535 = at most 65535 come\n\
heal = heals\n\
dce send 100 0 00 = DCE: sends on 100 with Q false 00\n\
dte send 99 1 00FF = DTE: sends on 99 with Q true 00ff\n\
dte reset 1 = DTE: resets 1\n\
dte clear 1 cause=0 = DTE: clears 1, cause 0\n\
dce clear 4095 diag=255 = DCE: clears 4095, diagnostic 255\n\
dte clear 65535 cause=128 diag=5 = DTE: clears 65535, cause 128, diagnostic 5\n\
dce reset 1 cause=255 diag=0 = DCE: resets 1, cause 255, diagnostic 0\n\
dte restart diag=5 = DTE: restarts, diagnostic 5\n\
dce restart cause=7 diag=250 = DCE: restarts, cause 7, diagnostic 250\n\
dte with 0101 - call 1 2 41 = DTE: with facilities 0101, none, D false: call of [1] from [2] with 41\n\
dce with - C0ffee d accept 2 = DCE: with facilities none, c0ffee, D true: accepts 2\n\
dce with c901AA 00 accept 1 7 8 3 2 = DCE: with facilities c901aa, 00, D false: accepts 1, called 7 by 3, \
calling 8 by 2\n\
dte with - 6279 clear 1 cause=130 diag=5 = DTE: with facilities none, 6279, D false: clears 1, cause 130, \
diagnostic 5\n\
dte with - - d clear 65535 = DTE: with facilities none, none, D true: clears 65535\n\
";

// Whether the line says what it is to say.
fn says_so(alloc: Global, row: &str) -> Option<bool> {
    let (line, wanted) = row.split_once(" = ")?;
    let said = read_line(line.as_bytes(), &mut Shown, &mut { alloc }).ok()??;
    Some(said.as_str() == wanted)
}

#[test]
fn lines_say_what_they_spell(rt: HostRuntime) {
    let mut rest = LINES;
    for _ in 0..LINES.len() {
        let Some((row, behind)) = rest.split_once('\n') else {
            break;
        };
        assert_eq!(rt; says_so(rt.alloc(), row), Some(true), "{row}");
        rest = behind;
    }
}

/// Texts that are no lines; `tests/golden` has others.
static OTHERS: [&[u8]; 21] = [
    b"",
    b"t1 dte\n",
    b"dte send 1 0 0g",
    b"dte clear 1 cause=256",
    b"dte reset 1 diag=5 cause=7",
    b"dte restart cause=",
    b"dte ready 1 diag=5",
    b"dte with",
    b"dte with 0101 -",
    b"dte with 0101 call 1 2 -",
    b"dte with 010 - call 1 2 -",
    b"dte with 0101 - d d call 1 2 -",
    b"dte with 0101 - D call 1 2 -",
    b"dte with 0101 - call 1 2 - 7 7 2",
    b"dte with 0101 - send 1 0 00",
    b"dte with - - with - - clear 1",
    b"dte send 1 0 d",
    b"dte send 1 0 d ",
    b"dte send 1 0 D 41",
    b"dte send 1 0 d d 41",
    b"dte send 1 d 41",
];

fn is_no_line(line: &[u8], mut alloc: Global) -> bool {
    matches!(read_line(line, &mut Shown, &mut alloc), Ok(None))
}

#[test]
fn others_are_no_lines(rt: HostRuntime) {
    reading_is_the_grammar();
    lines_are_in_octets();
    for line in &OTHERS {
        assert!(rt; is_no_line(line, rt.alloc()), "{line:?}");
    }
}

//! Test vectors of the FCS, of frames and of packets.
ghost use Rattle.std.specs.Prelude.{◌≡◌, true, if◌then◌else◌, length, map, IfOk, IsErrOf, OnErr, OnOk};
ghost use Rattle.std.specs.Io.KnownBytes.{Appends};
ghost use Rattle.std.specs.List.{flat_map, list_all};
ghost use Rattle.x25_decode.specs.TestVectors.{are_right, is_check_right, is_right, shown, verdict, verdict_of};
ghost use Rattle.x25_decode.specs.TestVectors.{verdicts};
ghost use Rattle.x25_io.specs.code.Written.{AppendsPrefix};

use crate::answer::{Reading, answer};
use std::alloc::Global;
use x25_bits::fcs;
use x25_io::{Failed, Fault, Sink, write_all};
use x25_text::{MOST_OCTETS, Text};

/// How the lines of the vectors are read.
const AS_WRITTEN: Reading = Reading {
    long: false,
    wide: false,
};

/// A line for `decode`, and the line that answers it.
struct Vector {
    name: &'static str,
    line: &'static str,
    answer: &'static str,
}

/// The first vector: the check value of the FCS.
const CHECK_VALUE: u16 = 0x906E;

static VECTORS: [Vector; 16] = [
    Vector {
        name: "V2",
        line: "> 013febdf",
        answer: "> SABM cmd P=1\n",
    },
    Vector {
        name: "V3",
        line: "< 01738357",
        answer: "< UA rsp F=1\n",
    },
    Vector {
        name: "V4",
        line: "> 033f5bec",
        answer: "> fault 4 undefined ctl=3f\n",
    },
    Vector {
        name: "V5",
        line: "> 053f8bb8",
        answer: "> fault 3 address\n",
    },
    Vector {
        name: "V6",
        line: "> 01001000fb00007702",
        answer: "> I cmd P=0 S=0 R=0 | RESTART cause=0 diag=0\n",
    },
    Vector {
        name: "V7",
        line: "< 03001000fb0700c478",
        answer: "< I cmd P=0 S=0 R=0 | RESTART cause=7 diag=0\n",
    },
    Vector {
        name: "V8",
        line: "< 01211426",
        answer: "< RR rsp F=0 R=1\n",
    },
    Vector {
        name: "V9",
        line: "> 0321a415",
        answer: "> RR rsp F=0 R=1\n",
    },
    Vector {
        name: "V10",
        line: "< 01095e8b",
        answer: "< REJ rsp F=0 R=0\n",
    },
    Vector {
        name: "V11",
        line: "> 01119717",
        answer: "> RR cmd P=1 R=0\n",
    },
    Vector {
        name: "V12",
        line: "< 01f199f0",
        answer: "< RR rsp F=1 R=7\n",
    },
    Vector {
        name: "V13",
        line: "< 01872000080f31",
        answer: "< FRMR rsp F=0 why=200008\n",
    },
    Vector {
        name: "V14",
        line: "> 0101",
        answer: "> fault 1 short\n",
    },
    Vector {
        name: "V15",
        line: "> 013febde",
        answer: "> fault 2 fcs\n",
    },
    Vector {
        name: "V16",
        line: "> 01209d37",
        answer: "> I cmd P=0 S=0 R=1 | fault 20 diag=38\n",
    },
    Vector {
        name: "V17",
        line: "> 012210010b431234567000417605",
        answer: "> I cmd P=0 S=1 R=1 | CALL ch=1 called=123 calling=4567 fac=- data=41\n",
    },
];

/// Writes a name, and `ok` or `bad`.
fn write_verdict<W: Sink>(writer: &mut W, name: &str, is_right: bool) -> Result<(), Failed>
    ensures ok { OnOk result (Appends (W.contents writer.old) (W.contents writer.new) (verdict name.now is_right)) }
    ensures err { OnErr result (AppendsPrefix (W.contents writer.old) (W.contents writer.new)
        (verdict name.now is_right)) }
    ensures kept { OnOk result (W.is_marked writer.new ≡ W.is_marked writer.old) }
    ensures marked { OnErr result (W.is_marked writer.new ≡ true) }
{
    write_all(writer, name.as_bytes())?;
    if is_right {
        write_all(writer, b" ok\n")
    } else {
        write_all(writer, b" bad\n")
    }
}

/// Whether the vector's line is answered by its answer.
fn holds(vector: &Vector, octets: &mut [u8], text: &mut Text) -> bool
    requires { length octets.old ≡ MOST_OCTETS }
    ensures { result ≡ is_right (shown vector.now) }
{
    text.clear();
    answer(AS_WRITTEN, vector.line.as_bytes(), octets, text);
    text.as_slice() == vector.answer.as_bytes()
}

/// Writes a line for each vector, and answers whether all hold.
fn write_each<W: Sink>(vectors: &[Vector], text: &mut Text, writer: &mut W) -> Result<bool, Failed>
    ensures right { IfOk result (λ all. all ≡ list_all is_right (map shown vectors.now)) }
    ensures ok { OnOk result (Appends (W.contents writer.old) (W.contents writer.new)
        (flat_map verdict_of (map shown vectors.now))) }
    ensures err { OnErr result (AppendsPrefix (W.contents writer.old) (W.contents writer.new)
        (flat_map verdict_of (map shown vectors.now))) }
    ensures kept { OnOk result (W.is_marked writer.new ≡ W.is_marked writer.old) }
    ensures marked { OnErr result (W.is_marked writer.new ≡ true) }
{
    let mut octets = [0u8; MOST_OCTETS];
    let mut all_right = true;
    for vector in vectors {
        let is_right = holds(vector, &mut octets, text);
        write_verdict(writer, vector.name, is_right)?;
        all_right &= is_right;
    }
    Ok(all_right)
}

fn write_verdicts<W: Sink>(text: &mut Text, writer: &mut W) -> Result<bool, Failed>
    ensures right { IfOk result (λ all. all ≡ are_right) }
    ensures ok { OnOk result (Appends (W.contents writer.old) (W.contents writer.new) verdicts) }
    ensures err { OnErr result (AppendsPrefix (W.contents writer.old) (W.contents writer.new) verdicts) }
    ensures kept { OnOk result (W.is_marked writer.new ≡ W.is_marked writer.old) }
    ensures marked { OnErr result (W.is_marked writer.new ≡ true) }
{
    let check_right = fcs(b"123456789") == CHECK_VALUE;
    write_verdict(writer, "V1", check_right)?;
    let others_right = write_each(&VECTORS, text, writer)?;
    Ok(check_right & others_right)
}

/// Writes a line for each vector, its name and `ok` or `bad`, and answers the status: 1 where one is bad, else 0.
///
/// Its buffer is made first: `NoMemory` comes with nothing written. Profile.
pub fn vectors<W: Sink>(alloc: Global, writer: &mut W) -> Result<u8, Fault>
    // What is written is the verdicts on the stored vectors, and the status is theirs.
    ensures text { OnOk result (Appends (W.contents writer.old) (W.contents writer.new) verdicts) }
    ensures status { IfOk result (λ status. status ≡ (if are_right then 0 else 1)) }
    // Where a status is answered, no call of the writer failed.
    ensures clean { OnOk result (W.is_marked writer.new ≡ W.is_marked writer.old) }

    // What was written before a fault is a beginning of them.
    ensures fault { OnErr result (AppendsPrefix (W.contents writer.old) (W.contents writer.new) verdicts) }
    ensures memory { IsErrOf result Fault.NoMemory → writer.new ≡ writer.old }
    ensures read { IsErrOf result Fault.Read → ⊥ }
    ensures write { IsErrOf result Fault.Write → W.is_marked writer.new ≡ true }
{
    let mut text = Text::new(alloc)?;
    let all_right = write_verdicts(&mut text, writer)?;
    Ok(u8::from(!all_right))
}

/// Each stored vector holds: the definitions give its answer.
pub fn vectors_hold()
    ensures { are_right ≡ true }
{}

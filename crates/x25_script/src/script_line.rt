ghost use Rattle.std.specs.Prelude.{◌≡◌, Option, None, Some};
ghost use Rattle.x25_script.specs.ScriptLine.{PlainLine, command, damage, deliver, drain, heal, lose, plain_command};
ghost use Rattle.x25_script.specs.ScriptLine.{beside_of, is_wide, part_user, plain_alone, t1};

use crate::given::Given;
use crate::hex_digits::HexDigits;
use x25_bits::Role;
use x25_circuit::Params;

/// What stands beside what is asked of a call: facilities, user data and whether D is set. Whether these may be given
/// is judged by the call.
#[derive(Debug, Drop)]
pub struct Beside<'a> {
    pub facilities: HexDigits<'a>,
    pub user: HexDigits<'a>,
    pub d: bool,
}

/// What the user of an end asks for.
///
/// Addresses are digits `0` to `9`, any number of them; whether a call may have them is judged by the call. `user` is
/// user data as octets. `channel` is any number of 16 bits; whether there is such a channel is judged by the call.
/// `params` are the packet sizes and windows that are proposed, or answered, where the line has them: any numbers of 8
/// bits; whether a call may propose them, or its acceptance answer them, is judged by the call. `given` are a cause and
/// a diagnostic, where the line has them; whether the user of this end may give them is judged by the call. `d` of a
/// message is whether confirmation is asked. `beside` stands where the line begins with `with`.
#[derive(Debug, Drop)]
pub enum Command<'a> {
    Call {
        called: &'a str,
        calling: &'a str,
        user: HexDigits<'a>,
        params: Option<Params>,
        beside: Option<&'a Beside<'a>>,
    },
    // The channel stands behind: so these fields lie in the first eight octets, as those of the other variants do, and
    // the value is copied by whole words.
    Accept {
        params: Option<Params>,
        channel: u16,
        beside: Option<&'a Beside<'a>>,
    },
    Clear {
        channel: u16,
        given: Given,
        beside: Option<&'a Beside<'a>>,
    },
    Send {
        channel: u16,
        q: bool,
        d: bool,
        user: HexDigits<'a>,
    },
    Interrupt {
        channel: u16,
        user: HexDigits<'a>,
    },
    Reset {
        channel: u16,
        given: Given,
    },
    Ready {
        channel: u16,
    },
    NotReady {
        channel: u16,
    },
    Restart {
        given: Given,
    },
    Pull,
    Connect,
    Disconnect,
    Probe,
    Relink,
}

impl<'a> Command<'a> {
    /// The user data, none where it has no such field.
    pub fn user(&self) -> HexDigits<'a>
        ensures { result ≡ part_user (plain_alone self.now) }
    {
        // Each has an arm of its own: so a value is read, not a reference into the command.
        match self {
            Command::Call { user, .. } => user.copied(),
            Command::Send { user, .. } => user.copied(),
            Command::Interrupt { user, .. } => user.copied(),
            _ => HexDigits::none(),
        }
    }

    /// What stands beside what is asked of a call, where anything does.
    pub fn beside(&self) -> Option<&'a Beside<'a>>
        ensures { result ≡ beside_of self.now }
    {
        match self {
            Command::Call { beside, .. } => *beside,
            Command::Accept { beside, .. } => *beside,
            Command::Clear { beside, .. } => *beside,
            _ => None,
        }
    }

    /// Whether the line gives more than one of the strict profile has.
    pub fn is_wide(&self) -> bool
        ensures { result ≡ is_wide (plain_command self.now) }
    {
        if self.beside().is_some() {
            return true;
        }
        match self {
            Command::Clear { given, .. }
            | Command::Reset { given, .. }
            | Command::Restart { given } => given.is_any(),
            Command::Send { d, .. } => *d,
            _ => false,
        }
    }
}

/// What takes lines of a script: each kind comes to a method of its own, so that no value of a line is made. `with` is
/// what the taker needs beside itself, as a writer.
///
/// A direction is named by the end that it leads away from. `place` counts the frames on the line in this direction
/// from 0, the next to arrive; `count` is 1 to 65,535.
pub trait ScriptTaker<W> {
    type Answer;

    // `gives old was new is answer asked`: so the taker and what it needs are behind what is asked, `None` where the
    // characters are no line.
    ghost gives: { Self → W → Self → W → Self.Answer → Option PlainLine → Type 0 };

    /// The user of an end asks for something.
    fn command(&mut self, end: Role, asked: Command<'_>, with: &mut W) -> Self::Answer
        ensures { gives self.old with.old self.new with.new result (Some (command end (plain_command asked.entry))) };

    /// Timer T1 of an end runs out.
    fn t1(&mut self, end: Role, with: &mut W) -> Self::Answer
        ensures { gives self.old with.old self.new with.new result (Some (t1 end)) };

    /// The next frame from an end arrives.
    fn deliver(&mut self, from: Role, with: &mut W) -> Self::Answer
        ensures { gives self.old with.old self.new with.new result (Some (deliver from)) };

    /// A frame from an end is lost.
    fn lose(&mut self, from: Role, place: u16, with: &mut W) -> Self::Answer
        ensures { gives self.old with.old self.new with.new result (Some (lose from place)) };

    /// A frame from an end is damaged: these octets stand in its place.
    fn damage(
        &mut self,
        from: Role,
        place: u16,
        octets: HexDigits<'_>,
        with: &mut W,
    ) -> Self::Answer
        ensures { gives self.old with.old self.new with.new result (Some (damage from place octets.entry)) };

    /// Frames arrive, at most this many.
    fn drain(&mut self, count: u16, with: &mut W) -> Self::Answer
        ensures { gives self.old with.old self.new with.new result (Some (drain count)) };

    /// All that is on the line arrives, timer T1 runs out at each end where it runs, and what was handed down arrives.
    fn heal(&mut self, with: &mut W) -> Self::Answer
        ensures { gives self.old with.old self.new with.new result (Some heal) };

    /// The characters are no line.
    fn nothing(&mut self, with: &mut W) -> Self::Answer
        ensures { gives self.old with.old self.new with.new result None };
}

//! The commands, their options, and what each of these may be.
ghost use Rattle.std.specs.Prelude.{◌≡◌, ◌≤◌};
ghost use Rattle.std.specs.Str.{bytes_eq};
ghost use Rattle.x25_settings.specs.Options.{at_in, choice_in, command_in, command_word, end_in, has, has_end};
ghost use Rattle.x25_settings.specs.Options.{has_file};
ghost use Rattle.x25_settings.specs.Options.{is_time, least_of, most_of, number_in, usual_of, wants_value, word_of};
ghost use Rattle.x25_settings.specs.declared.options.Command.TheVariants.{Station};
ghost use Rattle.std.specs.Prelude.{IfSome, IsTrue, decimal, ◌↔◌};

use itoa::Buffer;

/// What `decode` is run with.
#[derive(Clone, Copy, Debug, PartialEq, Eq)]
pub struct Decoding {
    /// A CALL has up to 128 octets of user data, in place of up to 16.
    pub long: bool,
    /// Times, comments, empty lines and carriage returns are read.
    pub loose: bool,
    /// Packets are read in all the forms that a peer may send.
    pub wide: bool,
}

/// What a station is run with.
#[derive(Clone, Copy, Debug, PartialEq, Eq)]
pub struct StationOptions {
    /// A CALL has up to 128 octets of user data, in place of up to 16.
    pub long: bool,
    /// Calls and acceptances say packet sizes and windows also where they are the default.
    pub say_sizes: bool,
    /// Packets are read in all the forms that a peer may send.
    pub wide: bool,
    /// The window of the link, 1 to 7.
    pub k: u8,
    /// How often a command of the link that isn't answered is sent again, 1 to 255.
    pub n2: u8,
    /// The number of channels, 1 to 4,095; of `sim` 1 to 16.
    pub channels: u16,
    /// The channels 1 to this number are one-way incoming.
    pub incoming: u16,
    /// So many of the highest are one-way outgoing.
    pub outgoing: u16,
    /// The most octets of a message, 1 to 65,535.
    pub message: u16,
}

/// What `sim` is run with.
#[derive(Clone, Copy, Debug, PartialEq, Eq)]
pub struct Simulation {
    /// Both links are down where the script begins, and else just set up.
    pub down: bool,
    /// The frames of each step are written behind its entries.
    pub tap: bool,
    /// Each event is told behind what it made.
    pub events: bool,
    /// Times, comments, empty lines and carriage returns are read.
    pub loose: bool,
    /// Of both stations.
    pub station: StationOptions,
}

/// An end of the link: the terminal (DTE) or the network's side (DCE).
#[derive(Clone, Copy, Debug, PartialEq, Eq)]
pub enum End {
    Dte,
    Dce,
}

/// The timers of a clock, in milliseconds, 0 for never; `None` is as long as is usual at that end.
#[derive(Clone, Copy, Debug, PartialEq, Eq)]
pub struct GivenTimes {
    pub t1: Option<u32>,
    pub t3: Option<u32>,
    pub t20: Option<u32>,
    pub t21: Option<u32>,
    pub t22: Option<u32>,
    pub t23: Option<u32>,
    pub t25: Option<u32>,
    pub t26: Option<u32>,
}

/// What `station` is run with.
#[derive(Clone, Copy, Debug, PartialEq, Eq)]
pub struct Place {
    /// The end at which the station is.
    pub end: End,
    pub station: StationOptions,
    /// The station has a clock, and what its timers are.
    pub clock: Option<GivenTimes>,
    /// Times, comments, empty lines and carriage returns are read.
    pub loose: bool,
    /// Of what is refused the reason is said.
    pub reasons: bool,
}

/// Where a trace was made: on the line, in front of an end, or at an end that isn't known.
#[derive(Clone, Copy, Debug, PartialEq, Eq)]
pub enum At {
    Line,
    Dte,
    Dce,
    Either,
}

/// What `judge` is run with.
#[derive(Clone, Copy, Debug, PartialEq, Eq)]
pub struct Judging {
    /// A CALL has up to 128 octets of user data, in place of up to 16.
    pub long: bool,
    /// Times, comments, empty lines and carriage returns are read.
    pub loose: bool,
    /// Broken manners make the status 1 too.
    pub manners: bool,
    /// What isn't judged makes the status 1 too.
    pub strict: bool,
    /// Packets are read in all the forms that a peer may send.
    pub wide: bool,
    /// The window of the link, 1 to 7.
    pub k: u8,
    /// The network's packet size, in octets, 16 to 4096, and its window, 1 to 7, where a call says nothing.
    pub size: u16,
    pub window: u8,
    /// Where the trace was made.
    pub at: At,
}

/// What is to be done.
#[derive(Clone, Copy, Debug, PartialEq, Eq)]
pub enum Command {
    Decode,
    Vectors,
    Sim,
    Station,
    Judge,
    Deframe,
    Frame,
    Tabs,
}

/// An option of a command.
#[derive(Clone, Copy, Debug, PartialEq, Eq)]
pub enum Choice {
    Clock,
    Down,
    Events,
    Long,
    Loose,
    Manners,
    Reasons,
    SaySizes,
    Strict,
    Tap,
    Wide,
    At,
    Window,
    Tries,
    Channels,
    Incoming,
    Outgoing,
    Message,
    Size,
    PacketWindow,
    T1,
    T3,
    T20,
    T21,
    T22,
    T23,
    T25,
    T26,
}

impl Command {
    /// All of them.
    pub const ALL: [Command; 8] = [
        Command::Decode,
        Command::Vectors,
        Command::Sim,
        Command::Station,
        Command::Judge,
        Command::Deframe,
        Command::Frame,
        Command::Tabs,
    ];

    /// Its word.
    pub fn word<'a>(self) -> &'a str
        ensures { result.now ≡ command_word self }
    {
        match self {
            Command::Decode => "decode",
            Command::Vectors => "vectors",
            Command::Sim => "sim",
            Command::Station => "station",
            Command::Judge => "judge",
            Command::Deframe => "deframe",
            Command::Frame => "frame",
            Command::Tabs => "tabs",
        }
    }

    /// Whether it has an option.
    pub fn has(self, choice: Choice) -> bool
        ensures { result ≡ has self choice }
    {
        match choice {
            Choice::Down | Choice::Events | Choice::Tap => matches!(self, Command::Sim),
            Choice::Long | Choice::Wide => matches!(
                self,
                Command::Decode | Command::Sim | Command::Station | Command::Judge
            ),
            Choice::Loose => matches!(
                self,
                Command::Decode | Command::Sim | Command::Station | Command::Judge | Command::Frame
            ),
            Choice::Manners | Choice::Strict | Choice::At | Choice::Size | Choice::PacketWindow =>
                matches!(self, Command::Judge),
            Choice::Window => matches!(self, Command::Sim | Command::Station | Command::Judge),
            Choice::SaySizes | Choice::Tries | Choice::Channels | Choice::Message => {
                matches!(self, Command::Sim | Command::Station)
            }
            _ => matches!(self, Command::Station),
        }
    }

    /// Whether an end has to be named.
    pub fn has_end(self) -> bool
        ensures { result ≡ has_end self }
    {
        matches!(self, Command::Station | Command::Deframe)
    }

    /// Whether a file may be named.
    pub fn has_file(self) -> bool
        ensures { result ≡ has_file self }
    {
        !matches!(self, Command::Vectors)
    }
}

impl Choice {
    /// All of them.
    pub const ALL: [Choice; 28] = [
        Choice::Clock,
        Choice::Down,
        Choice::Events,
        Choice::Long,
        Choice::Loose,
        Choice::Manners,
        Choice::Reasons,
        Choice::SaySizes,
        Choice::Strict,
        Choice::Tap,
        Choice::Wide,
        Choice::At,
        Choice::Window,
        Choice::Tries,
        Choice::Channels,
        Choice::Incoming,
        Choice::Outgoing,
        Choice::Message,
        Choice::Size,
        Choice::PacketWindow,
        Choice::T1,
        Choice::T3,
        Choice::T20,
        Choice::T21,
        Choice::T22,
        Choice::T23,
        Choice::T25,
        Choice::T26,
    ];

    /// Its word.
    pub fn word<'a>(self) -> &'a str
        ensures { result.now ≡ word_of self }
    {
        match self {
            Choice::Clock => "--clock",
            Choice::Down => "--down",
            Choice::Events => "--events",
            Choice::Long => "--long",
            Choice::Loose => "--loose",
            Choice::Manners => "--manners",
            Choice::Reasons => "--reasons",
            Choice::SaySizes => "--say-sizes",
            Choice::Strict => "--strict",
            Choice::Tap => "--tap",
            Choice::Wide => "--wide",
            Choice::At => "--at",
            Choice::Window => "--k",
            Choice::Tries => "--n2",
            Choice::Channels => "--channels",
            Choice::Incoming => "--incoming",
            Choice::Outgoing => "--outgoing",
            Choice::Message => "--message",
            Choice::Size => "--size",
            Choice::PacketWindow => "--window",
            Choice::T1 => "--t1",
            Choice::T3 => "--t3",
            Choice::T20 => "--t20",
            Choice::T21 => "--t21",
            Choice::T22 => "--t22",
            Choice::T23 => "--t23",
            Choice::T25 => "--t25",
            Choice::T26 => "--t26",
        }
    }

    /// Whether it is a time of a clock.
    pub(crate) fn is_time(self) -> bool
        ensures { result ≡ is_time self }
    {
        matches!(
            self,
            Choice::T1
                | Choice::T3
                | Choice::T20
                | Choice::T21
                | Choice::T22
                | Choice::T23
                | Choice::T25
                | Choice::T26
        )
    }

    /// Whether it has a value.
    pub fn wants_value(self) -> bool
        ensures { result ≡ wants_value self }
    {
        match self {
            Choice::At
            | Choice::Window
            | Choice::Tries
            | Choice::Channels
            | Choice::Incoming
            | Choice::Outgoing
            | Choice::Message
            | Choice::Size
            | Choice::PacketWindow => true,
            _ => self.is_time(),
        }
    }

    /// The least that a number may be.
    pub(crate) fn least(self) -> u32
        ensures { result ≡ least_of self }
    {
        match self {
            Choice::Window
            | Choice::Tries
            | Choice::Channels
            | Choice::Message
            | Choice::PacketWindow => 1,
            Choice::Size => 16,
            _ => 0,
        }
    }

    /// The most that it may be at a command.
    pub(crate) fn most(self, command: Command) -> u32
        ensures exact { result ≡ most_of command self }
        ensures within { result ≤ most_of Station self }
    {
        match self {
            Choice::Window | Choice::PacketWindow => 7,
            Choice::Tries => 255,
            Choice::Channels if matches!(command, Command::Sim) => 16,
            Choice::Channels | Choice::Incoming | Choice::Outgoing => 4095,
            Choice::Message => 65_535,
            Choice::Size => 4096,
            _ => 86_400_000,
        }
    }

    /// What it is where no word says it.
    pub(crate) fn usual(self) -> u32
        ensures { result ≡ usual_of self }
    {
        match self {
            Choice::Window => 7,
            Choice::Tries => 10,
            Choice::Channels => 1,
            Choice::Message => 65_535,
            Choice::Size => 128,
            Choice::PacketWindow => 2,
            _ => 0,
        }
    }
}

pub(crate) fn is(text: &str, word: &str) -> bool
    ensures { result ≡ bytes_eq text.now word.now }
{
    text == word
}

/// The command with a word.
pub(crate) fn command_named(word: &str) -> Option<Command>
    ensures { result ≡ command_in word.now }
{
    for command in &Command::ALL {
        if is(word, command.word()) {
            return Some(*command);
        }
    }
    None
}

/// The option with a word.
pub(crate) fn choice_named(word: &str) -> Option<Choice>
    ensures { result ≡ choice_in word.now }
{
    for choice in &Choice::ALL {
        if is(word, choice.word()) {
            return Some(*choice);
        }
    }
    None
}

pub(crate) fn end_named(word: &str) -> Option<End>
    ensures { result ≡ end_in word.now }
{
    if is(word, "dte") {
        Some(End::Dte)
    } else if is(word, "dce") {
        Some(End::Dce)
    } else {
        None
    }
}

pub(crate) fn place_named(word: &str) -> Option<At>
    ensures { result ≡ at_in word.now }
{
    if is(word, "line") {
        Some(At::Line)
    } else if is(word, "dte") {
        Some(At::Dte)
    } else if is(word, "dce") {
        Some(At::Dce)
    } else if is(word, "either") {
        Some(At::Either)
    } else {
        None
    }
}

/// Whether the text writes the number in decimal without leading zeros.
fn is_decimal(n: u32, text: &str) -> bool
    ensures { IsTrue result ↔ (decimal n ≡ text.now) }
{
    let mut buffer = Buffer::new();
    buffer.format(n) == text
}

/// The number from `least` to `most` that the text writes in decimal without leading zeros.
pub(crate) fn number(text: &str, least: u32, most: u32) -> Option<u32>
    ensures number { result ≡ number_in least most text.now }
    ensures range { IfSome result (λ n. n ≤ most) }
{
    let n = text.parse::<u32>().ok()?;
    if least <= n && n <= most && is_decimal(n, text) {
        Some(n)
    } else {
        None
    }
}

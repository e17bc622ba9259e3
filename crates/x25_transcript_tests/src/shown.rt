//! What a line reads as, in words of the tests' own.
use std::alloc::{AllocError, Global};
use x25_circuit::Params;
use x25_script::{Command, Given, HexDigits, Role, ScriptTaker};

fn end_name(end: Role) -> &'static str {
    match end {
        Role::Dte => "DTE",
        Role::Dce => "DCE",
    }
}

/// The octets in lower case hexadecimal, or `none`.
fn octets_shown(alloc: Global, octets: &HexDigits<'_>) -> Result<String, AllocError> {
    let mut written = vec![in alloc; 255u8; octets.len()]?;
    octets.write_to(written.as_mut_slice());
    if octets.is_empty() {
        return String::from_str(alloc, "none");
    }
    hex::encode(alloc, written.as_slice())
}

/// Of each end the size and the window, where there are any.
fn params_shown(alloc: Global, params: Option<Params>) -> Result<String, AllocError> {
    let Some(params) = params else {
        return String::from_str(alloc, "");
    };
    let Params {
        size_called,
        size_calling,
        win_called,
        win_calling,
    } = params;
    format!(in alloc;
        ", called {size_called} by {win_called}, calling {size_calling} by {win_calling}"
    )
}

fn given_shown(alloc: Global, given: Given) -> Result<String, AllocError> {
    match (given.cause, given.diagnostic) {
        (None, None) => String::from_str(alloc, ""),
        (Some(cause), None) => format!(in alloc; ", cause {cause}"),
        (None, Some(diagnostic)) => format!(in alloc; ", diagnostic {diagnostic}"),
        (Some(cause), Some(diagnostic)) => {
            format!(in alloc; ", cause {cause}, diagnostic {diagnostic}")
        }
    }
}

fn call_shown(
    alloc: Global,
    called: &str,
    calling: &str,
    user: &HexDigits<'_>,
    params: Option<Params>,
) -> Result<String, AllocError> {
    let user = octets_shown(alloc, user)?;
    let params = params_shown(alloc, params)?;
    format!(in alloc; "call of [{called}] from [{calling}] with {user}{params}")
}

fn accept_shown(alloc: Global, channel: u16, params: Option<Params>) -> Result<String, AllocError> {
    let params = params_shown(alloc, params)?;
    format!(in alloc; "accepts {channel}{params}")
}

fn clear_shown(alloc: Global, channel: u16, given: Given) -> Result<String, AllocError> {
    let given = given_shown(alloc, given)?;
    format!(in alloc; "clears {channel}{given}")
}

fn command_shown(alloc: Global, command: &Command<'_>) -> Result<String, AllocError> {
    match command {
        Command::Call {
            called,
            calling,
            params,
            ..
        } => call_shown(alloc, called, calling, &command.user(), *params),
        Command::Accept {
            channel,
            params,
            ..
        } => accept_shown(alloc, *channel, *params),
        Command::Clear { channel, given, .. } => clear_shown(alloc, *channel, *given),
        Command::Send { channel, q, d, .. } => {
            let user = octets_shown(alloc, &command.user())?;
            let confirmed = if *d { ", D" } else { "" };
            format!(in alloc; "sends on {channel} with Q {q}{confirmed} {user}")
        }
        Command::Interrupt { channel, .. } => {
            let user = octets_shown(alloc, &command.user())?;
            format!(in alloc; "interrupts {channel} by {user}")
        }
        Command::Reset { channel, given } => {
            let given = given_shown(alloc, *given)?;
            format!(in alloc; "resets {channel}{given}")
        }
        Command::Ready { channel } => format!(in alloc; "is ready on {channel}"),
        Command::NotReady { channel } => format!(in alloc; "is not ready on {channel}"),
        Command::Restart { given } => {
            let given = given_shown(alloc, *given)?;
            format!(in alloc; "restarts{given}")
        }
        Command::Pull => String::from_str(alloc, "pulls"),
        Command::Connect => String::from_str(alloc, "connects"),
        Command::Disconnect => String::from_str(alloc, "disconnects"),
        Command::Probe => String::from_str(alloc, "probes"),
        Command::Relink => String::from_str(alloc, "relinks"),
    }
}

fn asked_shown(alloc: Global, command: &Command<'_>) -> Result<String, AllocError> {
    let asked = command_shown(alloc, command)?;
    let Some(beside) = command.beside() else {
        return Ok(asked);
    };
    let facilities = octets_shown(alloc, &beside.facilities)?;
    let user = octets_shown(alloc, &beside.user)?;
    let d = beside.d;
    format!(in alloc; "with facilities {facilities}, {user}, D {d}: {asked}")
}

/// Tells of the lines that it takes.
#[derive(Clone, Copy)]
pub struct Shown;

impl ScriptTaker<Global> for Shown {
    type Answer = Result<Option<String>, AllocError>;

    ghost gives = { λ old was new is answer asked. Unit {0} };

    fn command(
        &mut self,
        end: Role,
        asked: Command,
        alloc: &mut Global,
    ) -> Result<Option<String>, AllocError> {
        let end = end_name(end);
        let asked = asked_shown(*alloc, &asked)?;
        Ok(Some(format!(in *alloc; "{end}: {asked}")?))
    }

    fn t1(&mut self, end: Role, alloc: &mut Global) -> Result<Option<String>, AllocError> {
        let end = end_name(end);
        Ok(Some(format!(in *alloc; "T1 of {end}")?))
    }

    fn deliver(&mut self, from: Role, alloc: &mut Global) -> Result<Option<String>, AllocError> {
        let from = end_name(from);
        Ok(Some(format!(in *alloc; "from {from} comes one")?))
    }

    fn lose(
        &mut self,
        from: Role,
        place: u16,
        alloc: &mut Global,
    ) -> Result<Option<String>, AllocError> {
        let from = end_name(from);
        Ok(Some(format!(in *alloc; "from {from} is lost {place}")?))
    }

    fn damage(
        &mut self,
        from: Role,
        place: u16,
        octets: HexDigits,
        alloc: &mut Global,
    ) -> Result<Option<String>, AllocError> {
        let from = end_name(from);
        let octets = octets_shown(*alloc, &octets)?;
        Ok(Some(format!(in *alloc; "from {from} {place} becomes {octets}")?))
    }

    fn drain(&mut self, count: u16, alloc: &mut Global) -> Result<Option<String>, AllocError> {
        Ok(Some(format!(in *alloc; "at most {count} come")?))
    }

    fn heal(&mut self, alloc: &mut Global) -> Result<Option<String>, AllocError> {
        Ok(Some(String::from_str(*alloc, "heals")?))
    }

    fn nothing(&mut self, _alloc: &mut Global) -> Result<Option<String>, AllocError> {
        Ok(None)
    }
}

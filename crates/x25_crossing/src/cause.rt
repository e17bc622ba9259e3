//! The cause by which what was told at one leg goes on at the other (profile).
ghost use Rattle.std.specs.Prelude.{◌≡◌};
ghost use Rattle.x25_crossing.specs.Cause.{at_leg, clear_at, clear_goes_on, reset_goes_on, restart_goes_on};

use x25_circuit::Role;

// A network's cause, as the station of a leg gives it.
fn at_leg(role: Role, cause: u8) -> u8
    ensures { result ≡ at_leg role cause }
{
    match role {
        Role::Dce => cause,
        Role::Dte => if cause == 0 || 128 <= cause {
            cause
        } else {
            128 + cause
        },
    }
}

// A DCE's user may not give cause 3.
fn clear_at(role: Role, cause: u8) -> u8
    ensures { result ≡ clear_at role cause }
{
    match role {
        Role::Dce => if cause == 3 { 13 } else { cause },
        Role::Dte => at_leg(Role::Dte, cause),
    }
}

/// The cause of a clear at a leg whose station is this end, where the other leg was told of this one.
pub fn clear_goes_on(role: Role, cause: u8) -> u8
    ensures { result ≡ clear_goes_on role cause }
{
    match cause {
        19 => clear_at(role, 17),
        128 => 0,
        _ => clear_at(role, cause),
    }
}

/// The cause of a reset, as above.
pub fn reset_goes_on(role: Role, cause: u8) -> u8
    ensures { result ≡ reset_goes_on role cause }
{
    match cause {
        5 => at_leg(role, 3),
        128 => 0,
        _ => at_leg(role, cause),
    }
}

/// The cause of the clear that a restart is for each call, before it goes on.
pub(crate) fn restart_goes_on(cause: u8) -> u8
    ensures { result ≡ restart_goes_on cause }
{
    match cause {
        0 => 0,
        1 => 19,
        3 => 5,
        _ => if 128 <= cause { cause } else { 9 },
    }
}

//! The exit status of a run.
ghost use Rattle.std.specs.Prelude.{◌≡◌, IfOk, OnErr};

use crate::fault::Fault;

/// The exit status that a run gives the program: what it answered, or 3 at a fault. Profile.
pub fn exit_status(run: &Result<u8, Fault>) -> u8
    ensures answered { IfOk run.now (λ status. result ≡ status) }
    ensures fault { OnErr run.now (result ≡ 3) }
{
    match run {
        Ok(status) => *status,
        Err(_) => 3,
    }
}

//! Which causes the user of an end may give. ITU-T X.25 (10/96), sections 5.2.3.1, 5.4.3.1 and 5.5.1.1.
ghost use Rattle.std.specs.Prelude.{◌≡◌};
ghost use Rattle.x25_circuit.specs.Cause.{is_of_end, may_give, may_clear_for, may_reset_for, may_restart_for};

use crate::codes::{
    DTE_FAULT, INVALID_FACILITY, LOCAL_PROCEDURE_ERROR, LOCAL_PROCEDURE_ERROR_OF_A_CALL,
    LOCAL_PROCEDURE_ERROR_OF_ALL,
};
use x25_bits::Role;

// Other causes than 0: a DTE's have bit 8.
fn is_of_end(role: Role, cause: u8) -> bool
    ensures { result ≡ is_of_end role cause }
{
    match role {
        Role::Dte => 128 <= cause,
        Role::Dce => true,
    }
}

fn may_give(is_fault: bool, role: Role, cause: u8) -> bool
    ensures { result ≡ may_give is_fault role cause }
{
    !is_fault && (cause == 0 || is_of_end(role, cause))
}

/// Whether a user may clear with this cause: 0; else at a DTE one of 129 to 255, and at a DCE any but 3, 19 and 128, by
/// which a station tells of an error of procedure itself (profile).
pub(crate) fn may_clear_for(role: Role, cause: u8) -> bool
    ensures { result ≡ may_clear_for role cause }
{
    let is_fault = cause == INVALID_FACILITY
        || (cause == LOCAL_PROCEDURE_ERROR_OF_A_CALL || cause == DTE_FAULT);
    may_give(is_fault, role, cause)
}

/// Whether a user may reset with this cause: 0; else at a DTE one of 129 to 255, and at a DCE any but 5 and 128, as
/// above.
pub(crate) fn may_reset_for(role: Role, cause: u8) -> bool
    ensures { result ≡ may_reset_for role cause }
{
    let is_fault = cause == LOCAL_PROCEDURE_ERROR || cause == DTE_FAULT;
    may_give(is_fault, role, cause)
}

/// Whether a user may restart with this cause: 0; else at a DTE one of 129 to 255, and at a DCE any but 1 and 128, by
/// which a station tells of an error of procedure itself (profile).
pub fn may_restart_for(role: Role, cause: u8) -> bool
    ensures { result ≡ may_restart_for role cause }
{
    let is_fault = cause == LOCAL_PROCEDURE_ERROR_OF_ALL || cause == DTE_FAULT;
    may_give(is_fault, role, cause)
}

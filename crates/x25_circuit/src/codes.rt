//! Causes and diagnostics of the CLEAR and RESET that a circuit sends: causes by ITU-T X.25 (10/96), sections 5.2.3 and
//! 5.4.3, diagnostics by Annex E.

/// At a DTE, in place of each cause of a DCE (profile).
pub const DTE_FAULT: u8 = 128;

/// Of a CLEAR: a facility is none, or is out of its range.
pub const INVALID_FACILITY: u8 = 3;

/// Of a RESET.
pub const LOCAL_PROCEDURE_ERROR: u8 = 5;

/// Of a CLEAR.
pub const LOCAL_PROCEDURE_ERROR_OF_A_CALL: u8 = 19;

/// Of a RESTART.
pub const LOCAL_PROCEDURE_ERROR_OF_ALL: u8 = 1;

/// The diagnostic that says nothing.
pub const NO_DIAGNOSTIC: u8 = 0;

pub const INVALID_PS: u8 = 1;

pub const INVALID_PR: u8 = 2;

/// A packet that p1 doesn't allow; those for the other states follow.
pub const NOT_IN_P1: u8 = 20;

pub const NOT_IN_P2: u8 = 21;

pub const NOT_IN_P3: u8 = 22;

pub const NOT_IN_P4: u8 = 23;

pub const NOT_IN_P5: u8 = 24;

pub const NOT_IN_D1: u8 = 27;

/// A data packet, or the message that it carries, is too long.
pub const PACKET_TOO_LONG: u8 = 39;

/// INTERRUPT CONFIRMATION of no interrupt.
pub const NO_INTERRUPT: u8 = 43;

/// A facility's value isn't allowed.
pub const INVALID_PARAMETER: u8 = 66;

/// The packets of a message don't have one qualifier.
pub const MIXED_QUALIFIERS: u8 = 83;

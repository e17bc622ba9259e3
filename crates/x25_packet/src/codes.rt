//! The packet type identifiers, with 0 for P(S), P(R) and M, ITU-T X.25 (10/96), table 5-2.

pub const CALL: u8 = 0x0B;

pub const ACCEPT: u8 = 0x0F;

pub const CLEAR: u8 = 0x13;

pub const CLEAR_CONF: u8 = 0x17;

pub const RR: u8 = 0x01;

pub const RNR: u8 = 0x05;

pub const INTERRUPT: u8 = 0x23;

pub const INTERRUPT_CONF: u8 = 0x27;

pub const RESET: u8 = 0x1B;

pub const RESET_CONF: u8 = 0x1F;

pub const DIAGNOSTIC: u8 = 0xF1;

pub const RESTART: u8 = 0xFB;

pub const RESTART_CONF: u8 = 0xFF;

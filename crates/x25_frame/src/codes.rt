//! The controls of frames, with 0 for N(S), N(R) and the poll or final bit, ITU-T X.25 (10/96), table 2-7.

pub const RR: u8 = 0x01;

pub const RNR: u8 = 0x05;

pub const REJ: u8 = 0x09;

pub const SABM: u8 = 0x2F;

pub const DISC: u8 = 0x43;

pub const UA: u8 = 0x63;

pub const DM: u8 = 0x0F;

pub const FRMR: u8 = 0x87;

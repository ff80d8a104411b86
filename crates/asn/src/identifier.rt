//! The identifier octets of universal values (X.690, 8.1.2; X.680, 8.4), as DER has them: SEQUENCE and SET are constructed, the
//! others primitive.

pub const BOOLEAN: u8 = 0x01;

pub const INTEGER: u8 = 0x02;

pub const BIT_STRING: u8 = 0x03;

pub const OCTET_STRING: u8 = 0x04;

pub const OBJECT_IDENTIFIER: u8 = 0x06;

pub const ENUMERATED: u8 = 0x0A;

pub const UTF8_STRING: u8 = 0x0C;

pub const PRINTABLE_STRING: u8 = 0x13;

pub const IA5_STRING: u8 = 0x16;

pub const UTC_TIME: u8 = 0x17;

pub const GENERALIZED_TIME: u8 = 0x18;

pub const SEQUENCE: u8 = 0x30;

pub const SET: u8 = 0x31;

// The rights, a bit each: a set of them is a number, as lists have it.
pub const READ: u8 = 1;

pub const WRITE: u8 = 2;

pub const EXECUTE: u8 = 4;

pub const CONTROL: u8 = 8;

pub const INSERT: u8 = 16;

pub const DELETE: u8 = 32;

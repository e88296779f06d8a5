// The numbers that a file is made of (rules 14.1, 14.2): its version, and the state of a context.
pub const VERSION: u8 = 1;

pub const EMPTY: u8 = 0;

pub const LIVE: u8 = 1;

pub const BROKEN: u8 = 2;

//! The statuses of a run.

/// The bytes have a plan, and its text is written.
pub const SUCCESS: u8 = 0;

/// The bytes are refused, and the line of the refusal is written.
pub const REFUSED: u8 = 1;

/// The words are outside the command grammar.
pub const USAGE: u8 = 2;

/// A read failed.
pub const READ_FAILED: u8 = 3;

/// A write failed.
pub const WRITE_FAILED: u8 = 4;

/// Out of memory.
pub const NO_MEMORY: u8 = 5;

const _: () = prove!(SUCCESS == 0);

const _: () = prove!(REFUSED == 1);

const _: () = prove!(USAGE == 2);

const _: () = prove!(READ_FAILED == 3);

const _: () = prove!(WRITE_FAILED == 4);

const _: () = prove!(NO_MEMORY == 5);

//! The exit statuses.

/// The input was read to its end, and what was asked was done and written.
pub const DONE: u8 = 0;

/// A read of the input failed.
pub const READ_FAULT: u8 = 1;

/// The words are those of no command.
pub const WORDS: u8 = 2;

/// A write to the output failed, which then took a front of the text that was due.
pub const WRITE_FAULT: u8 = 3;

/// The keeper failed, as the season was opened or as a command asked something of it.
pub const KEEPER: u8 = 4;

/// The keeper holds a record that is not lawful; its key is written.
pub const DAMAGED: u8 = 5;

/// There was no memory.
pub const MEMORY: u8 = 6;

/// The input ended inside a message.
pub const CUT: u8 = 7;

/// The doors failed: no connection could be taken.
pub const DOORS: u8 = 8;

/// The shelf failed: a file could not be read.
pub const SHELF: u8 = 9;

/// The input is too long, or a file is.
pub const TOO_LONG: u8 = 10;

/// A row of the input is wrong; its number is written.
pub const WRONG_ROW: u8 = 11;

/// Bytes of the input are no message.
pub const REFUSED: u8 = 12;

/// The host refused a request: the number of the rule, or that something is not there, is written.
pub const DECLINED: u8 = 13;

/// A row of the input orders what a rule refuses; its number and the rule's are written.
pub const REFUSED_ROW: u8 = 14;

//! The statuses that the program ends with.

/// The words are not taken.
pub const FAULTY_WORDS: u8 = 1;

/// The text is refused.
pub const REFUSED: u8 = 2;

/// A read failed.
pub const READ_FAILED: u8 = 3;

/// A write failed.
pub const WRITE_FAILED: u8 = 4;

/// Memory ran out.
pub const OUT_OF_MEMORY: u8 = 5;

/// The words cannot be had.
pub const NO_WORDS: u8 = 6;

/// The formula is satisfiable.
pub const SATISFIABLE: u8 = 10;

/// It is not known whether the formula is satisfiable.
pub const INDETERMINATE: u8 = 15;

/// The formula is not satisfiable.
pub const UNSATISFIABLE: u8 = 20;

/// A character begins no token, or a byte no character.
pub const BAD_CHAR: u16 = 1;

/// A text in quotes has no end.
pub const OPEN_TEXT: u16 = 2;

/// No query goes on with a token.
pub const UNEXPECTED: u16 = 3;

/// A number is outside 64 bits.
pub const NUMBER_RANGE: u16 = 4;

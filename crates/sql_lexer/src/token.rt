/// The kind of a token.
#[derive(Clone, Copy, Debug, PartialEq, Eq)]
pub enum TokenKind {
    /// A letter of ASCII or `_`, followed by letters, digits or `_`. Keywords are words too.
    Word,
    /// Digits, with a `-` before them or without. Its size has no limit here.
    Number,
    /// What stands in single quotes, with both of them; a doubled quote inside stays doubled.
    Text,
    /// One of `,` `.` `(` `)` `*` `;` `=` `<>` `!=` `<` `<=` `>` `>=`.
    Symbol,
}

/// A token of a text, which it borrows. docs/FORMATS.md, "Query", says which texts are tokens.
#[derive(Clone, Copy)]
pub struct Token<'a> {
    /// The kind of the token.
    pub kind: TokenKind,
    /// The slice of the text that the token is. It has at least one byte.
    pub text: &'a str,
    /// The place of its first byte in the text, counted in bytes from 0.
    pub at: u32,
}

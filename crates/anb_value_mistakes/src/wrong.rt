//! What may be wrong with a line.

/// Why a line isn't of the grammar.
#[derive(Clone, Copy, Drop)]
pub enum Wrong {
    /// The three bytes with which some programs begin a file.
    Mark,
    /// A colon stands where `=` is due.
    Colon,
    /// There is no `=`.
    NoEquals,
    /// A byte that stands in no label.
    Name,
    /// Nothing stands before the `=`.
    NoName,
    /// Nothing stands behind the `=`.
    NoValue,
    /// Digits behind `0x`.
    Prefix,
    /// A value between single quotes.
    Apostrophe,
    /// A value without quotes and without `x`.
    Bare,
    /// A seed without `x`.
    SeedBare,
    /// A seed with more or fewer than 64 digits.
    SeedLength,
    /// A byte that is no digit.
    Digit,
    /// An odd number of digits.
    Odd,
    /// No quote ends the value.
    Unclosed,
    /// A backslash with which no character begins.
    Escape,
    /// A byte that stands for itself nowhere.
    Byte,
    /// A comment behind a value.
    Comment,
    /// Something else behind a value.
    Behind,
}

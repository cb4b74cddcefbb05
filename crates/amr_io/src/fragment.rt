//! What a text is put together from.

/// A fragment of a text: a string as it stands, or a number in decimal digits.
#[derive(Clone, Copy, Drop)]
pub enum Fragment<'a> {
    /// The string.
    Str(&'a str),
    /// The number's digits, without leading zeros.
    Number(u64),
}

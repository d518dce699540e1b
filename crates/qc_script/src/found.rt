// What reading a term finds.

/// What was found where a term of an expression should stand.
#[derive(Clone, Copy, Debug, PartialEq, Eq)]
pub enum Found {
    /// No term.
    Nothing,
    /// A term with no sign behind it.
    Last,
    /// A term, and whether the sign behind it takes away.
    Signed(bool),
}

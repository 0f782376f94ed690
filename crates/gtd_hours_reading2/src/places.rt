//! Where in a text its rules and parts are.

/// Where a part is.
#[derive(Clone, Copy)]
pub struct PartPlace {
    /// The number of bytes before its first token.
    pub from: u16,
    /// The number of bytes before its last token.
    pub last: u16,
}

/// Where a rule is.
#[derive(Clone, Copy)]
pub struct RulePlace {
    /// The number of bytes before its first token.
    pub from: u16,
    /// The number of bytes before its word or, without one, its comment; 0 if it has neither.
    pub said: u16,
}

/// What is written loosely beside tokens.
#[derive(Clone, Copy)]
pub struct LooseForm {
    /// The number of bytes before a token.
    pub offset: u16,
    /// Whether a comma is missing before the token. Else the token is left out.
    pub is_comma: bool,
}

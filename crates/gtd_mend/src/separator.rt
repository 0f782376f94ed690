//! What separates the fields of a row.

ghost use Rattle.std.specs.Prelude.{◌≡◌};
ghost use Rattle.gtd_mend.specs.Reading.{separator_byte};

/// What separates the fields of a row.
#[derive(Clone, Copy, Debug, PartialEq, Eq)]
pub enum Separator {
    /// A comma, as in a record file.
    Comma,
    /// A semicolon.
    Semicolon,
    /// A tab.
    Tab,
}

impl Separator {
    // Its byte.
    pub(crate) fn byte(self) -> u8
        ensures value { result ≡ separator_byte self }
    {
        match self {
            Separator::Comma => b',',
            Separator::Semicolon => b';',
            Separator::Tab => b'\t',
        }
    }
}

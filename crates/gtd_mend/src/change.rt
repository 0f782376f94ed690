//! What is changed of a file, and the names of it.

ghost use Rattle.std.specs.Prelude.{Some};
ghost use Rattle.gtd_mend.specs.Lines.{field_change_name, file_change_name};

use std::fmt;
use std::fmt::{Display, Formatter};

/// What is changed of a file as a whole.
#[derive(Clone, Copy, Debug, PartialEq, Eq)]
pub enum FileChange {
    /// It was UTF-16, and is UTF-8.
    Utf16,
    /// A byte order mark is taken off.
    ByteOrderMark,
    /// Commas stand for other separators.
    Separators,
    /// Quotes that no field needs are taken off, or a row's end, which may be missing, is an LF, or empty lines are left out.
    Layout,
}

impl Display for FileChange {
    ghost output = { λ change. Some (file_change_name change) };

    fn fmt<W: fmt::Write>(&self, f: &mut Formatter<W>) -> fmt::Result {
        match self {
            FileChange::Utf16 => write!(f, "UTF-16"),
            FileChange::ByteOrderMark => write!(f, "byte order mark"),
            FileChange::Separators => write!(f, "separators"),
            FileChange::Layout => write!(f, "quotes or line ends"),
        }
    }
}

/// What is changed of a field.
#[derive(Clone, Copy, Debug, PartialEq, Eq)]
pub enum FieldChange {
    /// Spaces, tabs and line ends around it are taken off.
    Spaces,
    /// A pair of quotation marks around it is taken off.
    Quotes,
    /// Its capital letters are small.
    Capitals,
    /// Zeros after a decimal point are taken off, and the point.
    Decimals,
    /// A hyphen stands for each dash.
    Dashes,
}

impl Display for FieldChange {
    ghost output = { λ change. Some (field_change_name change) };

    fn fmt<W: fmt::Write>(&self, f: &mut Formatter<W>) -> fmt::Result {
        match self {
            FieldChange::Spaces => write!(f, "spaces"),
            FieldChange::Quotes => write!(f, "quotes"),
            FieldChange::Capitals => write!(f, "capitals"),
            FieldChange::Decimals => write!(f, "decimals"),
            FieldChange::Dashes => write!(f, "dashes"),
        }
    }
}

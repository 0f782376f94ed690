//! What a row of a table says.

ghost use Rattle.std.specs.Prelude.{◌≡◌};
ghost use Rattle.gtd_conditional_means.specs.Meanings as spec;

use gtd_rows::Vehicles;

/// Whether a way may be used.
#[derive(Clone, Copy, Debug, PartialEq, Eq)]
pub enum Access {
    /// It may.
    Open,
    /// It may not.
    Closed,
}

/// A kind of names.
#[derive(Clone, Copy, Debug, PartialEq, Eq)]
pub enum MeansKind {
    /// Modes of transport.
    Mode,
    /// Conditions: comparisons and words.
    Condition,
    /// Values of access.
    Value,
    /// Names of keys that are ignored.
    Ignore,
}

/// What a name stands for.
#[derive(Drop)]
pub enum Meaning {
    /// The vehicle types of a mode of transport.
    Mode(Vehicles),
    /// The vehicle types for which a condition holds.
    Condition(Vehicles),
    /// What a value of access says.
    Value(Access),
    /// A key of this name is ignored.
    Ignore,
}

/// A row of a table.
#[derive(Drop)]
pub struct MeansRow {
    /// The name, in bytes.
    pub name: Vec<u8>,
    /// What it stands for.
    pub meaning: Meaning,
}

impl Meaning {
    /// The kind of the name.
    pub fn kind(&self) -> MeansKind
        ensures kind { result ≡ spec.kind_of_meaning self.now }
    {
        match self {
            Meaning::Mode(_) => MeansKind::Mode,
            Meaning::Condition(_) => MeansKind::Condition,
            Meaning::Value(_) => MeansKind::Value,
            Meaning::Ignore => MeansKind::Ignore,
        }
    }
}

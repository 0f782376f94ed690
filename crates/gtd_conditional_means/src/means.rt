//! A table of means, and what it says of names.

ghost use Rattle.std.specs.Prelude.{◌≡◌, None, Some, MatchOption};
ghost use Rattle.std.proofs.Props.{props};
ghost use Rattle.gtd_conditional_means.specs.Meanings as spec;
ghost use Rattle.gtd_conditional_means.specs.Names.{is_there};
ghost use Rattle.gtd_conditional_means.specs.Places.{AreOf};
ghost use Rattle.gtd_conditional_means.specs.declared.meaning.MeansKind.{MeansKind};

use crate::fault::MeansFault;
use crate::meaning::{Access, Meaning, MeansKind, MeansRow};
use crate::places::Places;
use gtd_rows::Vehicles;
use std::alloc::AllocError;

/// A table of means: its rows, in their order. Of modes, that is from general to specific.
#[derive(Drop)]
pub struct Means {
    /// The rows, the first of which is row 1.
    pub rows: Vec<MeansRow>,
    // Where names stand among them.
    places: Places,
    ghost placed: { AreOf rows.items places } by { Prim.hlevel props },
}

/// Why a table of means is not read.
#[derive(Drop)]
pub enum Unread {
    /// All its faults, at least one, and the first of them first.
    Faults(Vec<MeansFault>),
    /// Memory was refused.
    NoMemory,
}

impl From<AllocError> for Unread {
    ghost use Rattle.std.specs.Prelude.{◌≡◌};
    ghost use Rattle.gtd_conditional_means.specs.declared.means.Unread.TheVariants.{NoMemory};

    ghost from_gives = { λ _ why. why ≡ NoMemory };

    fn from(_: AllocError) -> Unread {
        Unread::NoMemory
    }
}

/// What a value of access says that no table needs.
pub(crate) fn known_access(name: &[u8]) -> Option<Access>
    ensures { result ≡ spec.known_access name.now }
{
    if name == b"no".as_slice() {
        Some(Access::Closed)
    } else if name == b"yes".as_slice()
        || name == b"designated".as_slice()
        || name == b"permissive".as_slice()
    {
        Some(Access::Open)
    } else {
        None
    }
}

impl Means {
    /// The table of these rows, whose places these are.
    pub(crate) fn new(rows: Vec<MeansRow>, places: Places) -> Means
        requires { AreOf rows.items places }
        ensures { result.rows ≡ rows }
    {
        Means { rows, places }
    }

    // What the first row of a kind and a name says.
    fn meaning(&self, kind: MeansKind, name: &[u8]) -> Option<&Meaning>
        ensures said { MatchOption result (spec.meaning_of kind name.now self.now.rows.items ≡ None)
            (λ meaning. spec.meaning_of kind name.now self.now.rows.items ≡ Some meaning.now) }
    {
        let Some(place) = self.places.of(kind, name) else {
            return None;
        };
        match self.rows.as_slice().get(place) {
            Some(row) => Some(&row.meaning),
            None => None,
        }
    }

    // The vehicle types that the first row of a kind and a name says.
    fn types(&self, kind: MeansKind, name: &[u8]) -> Option<&Vehicles>
        ensures { MatchOption result (spec.types_of kind name.now self.now.rows.items ≡ None)
            (λ types. spec.types_of kind name.now self.now.rows.items ≡ Some types.now) }
    {
        let Some(meaning) = self.meaning(kind, name) else {
            return None;
        };
        match meaning {
            Meaning::Mode(types) => Some(types),
            Meaning::Condition(types) => Some(types),
            Meaning::Value(_) => None,
            Meaning::Ignore => None,
        }
    }

    /// How many rows come before that of a mode of transport, or `None` if the table has no such mode. Takes no memory.
    pub fn mode_place(&self, name: &[u8]) -> Option<usize>
        ensures place { result ≡ spec.place_of 0 MeansKind.Mode name.now self.now.rows.items }
    {
        self.places.of(MeansKind::Mode, name)
    }

    /// The vehicle types of a mode of transport, or `None` if the table has no such mode. Takes no memory.
    pub fn mode(&self, name: &[u8]) -> Option<&Vehicles>
        ensures types { MatchOption result (spec.types_of MeansKind.Mode name.now self.now.rows.items ≡ None)
            (λ types. spec.types_of MeansKind.Mode name.now self.now.rows.items ≡ Some types.now) }
    {
        self.types(MeansKind::Mode, name)
    }

    /// The vehicle types for which a condition holds, by its word or its comparison in normal form, or `None` if the table has
    /// no such condition. Takes no memory.
    pub fn condition(&self, name: &[u8]) -> Option<&Vehicles>
        ensures types { MatchOption result (spec.types_of MeansKind.Condition name.now self.now.rows.items ≡ None)
            (λ types. spec.types_of MeansKind.Condition name.now self.now.rows.items ≡ Some types.now) }
    {
        self.types(MeansKind::Condition, name)
    }

    /// What a value of access says: `no` closes, `yes`, `designated` and `permissive` open, and for others the table has a row;
    /// or else `None`. Takes no memory.
    pub fn access(&self, name: &[u8]) -> Option<Access>
        ensures said { result ≡ spec.access_of self.now.rows.items name.now }
    {
        if let Some(access) = known_access(name) {
            return Some(access);
        }
        match self.meaning(MeansKind::Value, name) {
            Some(Meaning::Value(access)) => Some(*access),
            _ => None,
        }
    }

    /// Whether keys of this name are ignored. Takes no memory.
    pub fn ignores(&self, name: &[u8]) -> bool
        ensures said { result ≡ is_there (spec.meaning_of MeansKind.Ignore name.now self.now.rows.items) }
    {
        self.meaning(MeansKind::Ignore, name).is_some()
    }
}

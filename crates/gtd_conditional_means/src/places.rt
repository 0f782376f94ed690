//! Where the names of a table stand among its rows.

ghost use Rattle.std.specs.Prelude.{◌≡◌, ◌++◌, ◌∷◌, [], ℕ, List, None, Some, OnOk, if◌then◌else◌, length};
ghost use Rattle.std.specs.Option.{option_or};
ghost use Rattle.std.specs.Str.{bytes_eq};
ghost use Rattle.gtd_conditional_means.specs.Places as spec;
ghost use Rattle.gtd_conditional_means.specs.declared.meaning.MeansRow.{MeansRow};

use crate::meaning::{MeansKind, MeansRow};
use std::alloc::{AllocError, Global};
use std::collections::BTreeMap;

/// Of each name of a kind, the number of rows before the first one that has it.
#[derive(Drop)]
pub(crate) struct Places {
    pub(crate) modes: BTreeMap<Vec<u8>, usize>,
    pub(crate) conditions: BTreeMap<Vec<u8>, usize>,
    pub(crate) values: BTreeMap<Vec<u8>, usize>,
    pub(crate) ignored: BTreeMap<Vec<u8>, usize>,
}

// Keeps the place of a name instead of one that was kept before.
fn put_name(
    alloc: Global,
    places: &mut BTreeMap<Vec<u8>, usize>,
    name: &[u8],
    place: usize,
) -> Result<(), AllocError>
    ensures { OnOk result ((other : List ℕ) → spec.place_in places.new other
        ≡ (if bytes_eq name.now other then Some place else spec.place_in places.old other)) }
{
    let key = name.to_vec(alloc)?;
    places.insert(key, place)?;
    Ok(())
}

// Keeps the place of a name, unless one is kept.
fn put_first(
    alloc: Global,
    places: &mut BTreeMap<Vec<u8>, usize>,
    name: &[u8],
    place: usize,
) -> Result<(), AllocError>
    ensures { OnOk result ((other : List ℕ) → spec.place_in places.new other
        ≡ option_or (spec.place_in places.old other) (if bytes_eq name.now other then Some place else None)) }
{
    if places.contains_key(name) {
        return Ok(());
    }
    put_name(alloc, places, name, place)
}

impl Places {
    /// Those of no rows. Takes no memory.
    pub(crate) fn none(alloc: Global) -> Places
        ensures { spec.AreOf [] result }
    {
        Places {
            modes: BTreeMap::new(alloc),
            conditions: BTreeMap::new(alloc),
            values: BTreeMap::new(alloc),
            ignored: BTreeMap::new(alloc),
        }
    }

    /// Keeps the place of a row that comes after so many others, unless one of these has its kind and name. `AllocError` is
    /// answered only if memory was refused.
    pub(crate) fn put(
        &mut self,
        alloc: Global,
        row: &MeansRow,
        place: usize,
    ) -> Result<(), AllocError>
        ensures { OnOk result ((rows : List MeansRow) → place ≡ length rows → spec.AreOf rows self.old
            → spec.AreOf (rows ++ row.now ∷ []) self.new) }
    {
        let name = row.name.as_slice();
        match row.meaning.kind() {
            MeansKind::Mode => put_first(alloc, &mut self.modes, name, place),
            MeansKind::Condition => put_first(alloc, &mut self.conditions, name, place),
            MeansKind::Value => put_first(alloc, &mut self.values, name, place),
            MeansKind::Ignore => put_first(alloc, &mut self.ignored, name, place),
        }
    }

    /// The place that is kept of a name of a kind. Takes no memory.
    pub(crate) fn of(&self, kind: MeansKind, name: &[u8]) -> Option<usize>
        ensures { result ≡ spec.place_in (spec.places_of kind self.now) name.now }
    {
        match kind {
            MeansKind::Mode => self.modes.get(name).copied(),
            MeansKind::Condition => self.conditions.get(name).copied(),
            MeansKind::Value => self.values.get(name).copied(),
            MeansKind::Ignore => self.ignored.get(name).copied(),
        }
    }
}

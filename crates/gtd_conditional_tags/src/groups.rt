//! Items of the same elements.

ghost use Rattle.std.specs.Prelude.{◌≡◌, ◌++◌, ◌∷◌, [], List, map, take, IfOk, OnOk};
ghost use Rattle.gtd_conditional_tags.specs.Groups as spec;
ghost use Rattle.gtd_conditional_tags.specs.declared.groups.ElementItem.{ElementItem};

use std::alloc::{AllocError, Global};
use std::collections::BTreeMap;

/// An item of a road element.
#[derive(Drop)]
pub struct ElementItem<T> {
    /// The element.
    pub element: u64,
    /// The item.
    pub item: T,
}

/// The items of a road element.
#[derive(Drop)]
pub struct ElementItems<T> {
    /// The element.
    pub element: u64,
    /// Its items.
    pub items: Vec<T>,
}

// Groups of items, and the place of each element's.
#[derive(Drop)]
struct Groups<T> {
    groups: Vec<ElementItems<T>>,
    places: BTreeMap<u64, usize>,
}

impl<T: Drop> Groups<T> {
    // Adds an item to the others of its element, or after them if there is none.
    fn add(&mut self, alloc: Global, item: ElementItem<T>) -> Result<(), AllocError>
        ensures { (before : List (ElementItem T)) → spec.AreGrouped before self.old
            → OnOk result (spec.AreGrouped (before ++ item ∷ []) self.new) }
    {
        match self.places.get(&item.element) {
            Some(place) => {
                let place = *place;
                if place < self.groups.len() {
                    self.groups[place].items.push(item.item)?;
                }
                Ok(())
            }
            None => {
                self.places.insert(item.element, self.groups.len())?;
                let mut items = Vec::new(alloc);
                items.push(item.item)?;
                self.groups.push(ElementItems {
                    element: item.element,
                    items,
                })?;
                Ok(())
            }
        }
    }
}

/// Puts together the items of each element, in their order. The elements stand in the order in which they first come.
/// `AllocError` is answered only if memory was refused.
pub fn by_element<T: Drop>(
    alloc: Global,
    items: Vec<ElementItem<T>>,
) -> Result<Vec<ElementItems<T>>, AllocError>
    ensures order { IfOk result (λ groups. spec.elements_in groups.items
        ≡ spec.each_once (spec.elements_of items.items)) }
    ensures items { IfOk result (λ groups. spec.HaveItems items.items groups.items) }
{
    let mut groups = Groups {
        groups: Vec::new(alloc),
        places: BTreeMap::new(alloc),
    };
    for item in items {
        groups.add(alloc, item)?;
    }
    Ok(groups.groups)
}

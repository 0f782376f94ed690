//! Kinds of selectors.

ghost use Rattle.std.specs.Prelude.{◌≡◌, ◌∷◌, ◌++◌, [], IfOk};
ghost use Rattle.gtd_hours.specs.Writable.{selectors};

use gtd_hours::{Kind, Selector};
use std::alloc::{AllocError, Global};

/// A kind of these selectors. `AllocError` is answered only if memory was refused.
pub fn kind_of(alloc: Global, days: &[Selector]) -> Result<Kind, AllocError>
    ensures { IfOk result (λ kind. kind.selectors.items ≡ days.now) }
{
    let mut selectors = Vec::new(alloc);
    selectors.extend_from_slice(days)?;
    Ok(Kind { selectors })
}

/// A kind with more selectors. `AllocError` is answered only if memory was refused.
pub fn joined(kind: Kind, days: &[Selector]) -> Result<Kind, AllocError>
    ensures { IfOk result (λ then. then.selectors.items ≡ kind.selectors.items ++ days.now) }
{
    let mut selectors = kind.selectors;
    selectors.extend_from_slice(days)?;
    Ok(Kind { selectors })
}

/// Kinds, and one more. `AllocError` is answered only if memory was refused.
pub fn with_one(list: Vec<Kind>, kind: Kind) -> Result<Vec<Kind>, AllocError>
    ensures { IfOk result (λ then. selectors then.items ≡ selectors list.items ++ kind.selectors.items ∷ []) }
{
    let mut kinds = list;
    kinds.push(kind)?;
    Ok(kinds)
}

/// Kinds, and two more. `AllocError` is answered only if memory was refused.
pub fn with_two(list: Vec<Kind>, first: Kind, second: Kind) -> Result<Vec<Kind>, AllocError>
    ensures { IfOk result (λ then. selectors then.items
        ≡ selectors list.items ++ first.selectors.items ∷ second.selectors.items ∷ []) }
{
    let kinds = with_one(list, first)?;
    with_one(kinds, second)
}

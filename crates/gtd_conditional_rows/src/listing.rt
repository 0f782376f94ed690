//! How the vehicle types of a row are written.

ghost use Rattle.std.specs.Prelude.{◌↔◌, ℕ};
ghost use Rattle.gtd_conditional_rows.specs.Listings.{IsListing, Lists};
ghost use Rattle.gtd_conditional_rows.specs.Types.{HasType, IsVehicle};

use crate::flags::count;
use crate::types::Types;

/// The vehicle types of a row, as they are written: `0`, a list, or `!` and a list.
#[derive(Clone, Copy, Debug)]
pub enum Listing {
    /// Every type.
    Every,
    /// These types, at most 49.
    Only(Types),
    /// Every type except these, at most 49.
    AllBut(Types),
}

/// How vehicle types are written: all as `Every`; a list, if it has at most 49; else the others.
#[tactic(auto, using(crate::proofs::ListingLemmas::all_listed, crate::proofs::ListingLemmas::others_listed))]
pub fn listing_of(types: &Types) -> Listing
    ensures listing { IsListing types.now result }
    ensures same { (t : ℕ) → IsVehicle t → Lists result t ↔ HasType types.now t }
{
    let total = count(&types.has);
    if total == 99 {
        return Listing::Every;
    }
    if total <= 49 {
        Listing::Only(*types)
    } else {
        Listing::AllBut(types.others())
    }
}

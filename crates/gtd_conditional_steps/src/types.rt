//! The vehicle types of which a part speaks.

ghost use Rattle.std.specs.Prelude.{◌↔◌, ℕ};
ghost use Rattle.gtd_rows.specs.Serving.{Serves};
ghost use Rattle.gtd_conditional_rows.specs.Types.{HasType, IsVehicle};
ghost use Rattle.gtd_conditional_means.specs.Meanings.{types_of};
ghost use Rattle.gtd_conditional_means.specs.declared.meaning.MeansKind.TheVariants.{Condition};
ghost use Rattle.gtd_conditional_steps.specs.Closing.{IsAmong};
ghost use Rattle.gtd_conditional_steps.specs.Hours.{EachHoldsFor, HoldsFor};

use gtd_conditional_means::Means;
use gtd_conditional_rows::{Types, types_of};
use gtd_conditional_values::Term;
use gtd_rows::Vehicles;

// The types for which a condition of the table holds.
fn types_named(means: &Means, name: &[u8]) -> Types
    ensures { (t : ℕ) → IsVehicle t
        → HasType result t ↔ IsAmong (types_of Condition name.now means.now.rows.items) t }
{
    match means.condition(name) {
        Some(vehicles) => types_of(vehicles),
        None => Types::none(),
    }
}

// The types before for which a term holds too.
fn with_term(means: &Means, types: Types, term: &Term) -> Types
    ensures { (t : ℕ) → IsVehicle t
        → HasType result t ↔ (HasType types t × HoldsFor means.now.rows.items term.now t) }
{
    match term {
        Term::Named(name) => types.common(&types_named(means, name.as_slice())),
        Term::Hours(_) => types,
    }
}

/// The types of a mode for which all terms hold.
pub(crate) fn types_for(means: &Means, mode: &Vehicles, terms: &[Term]) -> Types
    ensures { (t : ℕ) → IsVehicle t
        → HasType result t ↔ (Serves mode.now t × EachHoldsFor means.now.rows.items terms.now t) }
{
    let mut types = types_of(mode);
    let mut rest = terms;
    while let Some((term, more)) = rest.split_first() {
        types = with_term(means, types, term);
        rest = more;
    }
    types
}

//! Rows.

ghost use Rattle.std.specs.Prelude.{◌≡◌};
ghost use Rattle.gtd_conditional_rows.specs.Rows.{is_listed, same_domain, same_row};

use crate::types::Types;
use gtd_core::Domain;
use gtd_rows::Closed;

/// A row of an element.
#[derive(Drop)]
pub struct Row {
    /// The directions that it closes.
    pub closed: Closed,
    /// The vehicle types for which it closes them.
    pub types: Types,
    /// When it closes them: at the seconds of a domain, or always.
    pub domain: Option<Domain>,
}

// Whether both are always, or the same domain.
pub(crate) fn is_same_domain(domain: &Option<Domain>, other: &Option<Domain>) -> bool
    ensures { result ≡ same_domain domain.now other.now }
{
    match domain {
        None => other.is_none(),
        Some(domain) => match other {
            None => false,
            Some(other) => *domain == *other,
        },
    }
}

fn is_same(row: &Row, other: &Row) -> bool
    ensures { result ≡ same_row row.now other.now }
{
    row.types.is_same(&other.types) && is_same_domain(&row.domain, &other.domain)
}

// Whether some row has the same types and the same domain.
pub(crate) fn is_listed(row: &Row, rows: &[Row]) -> bool
    ensures { result ≡ is_listed row.now rows.now }
{
    let mut rest = rows;
    while let Some((other, more)) = rest.split_first() {
        if is_same(row, other) {
            return true;
        }
        rest = more;
    }
    false
}

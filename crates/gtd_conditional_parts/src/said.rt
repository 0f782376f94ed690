//! What names say.

ghost use Rattle.std.specs.Prelude.{◌≡◌};
ghost use Rattle.gtd_conditional_parts.specs.Names as spec;

use gtd_conditional_means::{Access, Means};
use gtd_rows::Direction;

/// What a key speaks of, by which its values have other names.
#[derive(Clone, Copy, Debug, PartialEq, Eq)]
pub enum Subject {
    /// Access: a name opens or closes both directions.
    Access,
    /// One-way traffic, the key `oneway`: a name opens each direction or closes it.
    Oneway,
}

/// What keys of a mode of this name speak of. Takes no memory.
pub fn subject_of(mode: &[u8]) -> Subject
    ensures subject { result ≡ spec.subject_of mode.now }
{
    if mode == b"oneway".as_slice() {
        Subject::Oneway
    } else {
        Subject::Access
    }
}

/// What a name says of each direction.
#[derive(Clone, Copy, Debug, PartialEq, Eq)]
pub struct Said {
    /// What it says of the positive direction.
    pub positive: Access,
    /// What it says of the negative direction.
    pub negative: Access,
}

impl Said {
    /// What is said of a direction.
    pub fn access_in(self, direction: Direction) -> Access
        ensures access { result ≡ spec.access_in self direction }
    {
        match direction {
            Direction::Positive => self.positive,
            Direction::Negative => self.negative,
        }
    }
}

// The same of both directions.
fn both(access: Access) -> Said
    ensures { result ≡ spec.both access }
{
    Said {
        positive: access,
        negative: access,
    }
}

// What a name says of one-way traffic.
fn oneway_said(name: &[u8]) -> Option<Said>
    ensures { result ≡ spec.oneway_said name.now }
{
    if name == b"yes".as_slice() {
        Some(Said {
            positive: Access::Open,
            negative: Access::Closed,
        })
    } else if name == b"-1".as_slice() {
        Some(Said {
            positive: Access::Closed,
            negative: Access::Open,
        })
    } else if name == b"no".as_slice() {
        Some(both(Access::Open))
    } else {
        None
    }
}

/// What a name says, or `None` if it is none of the subject. Of access, a table has other names than `no`, `yes`, `designated`
/// and `permissive`. Of `oneway` the names are `yes`, `-1` and `no`. Takes no memory.
pub fn said_of(means: &Means, subject: Subject, name: &[u8]) -> Option<Said>
    ensures said { result ≡ spec.said_of subject means.now.rows.items name.now }
{
    match subject {
        Subject::Access => match means.access(name) {
            Some(access) => Some(both(access)),
            None => None,
        },
        Subject::Oneway => oneway_said(name),
    }
}

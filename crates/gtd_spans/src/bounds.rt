//! Two seconds between which spans lie.

ghost use Rattle.gtd_spans.specs.Inside.{IsInside};

use gtd_core::{Sec, Span};

/// The seconds from one to another. A span lies inside if it begins no earlier than the first and ends by the second.
#[derive(Clone, Copy, Debug)]
pub struct Bounds {
    /// Where a span inside may begin.
    pub from: Sec,
    /// Where a span inside must have ended.
    pub until: Sec,
}

impl Bounds {
    ghost use Rattle.std.specs.Prelude.{◌≡◌, ◌↔◌, true};

    /// The bounds inside of which every span lies.
    pub const ALL: Bounds = Bounds {
        from: Sec(i64::MIN),
        until: Sec(i64::MAX),
    };

    /// Whether a span lies inside.
    #[inline(always)]
    pub fn contain(self, x: Span) -> bool
        ensures value { result ≡ true ↔ IsInside self x }
    {
        self.from <= x.from() && x.until() <= self.until
    }
}

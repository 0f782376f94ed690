//! What takes spans, one after another.

ghost use Rattle.std.specs.Prelude.{◌∷◌, Bool, List, IsTrue};
ghost use Rattle.gtd_core.specs.Seconds.{Interval};

use gtd_core::Span;

/// What takes spans, one after another, into something else.
pub trait SpanTaker<E> {
    // Both are ready for the spans of a list, one after another.
    ghost is_ready: { E → Self → List Interval → Type 0 };

    // What a span makes of both, and whether the taker asks for more.
    ghost takes: { E → Self → Interval → E → Self → Bool → Type 0 };

    /// Takes the next span, and answers whether it asks for more.
    fn take(&mut self, into: &mut E, span: Span) -> bool
        requires ready { (more : List Interval) × is_ready into.old self.old (span ∷ more) }
        ensures takes { takes into.old self.old span into.new self.new result }
        ensures ready { IsTrue result → (more : List Interval) → is_ready into.old self.old (span ∷ more)
            → is_ready into.new self.new more };
}

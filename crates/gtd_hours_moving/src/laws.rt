//! Laws of the definitions: calls that do nothing, whose contracts are what is proved.

ghost use Rattle.std.specs.Prelude.{◌≡◌, ℕ, ◌+◌, ◌++◌, ◌∷◌, List, length, Option, Some};
ghost use Rattle.gtd_hours.specs.declared.hours.Selector.{Selector};
ghost use Rattle.gtd_hours_days.specs.declared.easter_range.EasterRange.{EasterRange};
ghost use Rattle.gtd_hours_moving.specs.Moving.{IsMovingFront};
ghost use Rattle.gtd_hours_moving.specs.declared.front.MovingFront.{MovingFront};
ghost use Rattle.gtd_hours_moving.specs.declared.front.MovingFront.TheVariants as front;
ghost use Rattle.gtd_hours_tokens.specs.declared.token.Token.{Token};

/// Tokens of a text begin with one range of days that moves, or with one that has one fault, or with none. The order of a range
/// says whether it goes over the end of the year, and an end has one day in a year, so its days are one selector.
pub fn one_moving_front()
    ensures { (text : List ℕ) (tokens : List Token) (one other : Option MovingFront) →
        IsMovingFront text tokens one → IsMovingFront text tokens other → one ≡ other }
{}

/// A range is the first tokens, so many, and ends where the last of them does.
pub fn first_tokens()
    ensures always { (text : List ℕ) (tokens : List Token) (days : Selector) (count to : ℕ) →
        IsMovingFront text tokens (Some (front.Range days count to)) →
        (before after : List Token) × (last : Token)
        × (tokens ≡ before ++ last ∷ after) × (length before + 1 ≡ count) × (last.to ≡ to) }
    ensures easter { (text : List ℕ) (tokens : List Token) (days : EasterRange) (place count to : ℕ) →
        IsMovingFront text tokens (Some (front.Easter days place count to)) →
        (before after : List Token) × (last : Token)
        × (tokens ≡ before ++ last ∷ after) × (length before + 1 ≡ count) × (last.to ≡ to) }
{}

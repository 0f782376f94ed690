//! The law of the definitions: a call that does nothing, whose contract is what is proved.

ghost use Rattle.std.specs.Prelude.{◌≡◌, ℕ, List};
ghost use Rattle.gtd_hours_times.specs.Tokens.{AreTimeTokens, IsTimeFault};
ghost use Rattle.gtd_hours_times.specs.declared.times.TimeToken.{TimeToken};

/// A text is one list of tokens at most, and has one first byte at most with which no token begins. It never has both.
pub fn one_reading()
    ensures tokens { (text : List ℕ) (one other : List TimeToken) → AreTimeTokens text one → AreTimeTokens text other
        → one ≡ other }
    ensures fault { (text : List ℕ) (one other : ℕ) → IsTimeFault text one → IsTimeFault text other → one ≡ other }
    ensures apart { (text : List ℕ) (tokens : List TimeToken) (place : ℕ) → AreTimeTokens text tokens
        → IsTimeFault text place → ⊥ }
{}

//! Laws of the definitions: calls that do nothing, whose contracts are what is proved.

ghost use Rattle.std.specs.Prelude.{◌≡◌, ◌≤◌, ◌↔◌, ◌⊎◌, ℕ, List, Option, Some, None, Result, length};
ghost use Rattle.gtd_hours_tokens.specs.Lexing.{AreTokens, BeginsNoToken, IsNext, IsToken, IsTokenFault};
ghost use Rattle.gtd_hours_tokens.specs.TokenAt.{token_at};
ghost use Rattle.gtd_hours_tokens.specs.declared.token.BadToken.{BadToken};
ghost use Rattle.gtd_hours_tokens.specs.declared.token.Token.{Token};

/// At each place at most one token begins, and from each place on one thing at most comes next.
pub fn one_token()
    ensures token { (text : List ℕ) (token other : Token) →
        IsToken text token → IsToken text other → token.from ≡ other.from → token ≡ other }
    ensures next { (text : List ℕ) (from : ℕ) (one other : Result (Option Token) BadToken) →
        IsNext text from one → IsNext text from other → one ≡ other }
{}

/// A text is one list of tokens at most, and has one first byte at most with which no token begins. It never has both.
pub fn one_reading()
    ensures tokens { (text : List ℕ) (one other : List Token) →
        AreTokens text one → AreTokens text other → one ≡ other }
    ensures fault { (text : List ℕ) (one other : ℕ) →
        IsTokenFault text one → IsTokenFault text other → one ≡ other }
    ensures apart { (text : List ℕ) (tokens : List Token) (place : ℕ) →
        AreTokens text tokens → IsTokenFault text place → ⊥ }
{}

/// A token is in a text exactly if it is the one that is computed from the bytes at its place. None begins exactly where
/// none is computed.
pub fn tokens_as_computed()
    ensures token { (text : List ℕ) (token : Token) →
        IsToken text token ↔ (token_at text token.from ≡ Some token) }
    ensures none { (text : List ℕ) (place : ℕ) →
        BeginsNoToken text place ↔ (token_at text place ≡ None) }
{}

/// Each text is a list of tokens, or has a first byte with which no token begins. From each of its places on, something comes
/// next.
pub fn each_text()
    ensures next { (text : List ℕ) (from : ℕ) → from ≤ length text →
        (next : Result (Option Token) BadToken) × IsNext text from next }
    ensures text { (text : List ℕ) →
        ((tokens : List Token) × AreTokens text tokens) ⊎ ((place : ℕ) × IsTokenFault text place) }
{}

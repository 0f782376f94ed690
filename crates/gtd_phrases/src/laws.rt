//! Laws of the definitions: calls that do nothing, whose contracts are what is proved.

ghost use Rattle.std.specs.Prelude.{◌≡◌, ℕ, List, [], ◌∷◌, ◌++◌};
ghost use Rattle.gtd_phrases.specs.Grammar.{BeginsALine, First, Group, IsEndLine, IsIn, IsLine, IsOperator, closers};
ghost use Rattle.gtd_phrases.specs.Grammar.{end_closers, members};
ghost use Rattle.gtd_phrases.specs.Pieces.{figures_of, phrase_text, text};
ghost use Rattle.gtd_phrases.specs.Ranges.{IsWritten};
ghost use Rattle.gtd_phrases.specs.Tables.{word_in};
ghost use Rattle.gtd_phrases.specs.declared.phrase.Language.{Language};
ghost use Rattle.gtd_phrases.specs.declared.phrase.Piece.{Piece};
ghost use Rattle.gtd_languages.specs.declared.word.Word.{Word};

/// The words of a line say which pieces it has, in each language. A line ends with a line feed.
pub fn lines_are_read()
    ensures { (language : Language) (group : Group) (x y : List Piece) (r s : List ℕ) → IsLine group x → IsLine group y
        → text language x ++ 10 ∷ r ≡ text language y ++ 10 ∷ s → (x ≡ y) × (r ≡ s) }
{}

/// Words close with one end at most, in each language, and what closes a line without an end closes no end.
pub fn ends_are_read()
    ensures one { (language : Language) (a b : List Piece) (x y : List ℕ) → IsEndLine a → IsEndLine b
        → x ++ text language a ≡ y ++ text language b → text language a ≡ text language b }
    ensures none { (language : Language) (p q : Piece) (x y : List ℕ) → IsIn p.phrase closers
        → IsIn q.phrase end_closers → IsWritten (figures_of p.phrase) p.number → IsWritten (figures_of q.phrase) q.number
        → x ++ phrase_text language p.phrase p.number ≡ y ++ phrase_text language q.phrase q.number → ⊥ }
{}

/// The words that say what is done with the lines above differ from one another, and from the beginning of each day. No line
/// begins with a space.
pub fn beginnings_are_read()
    ensures operators { (language : Language) (v w : Word) (r s : List ℕ) → IsOperator v → IsOperator w
        → word_in language v ++ r ≡ word_in language w ++ s → (v ≡ w) × (r ≡ s) }
    ensures no_operator { (language : Language) (p : Piece) (w : Word) (r s : List ℕ) → IsIn p.phrase (members First)
        → IsWritten (figures_of p.phrase) p.number → IsOperator w
        → phrase_text language p.phrase p.number ++ r ≡ word_in language w ++ s → ⊥ }
    ensures day { (language : Language) (p : Piece) (r : List ℕ) → IsIn p.phrase (members First)
        → IsWritten (figures_of p.phrase) p.number → BeginsALine (phrase_text language p.phrase p.number ++ r) }
    ensures operator { (language : Language) (w : Word) (r : List ℕ) → IsOperator w
        → BeginsALine (word_in language w ++ r) }
{}

//! Laws of the definitions: calls that do nothing, whose contracts are what is proved.

ghost use Rattle.std.specs.Prelude.{◌≡◌, ◌↔◌, IsTrue, is_some, true, false};
ghost use Rattle.gtd_core.specs.Equality.{same_tree};
ghost use Rattle.gtd_core.specs.Parts.{domain_tree};
ghost use Rattle.gtd_core.specs.Ranges.{IsDuration, IsStart};
ghost use Rattle.gtd_core.specs.Trees.{Tree, AreValid};
ghost use Rattle.gtd_core.specs.declared.domain.Domain.{Domain};
ghost use Rattle.gtd_core.specs.declared.duration.DurationParts.{DurationParts};
ghost use Rattle.gtd_core.specs.declared.start.StartParts.{StartParts};
ghost use Rattle.gtd_ends.specs.Endings.{ending, is_all_day};
ghost use Rattle.gtd_ends.specs.Ends.{AllEndAt, AllLastTheDay};
ghost use Rattle.gtd_ends.specs.declared.end.End.{End};
ghost use Rattle.gtd_phrases.specs.Grammar.{First, IsLine};
ghost use Rattle.gtd_phrases.specs.Ranges.{AreWritten};
ghost use Rattle.gtd_phrases.specs.declared.phrase.Language.{Language};
ghost use Rattle.gtd_words.specs.Said.{SayAnEnd, SayEnd};
ghost use Rattle.gtd_words.specs.Words.{basic_pieces, basic_words, words_in};

use gtd_core::laws::{equality_of_trees, leaves_are_valid};
use gtd_ends::laws::ends_are_right;
use gtd_phrases::laws::{beginnings_are_read, ends_are_read, lines_are_read};

/// The pieces of a basic domain stand in an order of the grammar, and their numbers are in their ranges.
pub fn words_are_lines()
    ensures line { (start : StartParts) (duration : DurationParts) → IsStart start → IsDuration duration
        → IsLine First (basic_pieces start duration) }
    ensures written { (start : StartParts) (duration : DurationParts) → IsStart start → IsDuration duration
        → AreWritten (basic_pieces start duration) }
{
    ends_are_right();
}

/// The words say everything: expressions in their ranges that have the same words in a language are the same expression.
pub fn same_words()
    ensures same { (language : Language) (a b : Tree) → AreValid a → AreValid b → words_in language a ≡ words_in language b
        → a ≡ b }
{
    ends_are_right();
    lines_are_read();
    beginnings_are_read();
}

/// The same for each domain, without a premise: two domains are equal (`==`) exactly if their words in a language are.
pub fn same_words_of_domains()
    ensures same { (language : Language) (a b : Domain) → (same_tree (domain_tree a) (domain_tree b) ≡ true)
        ↔ (words_in language (domain_tree a) ≡ words_in language (domain_tree b)) }
{
    leaves_are_valid();
    equality_of_trees();
    same_words();
}

/// The end that words say is the end of each stretch. If the words of a basic domain close with `until 06:00 the next day`, or
/// `until 31 May (included)`, or the like in another language, then each stretch of its recurrence ends so. The words say an end
/// exactly if one is found that is the same for all stretches (`ending`), unless they are `all day`: then the day with which
/// each stretch begins is all of it.
pub fn right_ends()
    ensures said { (language : Language) (start : StartParts) (duration : DurationParts) → IsStart start
        → IsDuration duration → is_all_day start duration ≡ false
        → IsTrue (is_some (ending start duration)) ↔ SayAnEnd language (basic_words language start duration) }
    ensures each { (language : Language) (start : StartParts) (duration : DurationParts) (end : End) → IsStart start
        → IsDuration duration → SayEnd language (basic_words language start duration) end
        → AllEndAt start duration end }
    ensures whole_day { (start : StartParts) (duration : DurationParts) → IsStart start → IsDuration duration
        → is_all_day start duration ≡ true → AllLastTheDay start duration }
{
    ends_are_right();
    lines_are_read();
    ends_are_read();
}

//! What is shown below the line of a refusal.

ghost use Rattle.gtdesk_tool.specs.Shown.{IsNothing, IsOfRun, IsOfText, IsOfWord, IsShownBelow};

use crate::refusal::{Refusal, RunRefusal};
use gtd_faults::Snippet;
use gtd_hours_faults::{
    Expectation, RefusalSnippet, domain_snippet, hours_snippet, too_many_snippet,
};
use gtdesk_words::{NoDomain, Reason, WordsRefusal};

// Nothing, of whatever text.
fn nothing(_text: &str) -> RefusalSnippet<'_>
    ensures { IsNothing result }
{
    RefusalSnippet {
        snippet: Snippet::Nothing,
        accepted: Expectation::Nothing,
    }
}

// What is shown of a text of opening hours without a domain.
fn of_text(text: &str, why: NoDomain) -> RefusalSnippet<'_>
    ensures { IsOfText text.now why result }
{
    match why {
        NoDomain::Fault(fault) => hours_snippet(text, fault),
        NoDomain::TooMany { needed } => too_many_snippet(text, needed),
    }
}

// What is shown of a word.
fn of_word(text: &str, why: Reason) -> RefusalSnippet<'_>
    ensures { IsOfWord text.now why result }
{
    match why {
        Reason::Domain(fault) => domain_snippet(text, fault),
        Reason::Hours(why) => of_text(text, why),
        _ => nothing(text),
    }
}

// What is shown of the text that a plan reads.
fn of_run(text: &str, why: RunRefusal) -> RefusalSnippet<'_>
    ensures { IsOfRun text.now why result }
{
    match why {
        RunRefusal::NoDomain(why) => of_text(text, why),
        _ => nothing(text),
    }
}

/// What is shown below the line of a refusal: of a time domain or of opening hours the text, or a stretch of it around the place
/// of its fault, with a caret, and what is accepted there; otherwise nothing. The text is the word that is refused, or that of
/// the opening hours that the plan reads.
pub fn word_snippet(text: &str, refusal: Refusal) -> RefusalSnippet<'_>
    ensures shown { IsShownBelow text.now refusal result }
{
    match refusal {
        Refusal::Words(why) => match why {
            WordsRefusal::Word(fault) => of_word(text, fault.why),
            _ => nothing(text),
        },
        Refusal::Run(why) => of_run(text, why),
    }
}

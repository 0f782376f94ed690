//! Laws of the definitions: calls that do nothing, whose contracts are what is proved.

ghost use Rattle.std.specs.Prelude.{◌≡◌, ◌≢◌, ◌≤◌, ◌↔◌, ◌⊎◌, ℕ, List, Some, None, Ok, drop, true};
ghost use Rattle.gtd_core.specs.Limits.{most_basic_domains};
ghost use Rattle.gtd_core.specs.Equality.{same_tree};
ghost use Rattle.gtd_core.specs.Parts.{domain_tree};
ghost use Rattle.gtd_core.specs.Trees.{Tree, AreValid, leaf_count};
ghost use Rattle.gtd_core.specs.declared.domain.Domain.{Domain};
ghost use Rattle.gtd_core.specs.declared.fault.Fault.{Fault};
ghost use Rattle.gtd_core.specs.declared.fault.TextFault.{TextFault};
ghost use Rattle.gtd_text.specs.Canonical.{canonical};
ghost use Rattle.gtd_text.specs.FirstFault.{GoesOn, IsFirstFault};
ghost use Rattle.gtd_text.specs.ComputedFaults.{IsClean};
ghost use Rattle.gtd_text.specs.Fitting.{grammar_fault, may_end};
ghost use Rattle.gtd_text.specs.Found.{fault_of_tokens};
ghost use Rattle.gtd_text.specs.Grammar.{Stands, Sum};
ghost use Rattle.gtd_text.specs.Lexing.{IsToken, kinds};
ghost use Rattle.gtd_text.specs.ComputedLexing.{IsFaultAt, newest_first};
ghost use Rattle.gtd_text.specs.Reading.{IsReading, StandsFor, HasNoFault, IsFault};
ghost use Rattle.gtd_text.specs.TokenAt.{token_at, fault_at_front};
ghost use Rattle.gtd_text.specs.declared.token.Token.{Token};

use gtd_core::laws::{equality_of_trees, leaves_are_valid};

/// A text stands for at most one expression, and has at most one fault. It is read as an expression exactly if it stands for
/// it and has no fault.
pub fn one_meaning()
    ensures expression { (text : List ℕ) (e f : Tree) →
        StandsFor text e → StandsFor text f → e ≡ f }
    ensures fault { (text : List ℕ) (f g : TextFault) → IsFault text f → IsFault text g → f ≡ g }
    ensures reading { (text : List ℕ) (e : Tree) →
        IsReading text (Ok e) ↔ (StandsFor text e × HasNoFault text) }
{}

/// The canonical text of an expression in its ranges stands for it and for nothing else. With at most 128 basic
/// domains it has no fault, and so is within all limits.
pub fn canonical_text()
    ensures stands { (e : Tree) → AreValid e → StandsFor (canonical e) e }
    ensures only { (e f : Tree) → AreValid e → StandsFor (canonical e) f → f ≡ e }
    ensures faultless { (e : Tree) → AreValid e → leaf_count e ≤ most_basic_domains → HasNoFault (canonical e) }
{}

/// The same for each domain, without a premise. Two domains are equal (`==`) exactly if their canonical texts are.
pub fn canonical_text_of_domain()
    ensures stands { (domain : Domain) →
        StandsFor (canonical (domain_tree domain)) (domain_tree domain) }
    ensures only { (domain : Domain) (e : Tree) →
        StandsFor (canonical (domain_tree domain)) e → e ≡ domain_tree domain }
    ensures faultless { (domain : Domain) → HasNoFault (canonical (domain_tree domain)) }
    ensures one_text { (a b : Domain) → (same_tree (domain_tree a) (domain_tree b) ≡ true)
        ↔ (canonical (domain_tree a) ≡ canonical (domain_tree b)) }
{
    leaves_are_valid();
    equality_of_trees();
}

/// By the table of what may come next, tokens stand for an expression exactly if none of them is at fault and they do not
/// end too early.
pub fn grammar_and_faults()
    ensures agree { (tokens : List Token) →
        (IsClean grammar_fault tokens × (may_end (newest_first tokens) ≡ true))
        ↔ ((e : Tree) × Stands Sum (kinds tokens) e) }
{}

/// None of some tokens is at fault by that table exactly if more tokens can follow so that all together stand for an
/// expression. So the first token at fault is the first with which no expression goes on.
pub fn tokens_go_on()
    ensures agree { (tokens : List Token) →
        IsClean grammar_fault tokens ↔ GoesOn (kinds tokens) }
{}

/// The first fault of the tokens of a text of this length is the one that is computed, phase by phase.
pub fn faults_as_computed()
    ensures first { (len : ℕ) (tokens : List Token) (fault : TextFault) →
        IsFirstFault len tokens fault ↔ (fault_of_tokens len tokens ≡ Some fault) }
{}

/// A token is in a text exactly if it is the one that is computed from the bytes at its place. None begins exactly
/// where none is computed. The same holds for the fault at a place.
pub fn tokens_as_computed()
    ensures token { (text : List ℕ) (token : Token) →
        IsToken text token ↔ (token_at text token.from ≡ Some token) }
    ensures none { (text : List ℕ) (place : ℕ) →
        ((token : Token) → IsToken text token → token.from ≢ place) ↔ (token_at text place ≡ None) }
    ensures fault { (text : List ℕ) (place : ℕ) (fault : Fault) →
        IsFaultAt text place fault ↔ (fault ≡ fault_at_front (drop place text)) }
{}

/// Each text stands for an expression and has no fault, or it has a fault.
pub fn each_text()
    ensures some { (text : List ℕ) → ((e : Tree) × StandsFor text e × HasNoFault text)
        ⊎ ((fault : TextFault) × IsFault text fault) }
{}

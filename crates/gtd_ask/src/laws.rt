//! Laws of the definitions: calls that do nothing, whose contracts are what is proved.

ghost use Rattle.std.specs.Prelude.{◌≡◌, ℕ, List};
ghost use Rattle.gtd_records.specs.Closing.{Restriction};
ghost use Rattle.gtd_ask.specs.Answers.{IsText};
ghost use Rattle.gtd_ask.specs.declared.question.Question.{Question};

/// Questions have at most one text of answers.
pub fn one_text()
    ensures one { (found : List Restriction) (questions : List Question) (a b : List (List ℕ)) → IsText found questions a
        → IsText found questions b → a ≡ b }
{}

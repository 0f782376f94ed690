//! Laws of the definitions: calls that do nothing, whose contracts are what is proved.

ghost use Rattle.std.specs.Prelude.{◌≡◌, ◌↔◌, ◌∷◌, ◌++◌, [], ℕ, List};
ghost use Rattle.gtd_core.specs.declared.horizon.Horizon.{Horizon};
ghost use Rattle.gtd_records.specs.Closing.{Restriction};
ghost use Rattle.gtd_schedule.specs.Split.{HaveSameRows, IsSplitAt};
ghost use Rattle.gtd_changes.specs.Changes.{AgreeOver};
ghost use Rattle.gtd_changes.specs.Forms.{IsTextIn, header_in};
ghost use Rattle.gtd_changes.specs.declared.form.Form.{Form};
ghost use Rattle.gtd_changes.specs.declared.form.Form.TheVariants.{Intervals};

/// Two lists of restrictions have exactly one text in each form, for a vehicle type and a horizon.
pub fn one_text()
    ensures one { (form : Form) (old new : List Restriction) (vehicle : ℕ) (horizon : Horizon) (a b : List (List ℕ)) →
        IsTextIn form old new vehicle horizon a → IsTextIn form old new vehicle horizon b → a ≡ b }
    ensures some { (form : Form) (old new : List Restriction) (vehicle : ℕ) (horizon : Horizon) →
        (lines : List (List ℕ)) × IsTextIn form old new vehicle horizon lines }
{}

/// In each form the text is the header alone exactly if both close each element in each direction at the same seconds of the
/// horizon. So it is, if both have the same restrictions, in whatever order and however often each of them stands: a file and
/// itself, its migration, or its rows in any other order.
pub fn nothing_changed()
    ensures same { (form : Form) (old new : List Restriction) (vehicle : ℕ) (horizon : Horizon) (lines : List (List ℕ)) →
        IsTextIn form old new vehicle horizon lines
        → (lines ≡ header_in form ∷ []) ↔ AgreeOver old new vehicle horizon }
    ensures same_rows { (form : Form) (old new : List Restriction) (vehicle : ℕ) (horizon : Horizon) →
        HaveSameRows old new → IsTextIn form old new vehicle horizon (header_in form ∷ []) }
{}

/// Files that are cut into ranges of elements have their intervals in parts: the intervals of the elements below a number,
/// followed by those of the others, are the intervals of all. The rows may stand in the parts in any order.
pub fn changes_of_ranges()
    ensures two { (old new old_low old_high new_low new_high : List Restriction) (k vehicle : ℕ) (horizon : Horizon)
        (a b : List (List ℕ)) → HaveSameRows old (old_low ++ old_high) → HaveSameRows new (new_low ++ new_high)
        → IsSplitAt k old_low old_high → IsSplitAt k new_low new_high
        → IsTextIn Intervals old_low new_low vehicle horizon (header_in Intervals ∷ a)
        → IsTextIn Intervals old_high new_high vehicle horizon (header_in Intervals ∷ b)
        → IsTextIn Intervals old new vehicle horizon (header_in Intervals ∷ (a ++ b)) }
{}

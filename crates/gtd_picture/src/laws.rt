//! Laws of the definitions: calls that do nothing, whose contracts are what is proved.

ghost use Rattle.std.specs.Prelude.{◌≡◌, ◌<◌, ◌≤◌, ◌+◌, ◌-◌, ◌*◌, ◌⊎◌, ◌↔◌, ◌+ℤ◌, ◌*ℤ◌, ◌∷◌, [], All, flat_map, ℕ, ℤ, List, pos};
ghost use Rattle.std.specs.Int.{IsInRange};
ghost use Rattle.gtd_calendar.specs.Calendar.{AreFieldsOf, IsCalendarDay, IsDateOf, days_of_months, first_day, weekday_of};
ghost use Rattle.gtd_calendar.specs.Stamp.{IsDateText, date_text};
ghost use Rattle.gtd_calendar.specs.declared.day.DayFields.{DayFields};
ghost use Rattle.gtd_core.specs.Limits.{day_seconds};
ghost use Rattle.gtd_picture.specs.Paths.{HasNoQuote, IsPathOf};
ghost use Rattle.gtd_picture.specs.Picture.{AreColumns, IsColumn, IsPicture, Rect, rect_text, whole_column};
ghost use Rattle.gtd_picture.specs.Reading.{IsReadAs};
ghost use Rattle.gtd_picture.specs.Rects.{AreApart, AreInside, SomeCovers, rects_of};
ghost use Rattle.gtd_picture.specs.Titles.{IsTitled};
ghost use Rattle.gtd_picture.specs.Words.{escape, shown_byte, weekday_name};

use gtd_spans::laws::SecondSet;

/// The rectangles of a set's columns are disjoint, none is empty, they are in order, and they cover a second of a day
/// exactly if it is in the set.
pub fn covered_seconds<S: SecondSet>()
    ensures covered { (first : ℤ) (n : ℕ) (columns : List (List Rect))
        → AreColumns S.contains first 0 n columns → (x y : ℕ) → x < n → y < day_seconds
        → SomeCovers x y (rects_of columns) ↔ S.contains ((first +ℤ pos x) *ℤ pos day_seconds +ℤ pos y) }
    ensures inside { (first : ℤ) (n : ℕ) (columns : List (List Rect))
        → AreColumns S.contains first 0 n columns → AreInside n (rects_of columns) }
    ensures apart { (first : ℤ) (n : ℕ) (columns : List (List Rect))
        → AreColumns S.contains first 0 n columns → AreApart (rects_of columns) }
{}

/// A set of which each second is or is not has a picture.
pub fn some_picture<S: SecondSet>()
    ensures some { ((t : ℤ) → S.contains t ⊎ (S.contains t → ⊥)) → (title inside outside : List ℕ) (year : ℕ)
        → (lines : List (List ℕ)) × IsPicture S.contains title inside outside year lines }
{}

/// A set has one picture at most, with given words and in a year.
pub fn one_picture<S: SecondSet>()
    ensures one { (title inside outside : List ℕ) (year : ℕ) (a b : List (List ℕ))
        → IsPicture S.contains title inside outside year a → IsPicture S.contains title inside outside year b → a ≡ b }
{}

/// Words stand in a picture as text that XML reads as the words as people see them, and those are the words: different
/// words are seen as different ones.
pub fn words_read_back()
    ensures read { (words : List ℕ) → All (λ (b : ℕ). b < 256) words
        → IsReadAs (flat_map escape words) (flat_map shown_byte words) }
    ensures back { (a b : List ℕ) → All (λ (x : ℕ). x < 256) a → All (λ (x : ℕ). x < 256) b
        → flat_map shown_byte a ≡ flat_map shown_byte b → a ≡ b }
{}

/// A picture has its title in the element `title`: XML reads there the title as people see it, however long it is.
pub fn title_read_back<S: SecondSet>()
    ensures title { (title inside outside : List ℕ) (year : ℕ) (lines : List (List ℕ)) → All (λ (b : ℕ). b < 256) title
        → IsPicture S.contains title inside outside year lines → IsTitled lines title }
{}

/// The path of a day is read back: SVG reads its text as the rectangles of the day's column, and the path below it as the whole
/// of the column. A text is read as one list of rectangles at most. It has no quote, so that the attribute holds all of it.
pub fn paths_read_back<S: SecondSet>()
    ensures read { (day : ℤ) (place : ℕ) (column : List Rect) → place < 366 → IsColumn S.contains day place column
        → IsPathOf (flat_map rect_text column) column }
    ensures whole { (place : ℕ) → place < 366 → IsPathOf (rect_text (whole_column place)) (whole_column place ∷ []) }
    ensures back { (text : List ℕ) (a b : List Rect) → IsPathOf text a → IsPathOf text b → a ≡ b }
    ensures unquoted { (text : List ℕ) (rects : List Rect) → IsPathOf text rects → HasNoQuote text }
{}

/// The labels are right. A day's line has the text of its date and the name of its weekday. A month's name stands at the
/// place of the first of the month, and the label of a day of the month as many columns behind it as the day is. An hour's
/// label is as far down as its first second.
pub fn right_labels()
    ensures date { (day : ℤ) → IsCalendarDay day → IsDateText day (date_text day) }
    ensures weekday { (day : ℤ) (fields : DayFields) → AreFieldsOf day fields
        → weekday_name (weekday_of day) ≡ weekday_name fields.weekday }
    ensures month { (year : ℤ) (n day : ℕ) → n < 12 → IsInRange 1 28 day
        → IsDateOf (first_day year +ℤ pos (days_of_months year n + (day - 1))) year (n + 1) day }
    ensures tick { (place day : ℕ) → 72 + 3 * place + 3 * (day - 1) ≡ 72 + 3 * (place + (day - 1)) }
    ensures hour { (hour : ℕ) → 18 * hour * day_seconds ≡ 432 * (3600 * hour) }
{}

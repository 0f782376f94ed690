//! Laws of the definitions: calls that do nothing, whose contracts are what is proved.

ghost use Rattle.std.specs.Prelude.{◌≡◌, ◌<◌, [], ◌∷◌, ℕ, false, List, Ok, get_or, map};
ghost use Rattle.csv.specs.Reading.{default_config, records, strip_bom};
ghost use Rattle.gtd_records.specs.Closing.{Restriction};
ghost use Rattle.gtd_rows.specs.Columns.{Fields};
ghost use Rattle.gtd_records.specs.Row.{IsRow};
ghost use Rattle.gtd_rows.specs.declared.vehicles.Version.{Version};
ghost use Rattle.gtd_mend.specs.Fields.{mended_row, mended_table, without_spaces};
ghost use Rattle.gtd_mend.specs.Mended.{HasHeader, IsAccepted, IsMended, IsRewritten, IsSame};
ghost use Rattle.gtd_mend.specs.Reading.{separated_by};
ghost use Rattle.gtd_mend.specs.declared.change.FileChange.{FileChange};
ghost use Rattle.gtd_mend.specs.declared.separator.Separator.{Separator};

/// A mended file of an accepted file is that file, with no change.
pub fn accepted_unchanged()
    ensures same { (path bytes mended : List ℕ) (lines : List (List ℕ)) → IsAccepted bytes
        → IsMended path bytes mended lines → IsSame bytes mended lines }
{}

/// The rows of a file that is written anew, as any reader of record files reads them, are the rows of the text as `csv` reads
/// them with its separator, in order and one for one, each mended: none is lost, and none is added.
pub fn rows_kept()
    ensures rows { (path : List ℕ) (separator : Separator) (marks : List FileChange) (text mended : List ℕ)
        (lines : List (List ℕ)) → HasHeader separator text → IsRewritten path separator marks text mended lines
        → records default_config (strip_bom mended) ≡ mended_table (records (separated_by separator) text) }
{}

/// A row that stands for a restriction stands for the same one when it is mended: only spaces around its domain are taken off. So
/// it does in the mended file, with its number, whatever other rows of the file are at fault.
pub fn sound_rows_kept()
    ensures meaning { (v : Version) (number : ℕ) (row : Fields) (r : Restriction) → IsRow v number row (Ok r)
        → IsRow v number (mended_row false row) (Ok r) }
    ensures only_spaces { (v : Version) (number : ℕ) (element direction vehicles domain : List ℕ) (r : Restriction)
        → IsRow v number (element ∷ direction ∷ vehicles ∷ domain ∷ []) (Ok r)
        → mended_row false (element ∷ direction ∷ vehicles ∷ domain ∷ [])
        ≡ element ∷ direction ∷ vehicles ∷ without_spaces domain ∷ [] }
    ensures in_file { (path : List ℕ) (separator : Separator) (marks : List FileChange) (text mended : List ℕ)
        (lines : List (List ℕ)) (v : Version) (number : ℕ) (r : Restriction) → HasHeader separator text
        → IsRewritten path separator marks text mended lines → 0 < number
        → IsRow v number (get_or (records (separated_by separator) text) number []) (Ok r)
        → IsRow v number (get_or (records default_config (strip_bom mended)) number []) (Ok r) }
{}

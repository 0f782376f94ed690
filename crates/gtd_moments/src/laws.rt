//! Laws of the definitions: calls that do nothing, whose contracts are what is proved.

ghost use Rattle.std.specs.Prelude.{◌≡◌, ℕ, List, Ok};
ghost use Rattle.gtd_core.specs.declared.second.Sec.{Sec};
ghost use Rattle.gtd_calendar.specs.Read.{stamp_in};
ghost use Rattle.gtd_moments.specs.Moments.{HasFraction, IsOfMinutes, IsSpaced, moment_in};

use gtd_calendar::laws::one_reading;

/// Each moment of the form `YYYY-MM-DDThh:mm:ss` stands for the same second here; so does it with a space in place of the
/// `T`, with a fraction after it, and without its seconds if these are `00`.
pub fn each_form()
    ensures same { (text : List ℕ) (second : Sec) → stamp_in text ≡ Ok second → moment_in text ≡ Ok second }
    ensures spaced { (text short : List ℕ) (second : Sec) → stamp_in text ≡ Ok second → IsSpaced text short
        → moment_in short ≡ Ok second }
    ensures fraction { (text long : List ℕ) (second : Sec) → stamp_in text ≡ Ok second → HasFraction text long
        → moment_in long ≡ Ok second }
    ensures minutes { (text short : List ℕ) (second : Sec) → stamp_in text ≡ Ok second → IsOfMinutes text short
        → moment_in short ≡ Ok second }
{
    one_reading();
}

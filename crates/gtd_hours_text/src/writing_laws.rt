//! Laws of written hours: calls that do nothing, whose contracts are what is proved.

ghost use Rattle.std.specs.Prelude.{ℕ, List};
ghost use Rattle.gtd_hours.specs.Writable.{IsWritable};
ghost use Rattle.gtd_hours.specs.Written.{hours_text};
ghost use Rattle.gtd_hours.specs.declared.hours.Hours.{Hours};
ghost use Rattle.gtd_hours_text.specs.Standing.{StandsFor};

/// The written text of hours stands for these hours. So hours have a canonical text, and hours that were read can be written and
/// read again.
pub fn printed_hours_read_back()
    ensures written { (hours : Hours) → IsWritable hours → StandsFor (hours_text hours) hours }
    ensures read { (text : List ℕ) (hours : Hours) → StandsFor text hours → StandsFor (hours_text hours) hours }
{}

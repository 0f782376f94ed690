//! Which letters the fields since the last sign have.

/// A set of letters: bit k stands for the letter that is k in ASCII.
#[derive(Clone, Copy)]
pub struct Letters {
    bits: u128,
}

impl Letters {
    ghost use Rattle.std.specs.Prelude.{◌≡◌, []};
    ghost use Rattle.gtd_text.specs.Summary.{letters, has_found, with_letter};

    /// No field since the last sign.
    pub fn none() -> Letters
        ensures { result ≡ letters [] }
    {
        Letters { bits: 0 }
    }

    /// With one more field.
    pub fn with(self, letter: u8) -> Letters
        ensures { result ≡ with_letter self letter }
    {
        if letter < 128 {
            Letters {
                bits: self.bits | 1 << letter,
            }
        } else {
            self
        }
    }

    /// Whether a field has this letter of ASCII.
    pub fn has(self, letter: u8) -> bool
        ensures { result ≡ has_found self letter }
    {
        letter < 128 && (self.bits >> letter) % 2 == 1
    }
}

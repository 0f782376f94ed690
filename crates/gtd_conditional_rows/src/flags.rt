//! Lists of flags.

ghost use Rattle.std.specs.Prelude.{◌≡◌};
ghost use Rattle.gtd_conditional_rows.specs.Flags.{count_true, same_flags};

// Whether two lists are the same.
pub(crate) fn are_same(first: &[bool], second: &[bool]) -> bool
    ensures { result ≡ same_flags first.now second.now }
{
    let mut rest = first;
    let mut other = second;
    while let Some((flag, more)) = rest.split_first() {
        let Some((other_flag, other_more)) = other.split_first() else {
            return false;
        };
        if *flag != *other_flag {
            return false;
        }
        rest = more;
        other = other_more;
    }
    other.is_empty()
}

// How many flags of a list are true.
pub(crate) fn count(flags: &[bool]) -> usize
    ensures { result ≡ count_true flags.now }
{
    let mut total: usize = 0;
    let mut rest = flags;
    while let Some((flag, more)) = rest.split_first() {
        if *flag {
            total += 1;
        }
        rest = more;
    }
    total
}

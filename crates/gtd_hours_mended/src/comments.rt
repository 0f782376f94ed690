//! The comments of rules.

ghost use Rattle.std.specs.Prelude.{◌≡◌, ◌++◌, ◌∷◌, [], List, IfOk, OnOk};
ghost use Rattle.gtd_hours_holiday_rules.specs.Rules.{begins_rule, link_behind};
ghost use Rattle.gtd_hours_holiday_rules.specs.declared.parts.Part.{Part};
ghost use Rattle.gtd_hours_mended.specs.Comments.{all_comments, comment_behind, comments_of, no_comment};

use gtd_hours_holiday_rules::{Part, link_behind};
use gtd_hours_items::{Item, What};
use std::alloc::{AllocError, Global};

/// Where a comment stands in a text.
#[derive(Clone, Copy)]
pub struct Stretch {
    /// The number of bytes before it.
    pub from: usize,
    /// The number of bytes up to its end: the same where there is none.
    pub to: usize,
}

/// The comments of the rules that have ended, and of the last one so far.
#[derive(Drop)]
pub struct Comments {
    /// Those of the rules that have ended.
    pub ended: Vec<Stretch>,
    /// That of the last one.
    pub last: Stretch,
}

pub(crate) fn no_comment() -> Stretch
    ensures { result ≡ no_comment }
{
    Stretch { from: 0, to: 0 }
}

// The comment of a rule behind one item more.
fn comment_behind(comment: Stretch, item: Item) -> Stretch
    ensures { result ≡ comment_behind comment item }
{
    match item.what {
        What::Comment => Stretch {
            from: item.from,
            to: item.to,
        },
        _ => comment,
    }
}

// The last rule ends, and another begins.
fn end(comments: &mut Comments) -> Result<(), AllocError>
    ensures ended { OnOk result (comments.new.ended.items ≡ comments.old.ended.items ++ comments.old.last ∷ []) }
    ensures last { OnOk result (comments.new.last ≡ no_comment) }
{
    comments.ended.push(comments.last)?;
    comments.last = no_comment();
    Ok(())
}

fn put_part(comments: &mut Comments, part: Part) -> Result<(), AllocError>
    ensures { OnOk result ((parts : List Part) → all_comments comments.new parts ≡ all_comments comments.old (part ∷ parts)) }
{
    match link_behind(part.role) {
        Some(_) => end(comments),
        None => {
            comments.last = comment_behind(comments.last, part.item);
            Ok(())
        }
    }
}

/// Where the comment of each rule stands, of a text with these parts.
pub(crate) fn comments_of(alloc: Global, parts: &[Part]) -> Result<Vec<Stretch>, AllocError>
    ensures { IfOk result (λ found. found.items ≡ comments_of parts.now) }
{
    let mut comments = Comments {
        ended: Vec::new(alloc),
        last: no_comment(),
    };
    let mut rest = parts;
    while let Some((part, later)) = rest.split_first() {
        put_part(&mut comments, *part)?;
        rest = later;
    }
    end(&mut comments)?;
    Ok(comments.ended)
}

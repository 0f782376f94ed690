//! A selector that takes several basic domains, such as every second year.

ghost use Rattle.std.specs.Prelude.{IsSome};
ghost use Rattle.gtd_core.specs.Trees.{tree_of};
ghost use Rattle.gtd_hours_search.specs.Forms.{IsDayLeaf};

use crate::leaf::selector_of;
use gtd_core::{Basic, Expr, Op};
use gtd_hours::{Dates, MonthDay, Selector, Weeks, Years};

// What a chain of basic domains begins and ends with.
#[derive(Clone, Copy)]
struct Pieces {
    first: Basic,
    second: Basic,
    last: Basic,
}

fn leaf_of(expr: &Expr) -> Option<Basic> {
    match expr {
        Expr::Leaf(basic) => Some(*basic),
        Expr::Join(_, _, _) => None,
    }
}

// The pieces of a chain of basic domains.
fn pieces_of(left: &Expr, right: &Expr) -> Option<Pieces> {
    let last = leaf_of(right)?;
    match left {
        Expr::Leaf(first) => Some(Pieces {
            first: *first,
            second: last,
            last,
        }),
        Expr::Join(_, left, right) => {
            let begin = pieces_of(left, right)?;
            Some(Pieces { last, ..begin })
        }
    }
}

// How far it is from one number to another, if the first piece has that number alone.
fn step(first: u16, second: u16, width: u32) -> Option<u16> {
    if width == 1 {
        return second.checked_sub(first);
    }
    Some(1)
}

fn last_of(first: u16, width: u32) -> Option<u16> {
    if width == 0 || width > 100 || first > 9_999 {
        return None;
    }
    Some(first + width as u16 - 1)
}

// Every so many years.
fn years_of(pieces: &Pieces) -> Option<Selector> {
    let first = pieces.first.start.parts().year?;
    let second = pieces.second.start.parts().year?;
    let last = last_of(
        pieces.last.start.parts().year?,
        pieces.last.duration.parts().years,
    )?;
    let step = step(first, second, pieces.first.duration.parts().years)?;
    let years = Years::new(first, last, step)?;
    Some(Selector::Years(years))
}

// Every so many weeks.
fn weeks_of(pieces: &Pieces) -> Option<Selector> {
    let first = u16::from(pieces.first.start.parts().week?);
    let second = u16::from(pieces.second.start.parts().week?);
    let last = u16::from(pieces.last.start.parts().week?);
    let last = last_of(last, pieces.last.duration.parts().weeks)?;
    let step = step(first, second, pieces.first.duration.parts().weeks)?;
    let weeks = Weeks::new(first, last, step)?;
    Some(Selector::Weeks(weeks))
}

// From the first date of a piece to the last date of another.
fn dates_of(pieces: &Pieces) -> Option<Selector> {
    let first = pieces.first.start.parts();
    let last = pieces.last.start.parts();
    let end = u32::from(last.day?) + pieces.last.duration.parts().days;
    if end < 2 || end > 32 {
        return None;
    }
    let dates = Dates {
        first: MonthDay::new(first.month?, first.day?)?,
        last: MonthDay::new(last.month?, end as u8 - 1)?,
    };
    Some(Selector::Dates(dates))
}

/// The selector of an expression, if it has the form of one.
pub fn selector_of_expr(expr: &Expr) -> Option<Selector>
    ensures { IsDayLeaf (tree_of expr.now) → IsSome result }
{
    match expr {
        Expr::Leaf(basic) => selector_of(basic),
        Expr::Join(_, left, right) => {
            let pieces = pieces_of(left, right)?;
            let first = pieces.first.start.parts();
            if first.year.is_some() {
                return years_of(&pieces);
            }
            if first.week.is_some() {
                return weeks_of(&pieces);
            }
            dates_of(&pieces)
        }
    }
}

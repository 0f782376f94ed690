//! The cells of expressions.

use crate::cell::{Cell, DAY_MINUTES};
use crate::later::later;
use crate::meeting::put_meeting;
use crate::starts::cells_of_basic;
use gtd_core::{Expr, Op};
use std::alloc::{AllocError, Global};

// The most cells of an expression. Hours of more are not looked for.
const MOST_CELLS: usize = 512;

/// Whether stretches over midnight are cut there before cells meet.
#[derive(Clone, Copy, PartialEq, Eq)]
pub enum Midnight {
    Kept,
    Cut,
}

fn takes_away(cells: &[Cell]) -> bool {
    for cell in cells {
        if !cell.adds {
            return true;
        }
    }
    false
}

fn put_all(cells: &mut Vec<Cell>, others: &[Cell]) -> Result<(), AllocError> {
    for cell in others {
        cells.push(*cell)?;
    }
    Ok(())
}

// The cells of the one, and then of the other.
fn joined(cells: Vec<Cell>, others: &[Cell]) -> Result<Vec<Cell>, AllocError> {
    let mut all = cells;
    put_all(&mut all, others)?;
    Ok(all)
}

// Puts what each of some cells shares with another.
fn put_meetings(cells: &mut Vec<Cell>, met: &[Cell], other: &Cell) -> Result<(), AllocError> {
    for cell in met {
        put_meeting(cells, cell, other)?;
    }
    Ok(())
}

// Puts a cell that takes away.
fn put_taken(cells: &mut Vec<Cell>, cell: &Cell) -> Result<(), AllocError> {
    cells.push(Cell {
        adds: false,
        ..*cell
    })?;
    Ok(())
}

fn meeting(alloc: Global, cells: &[Cell], others: &[Cell]) -> Result<Vec<Cell>, AllocError> {
    let mut shared = Vec::new(alloc);
    for other in others {
        if other.adds {
            put_meetings(&mut shared, cells, other)?;
        } else {
            put_taken(&mut shared, other)?;
        }
    }
    Ok(shared)
}

fn difference(alloc: Global, cells: &[Cell], others: &[Cell]) -> Result<Vec<Cell>, AllocError> {
    let mut left = Vec::new(alloc);
    put_all(&mut left, cells)?;
    for other in others {
        if other.adds {
            put_taken(&mut left, other)?;
        } else {
            put_meetings(&mut left, cells, other)?;
        }
    }
    Ok(left)
}

// Puts a cell, cut at midnight if it ends later.
fn put_cut(alloc: Global, cells: &mut Vec<Cell>, cell: &Cell) -> Result<(), AllocError> {
    if cell.end <= DAY_MINUTES {
        cells.push(*cell)?;
        return Ok(());
    }
    cells.push(Cell {
        end: DAY_MINUTES,
        ..*cell
    })?;
    let mut rest = Vec::new(alloc);
    rest.push(Cell {
        begin: 0,
        end: cell.end - DAY_MINUTES,
        ..*cell
    })?;
    let next = later(alloc, rest.as_slice())?;
    put_all(cells, next.as_slice())
}

fn cut(alloc: Global, cells: Vec<Cell>, midnight: Midnight) -> Result<Vec<Cell>, AllocError> {
    if midnight == Midnight::Kept {
        return Ok(cells);
    }
    let mut pieces = Vec::new(alloc);
    for cell in cells.as_slice() {
        put_cut(alloc, &mut pieces, cell)?;
    }
    Ok(pieces)
}

// The cells of two joined expressions.
fn combined(
    alloc: Global,
    op: Op,
    left: Vec<Cell>,
    right: Vec<Cell>,
    midnight: Midnight,
) -> Result<Vec<Cell>, AllocError> {
    match op {
        Op::Union => {
            if takes_away(right.as_slice()) {
                joined(right, left.as_slice())
            } else {
                joined(left, right.as_slice())
            }
        }
        Op::Meet => {
            let left = cut(alloc, left, midnight)?;
            let right = cut(alloc, right, midnight)?;
            if takes_away(left.as_slice()) {
                meeting(alloc, right.as_slice(), left.as_slice())
            } else {
                meeting(alloc, left.as_slice(), right.as_slice())
            }
        }
        Op::Minus => difference(alloc, left.as_slice(), right.as_slice()),
    }
}

/// Cells that may have the seconds of an expression.
pub fn cells_of(alloc: Global, expr: &Expr, midnight: Midnight) -> Result<Vec<Cell>, AllocError> {
    match expr {
        Expr::Leaf(basic) => cells_of_basic(alloc, basic),
        Expr::Join(op, left, right) => {
            let left = cells_of(alloc, left, midnight)?;
            let right = cells_of(alloc, right, midnight)?;
            if left.len() > MOST_CELLS || right.len() > MOST_CELLS {
                return Ok(Vec::new(alloc));
            }
            combined(alloc, *op, left, right, midnight)
        }
    }
}

//! What basic domains with a date were fixed to be where the expression had no second, so that it is not gone over again.

ghost use Rattle.std.specs.Prelude.{◌↔◌, ℤ, IfOk, IfSome, IsTrue};
ghost use Rattle.gtd_eval.specs.Membership.{InDomain};
ghost use Rattle.gtd_difference.specs.Dates.{InFixedDate};
ghost use Rattle.gtd_difference.specs.Memory.{AreNever, InForm, IsNever};
ghost use Rattle.gtd_difference.specs.Pieces.{Fixed, InFixed};

use crate::basic_state::BasicState;
use crate::basics::single;
use crate::dated::DatedState;
use crate::states::ExprStates;
use gtd_core::{Domain, Expr, Op};
use std::alloc::{AllocError, Global};

// By which numbers a mark is made of what each basic domain is fixed to be.
const MARK_FACTOR: u64 = 0x9E37_79B9_7F4A_7C15;

/// An expression with fixed dates: what of it repeats, and whether all else holds.
#[derive(Drop)]
pub(crate) enum Form {
    Repeats(Domain),
    Holds(bool),
    Join(Op, Box<(Form, Form)>),
}

/// Expressions with fixed dates that never have a second, each with its mark.
#[derive(Drop)]
pub(crate) enum Memory {
    Empty,
    Seen(Box<(u64, Form, Memory)>),
}

// A number that most expressions that differ do not share, by the numbers of what comes before.
fn mark_of(states: &ExprStates, before: u64) -> u64 {
    match states {
        ExprStates::Basic(state) => {
            let kind = if state.period.is_some() {
                2
            } else {
                u64::from(state.holds)
            };
            mixed(before, kind)
        }
        ExprStates::Dated(state) => {
            let kind = if state.is_wide {
                2
            } else {
                u64::from(state.own.holds)
            };
            mixed(before, kind)
        }
        ExprStates::Join(_, both) => {
            let (left, right) = &**both;
            let first = mark_of(left, before);
            mark_of(right, first)
        }
    }
}

fn mixed(before: u64, next: u64) -> u64 {
    before.wrapping_add(next).wrapping_mul(MARK_FACTOR) ^ (before >> 29)
}

// Whether a domain is the one of the form.
fn is_repeated(domain: &Domain, form: &Form) -> bool
    ensures same { IsTrue result → (t : ℤ) → InForm form.now t ↔ InDomain domain.now t }
{
    match form {
        Form::Repeats(other) => domain == other,
        Form::Holds(_) => false,
        Form::Join(..) => false,
    }
}

// Whether the form has all seconds, if that is asked, or else none.
fn is_held(holds: bool, form: &Form) -> bool
    ensures same { IsTrue result → (t : ℤ) → InForm form.now t ↔ IsTrue holds }
{
    match form {
        Form::Repeats(_) => false,
        Form::Holds(other) => holds == *other,
        Form::Join(..) => false,
    }
}

// Whether an expression with fixed dates has the form.
fn has_form(states: &ExprStates, form: &Form) -> bool
    ensures same { IsTrue result → (t : ℤ) → InForm form.now t ↔ InFixed states.now t }
{
    match states {
        ExprStates::Basic(state) => match state.period {
            Some(_) => is_repeated(&state.domain, form),
            None => is_held(state.holds, form),
        },
        ExprStates::Dated(state) => {
            if state.is_wide {
                is_repeated(&state.wide.domain, form)
            } else {
                is_held(state.own.holds, form)
            }
        }
        ExprStates::Join(op, both) => match form {
            Form::Repeats(_) => false,
            Form::Holds(_) => false,
            Form::Join(other, forms) => {
                let (left, right) = &**both;
                let (left_form, right_form) = &**forms;
                *op == *other && has_form(left, left_form) && has_form(right, right_form)
            }
        },
    }
}

// The form of what repeats. `None` is not answered for a basic domain.
fn repeated(domain: &Domain) -> Option<Form>
    ensures same { IfSome result (λ form. (t : ℤ) → InForm form t ↔ InDomain domain.now t) }
{
    match domain.expr() {
        Expr::Leaf(basic) => Some(Form::Repeats(single(basic))),
        Expr::Join(..) => None,
    }
}

// The form of a basic domain as it is fixed.
fn form_of_basic(state: &BasicState) -> Option<Form>
    ensures same { IfSome result (λ form. (t : ℤ)
        → InForm form t ↔ Fixed state.now.period state.now.holds (InDomain state.now.domain t)) }
{
    match state.period {
        Some(_) => repeated(&state.domain),
        None => Some(Form::Holds(state.holds)),
    }
}

// The form of a basic domain with a date as it is fixed.
fn form_of_dated(state: &DatedState) -> Option<Form>
    ensures same { IfSome result (λ form. (t : ℤ) → InForm form t ↔ InFixedDate state.now t) }
{
    if state.is_wide {
        repeated(&state.wide.domain)
    } else {
        Some(Form::Holds(state.own.holds))
    }
}

// The form of an expression with fixed dates.
fn form_of(alloc: Global, states: &ExprStates) -> Result<Option<Form>, AllocError>
    ensures same { IfOk result (λ found. IfSome found (λ form. (t : ℤ) → InForm form t ↔ InFixed states.now t)) }
{
    match states {
        ExprStates::Basic(state) => Ok(form_of_basic(state)),
        ExprStates::Dated(state) => Ok(form_of_dated(state)),
        ExprStates::Join(op, both) => {
            let (left, right) = &**both;
            let Some(first) = form_of(alloc, left)? else {
                return Ok(None);
            };
            let Some(second) = form_of(alloc, right)? else {
                return Ok(None);
            };
            let forms = Box::new(alloc, (first, second))?;
            Ok(Some(Form::Join(*op, forms)))
        }
    }
}

// Whether one of the forms, which has this mark, is that of the expression.
fn is_among(memory: &Memory, mark: u64, states: &ExprStates) -> bool
    requires never { AreNever memory.now }
    ensures never { IsTrue result → IsNever (InFixed states.now) }
{
    match memory {
        Memory::Empty => false,
        Memory::Seen(entry) => {
            let (own, form, rest) = &**entry;
            if *own == mark && has_form(states, form) {
                return true;
            }
            is_among(rest, mark, states)
        }
    }
}

impl Memory {
    ghost use Rattle.std.specs.Prelude.{IfOk, IsTrue};
    ghost use Rattle.gtd_difference.specs.Memory.{AreNever, IsNever};
    ghost use Rattle.gtd_difference.specs.Pieces.{InFixed};

    /// Whether an expression with fixed dates was found to have no second ever.
    pub(crate) fn has(&self, states: &ExprStates) -> bool
        requires never { AreNever self.now }
        ensures never { IsTrue result → IsNever (InFixed states.now) }
    {
        is_among(self, mark_of(states, 0), states)
    }

    /// The expressions, and one more that has no second ever.
    pub(crate) fn with(self, alloc: Global, states: &ExprStates) -> Result<Memory, AllocError>
        requires never { AreNever self }
        requires more { IsNever (InFixed states.now) }
        ensures never { IfOk result AreNever }
    {
        let mark = mark_of(states, 0);
        match form_of(alloc, states)? {
            Some(form) => {
                let entry = Box::new(alloc, (mark, form, self))?;
                Ok(Memory::Seen(entry))
            }
            None => Ok(self),
        }
    }
}

//! What each item and sign does to the builder's state.

ghost use Rattle.std.specs.Prelude.{◌≡◌, ◌≤◌, ℕ, List, IfOk, IfSome, OnOk, MatchOption, Some, None, [], ◌∷◌, length};
ghost use Rattle.gtd_core.specs.Ranges.{no_parts};
ghost use Rattle.gtd_core.specs.Trees.{tree_of};
ghost use Rattle.gtd_text.specs.PendingParts.{sum_of, product_of};
ghost use Rattle.gtd_text.specs.Building as building;
ghost use Rattle.gtd_text.specs.BuilderStates.{opened, pending_of, stage_of};
ghost use Rattle.gtd_text.specs.ToCome.{IsBuildable, IsNextFrom, IsThere};
ghost use Rattle.gtd_text.specs.Reached.{Reached};

use crate::builder::basic::basic_at;
use crate::builder::join::{times, total};
use crate::builder::state::{Pending, State};
use crate::token::{Token, TokenKind};
use gtd_core::{Expr, Op};
use std::alloc::{AllocError, Global};

/// The state after one more sign or basic domain, and the place where it ends; or `None`, if it does not fit.
pub fn next_state(
    alloc: Global,
    outer: &mut Vec<Pending>,
    state: State,
    text: &[u8],
    token: Token,
) -> Result<Option<(State, usize)>, AllocError>
    requires { token.to ≤ length text.now }
    ensures found { (place : ℕ) → Reached text.now place (stage_of (opened outer.old.items) state)
        → IsNextFrom text.now place (Some token) → IsThere text.now place token
        → IfOk result (λ found. MatchOption found (IsBuildable text.now → ⊥) (λ after.
        Reached text.now after.1 (stage_of (opened outer.new.items) after.0))) }
    ensures past { IfOk result (λ found. IfSome found (λ after. token.to ≤ after.1)) }
    ensures inside { IfOk result (λ found. IfSome found (λ after. after.1 ≤ length text.now)) }
{
    match state {
        State::Expecting(pending) => match token.kind {
            TokenKind::OpenBracket => {
                push_pending(outer, pending)?;
                Ok(Some((State::nothing(), token.to)))
            }
            TokenKind::OpenParenthesis => after_basic(alloc, pending, text, token.to),
            _ => Ok(None),
        },
        State::AfterItem(sum, term) => match after_item(alloc, outer, sum, term, token.kind)? {
            Some(after) => Ok(Some((after, token.to))),
            None => Ok(None),
        },
    }
}

impl State {
    /// Nothing comes before the item, in the brackets that are open.
    pub fn nothing() -> State
        ensures { (outer : List building.Pending) → stage_of outer result ≡ building.Expecting outer None None }
    {
        State::Expecting(Pending {
            sum: None,
            product: None,
        })
    }
}

// A basic domain ends the item that was expected.
fn after_basic(
    alloc: Global,
    pending: Pending,
    text: &[u8],
    place: usize,
) -> Result<Option<(State, usize)>, AllocError>
    requires { place ≤ length text.now }
    ensures found { (outer : List building.Pending) →
        Reached text.now place (building.InStart outer (sum_of pending.sum) (product_of pending.product) [] no_parts)
        → IfOk result (λ found. MatchOption found (IsBuildable text.now → ⊥) (λ after.
        Reached text.now after.1 (stage_of outer after.0))) }
    ensures past { IfOk result (λ found. IfSome found (λ after. place ≤ after.1)) }
    ensures inside { IfOk result (λ found. IfSome found (λ after. after.1 ≤ length text.now)) }
{
    let Pending { sum, product } = pending;
    match basic_at(text, place) {
        Some((basic, to)) => {
            let term = times(alloc, product, Expr::Leaf(basic))?;
            Ok(Some((State::AfterItem(sum, term), to)))
        }
        None => Ok(None),
    }
}

// An operator, or the end of brackets.
fn after_item(
    alloc: Global,
    outer: &mut Vec<Pending>,
    sum: Option<(Op, Expr)>,
    term: Expr,
    kind: TokenKind,
) -> Result<Option<State>, AllocError>
    ensures { IfOk result (λ found. MatchOption found
        (building.step (building.AfterItem (opened outer.old.items) (sum_of sum) (tree_of term)) kind ≡ None)
        (λ after. building.step (building.AfterItem (opened outer.old.items) (sum_of sum) (tree_of term)) kind
        ≡ Some (stage_of (opened outer.new.items) after))) }
{
    match kind {
        TokenKind::Star => {
            let product = Some(term);
            Ok(Some(State::Expecting(Pending { sum, product })))
        }
        TokenKind::Plus => Ok(Some(next_term(alloc, Op::Union, sum, term)?)),
        TokenKind::Minus => Ok(Some(next_term(alloc, Op::Minus, sum, term)?)),
        TokenKind::CloseBracket => {
            let whole = total(alloc, sum, term)?;
            match pop_pending(outer) {
                Some(Pending { sum, product }) => {
                    Ok(Some(State::AfterItem(sum, times(alloc, product, whole)?)))
                }
                None => Ok(None),
            }
        }
        _ => Ok(None),
    }
}

fn next_term(
    alloc: Global,
    op: Op,
    sum: Option<(Op, Expr)>,
    term: Expr,
) -> Result<State, AllocError>
    ensures { IfOk result (λ state. (outer : List building.Pending) →
        stage_of outer state
        ≡ building.Expecting outer (Some (op, building.total (sum_of sum) (tree_of term))) None) }
{
    let left = total(alloc, sum, term)?;
    Ok(State::Expecting(Pending {
        sum: Some((op, left)),
        product: None,
    }))
}

#[tactic(auto, using(crate::proofs::StepLemmas::opened_push))]
fn push_pending(outer: &mut Vec<Pending>, pending: Pending) -> Result<(), AllocError>
    ensures { OnOk result (opened outer.new.items ≡ pending_of pending ∷ opened outer.old.items) }
{
    outer.push(pending)?;
    Ok(())
}

/// What comes before the innermost open bracket, which closes.
#[tactic(auto, using(crate::proofs::StepLemmas::opened_push, crate::proofs::StepLemmas::opened_nil))]
pub fn pop_pending(outer: &mut Vec<Pending>) -> Option<Pending>
    ensures { MatchOption result (opened outer.old.items ≡ [])
        (λ pending. opened outer.old.items ≡ pending_of pending ∷ opened outer.new.items) }
{
    outer.pop()
}

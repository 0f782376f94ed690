//! The cursor of a domain, whose tree stands on the runs of basic domains.

use crate::leaf::Leaf;
use crate::taker::SpanTaker;
use crate::tree::SweepTree;
use gtd_core::{Expr, Horizon, Sec, Span};
use gtd_recur::Runs;
use gtd_spans::{Bounds, SpanSource};
use std::alloc::{AllocError, Global};

/// A source of the seconds of a domain in a horizon, of those of any of several cursors, or of those that a cursor leaves
/// out. A node of its tree is at most one fixed span, the runs of a basic domain in a box, or a sweep over one or two boxed
/// nodes: none holds a collection. Once made, it takes no memory.
pub type Cursor = SweepTree<Runs>;

impl Leaf for Runs {
    ghost use Rattle.gtd_recur.specs.RunsToCome.{runs_basic, runs_horizon, runs_to_come, runs_ticks, runs_whole};
    ghost use Rattle.gtd_recur.specs.Work.{work_of};
    ghost use Rattle.gtd_recur.specs.facts.StretchFacts.{runs_between-normal};
    ghost use Rattle.gtd_eval.specs.Leaves.{runs_size};
    ghost use Rattle.gtd_eval.specs.facts.RunsFacts.{runs-small, runs-keep-none, runs-keep-no-more, runs-tell-none, runs-have-none};

    ghost leaf_list = { runs_to_come };

    ghost leaf_whole = { runs_whole };

    ghost leaf_size = { runs_size };

    ghost leaf_ticks = { runs_ticks };

    ghost leaf_kept = { λ runs. 0 };

    ghost leaf_told = { λ runs. 0 };

    fn of_expr(_alloc: Global, expr: &Expr, horizon: Horizon) -> Result<Option<Runs>, AllocError> {
        match expr {
            Expr::Leaf(basic) => Ok(Some(Runs::new(*basic, horizon))),
            Expr::Join(..) => Ok(None),
        }
    }

    #[inline(always)]
    fn next_span(&mut self) -> Option<Span> {
        self.next()
    }

    // Nothing is left out: the runs go on one by one.
    #[inline(always)]
    fn skip_to(&mut self, _second: Sec) {}

    // None is handed on: runs are found one by one.
    #[inline(always)]
    fn each_within<E, T: SpanTaker<E>>(
        &mut self,
        _bounds: Bounds,
        _into: &mut E,
        _taker: &mut T,
    ) -> bool {
        true
    }

    fn begin_again(&mut self) {
        Runs::begin_again(self);
    }

    fn nodes(&self) -> u64 {
        1
    }

    fn ticks(&self) -> u64 {
        Runs::ticks(self)
    }

    fn kept(&self) -> u64 {
        0
    }

    ghost is_normal = { λ runs. runs_between-normal _ _ _ _ };

    ghost is_whole_normal = { λ runs. runs_between-normal _ _ _ _ };

    ghost is_small = { runs-small };

    ghost keeps_few = { runs-keep-none };

    ghost keeps_by_nodes = { runs-keep-no-more };

    ghost tells_few = { runs-tell-none };

    ghost has_few = { runs-have-none };
}

//! By how much a budget is too small on a way out.
ghost use Rattle.std.specs.Prelude.{◌≡◌, ◌+◌, ◌-◌, ◌≤◌, length};
ghost use Rattle.abs_state.specs.Branches.{table_on};
ghost use Rattle.abs_state.specs.Edges.{next_total, own_total, products_of};
ghost use Rattle.check_reasons.specs.Gaps.{gap_of, least_more as least_more_of, told_lack};
ghost use Rattle.check_reasons.specs.declared.gaps.TheConstants.{MOST_LACK};

use abs_state::{Edge, least_left, most_asked};
use cert_note::Budget;
use linear_facts::{Atoms, Multiple, is_at_least};
use std::alloc::Allocator;
use std::fmt;

/// The largest lack in a reason. A larger one counts as this one.
pub const MOST_LACK: u64 = 1 << 63;

/// What the end of a run asks for.
pub(crate) const NO_BUDGET: Budget = Budget {
    constant: 0,
    factor: 0,
    register: 0,
    second_factor: 0,
    second_register: 0,
};

/// A budget that is too small on a way out.
#[derive(Clone, Copy, PartialEq, Eq)]
pub struct Gap {
    /// What the budget of the block left comes to at least.
    pub left: u128,
    /// What was taken and the budget of the block entered come to at most.
    pub asked: u128,
    /// How much larger the budget of the block left would have to be, at most [`MOST_LACK`].
    pub lack: u64,
}

/// How much more than `own` has to be added to two products for a number with two others to be paid, at most `most`.
#[tactic(auto, unfolding(crate::specs::Gaps::least_more))]
fn least_more(
    own: u32,
    own_of: &[Multiple],
    next: u64,
    next_of: &[Multiple],
    atoms: &Atoms,
    most: u64,
) -> u64
    requires own { length own_of.now ≡ 2 }
    requires next { length next_of.now ≡ 2 }
    requires most { most ≤ MOST_LACK }
    ensures { result ≡ least_more_of atoms.now own own_of.now next next_of.now most }
{
    let mut low = 0;
    let mut high = most;
    'search: while low < high {
        let middle = low + (high - low) / 2;
        if is_at_least(u64::from(own) + middle, own_of, next, next_of, atoms) {
            high = middle;
        } else {
            low = middle + 1;
        }
    }
    low
}

/// What the budget of the block left lacks on a way, where so much is asked for at most beyond what it comes to at least.
fn lack_on<A: Allocator>(way: &Edge<'_, A>, own: Budget, next: Budget, most: u64) -> u64
    requires { most ≤ MOST_LACK }
    ensures { result ≡ least_more_of (table_on way.now) own.constant
        (products_of (own_total way.now own)) (way.now.state.words + next.constant)
        (products_of (next_total way.now next)) most }
{
    let form = way.form_on(next.register);
    let second_form = way.form_on(next.second_register);
    let own_of = [
        Multiple {
            factor: own.factor,
            form: way.paid().form,
        },
        Multiple {
            factor: own.second_factor,
            form: way.second_paid().form,
        },
    ];
    let next_of = [
        Multiple {
            factor: next.factor,
            form: &form,
        },
        Multiple {
            factor: next.second_factor,
            form: &second_form,
        },
    ];
    let asked = u64::from(way.words()) + u64::from(next.constant);
    least_more(
        own.constant,
        own_of.as_slice(),
        asked,
        next_of.as_slice(),
        &way.table(),
        most,
    )
}

/// How far what is asked of a budget is above what it comes to, at most [`MOST_LACK`].
fn apart(left: u128, asked: u128) -> u64
    ensures value { result ≡ told_lack (asked - left) }
    ensures most { result ≤ MOST_LACK }
{
    let apart = asked.saturating_sub(left).min(u128::from(MOST_LACK));
    apart as u64
}

/// A budget that is too small on a way: what it comes to, what is asked of it, and what it lacks.
#[tactic(auto, unfolding(crate::specs::Gaps::gap_of))]
pub(crate) fn gap_on<A: Allocator>(way: &Edge<'_, A>, own: Budget, next: Budget) -> Gap
    ensures { result ≡ gap_of way.now own next }
{
    let left = least_left(way, own);
    let asked = most_asked(way, next);
    let most = apart(left, asked);
    Gap {
        left,
        asked,
        lack: lack_on(way, own, next, most),
    }
}

/// A budget that is too small for these words and what is behind them.
#[derive(Clone, Copy)]
struct GapLines<'a>(Gap, &'a str);

impl fmt::Display for GapLines<'_> {
    ghost use Rattle.std.specs.Prelude.{Some};
    ghost use Rattle.check_reasons.specs.Gaps.{gap_lines};

    ghost output = { λ lines. Some (gap_lines lines.0 lines.1.now) };

    #[tactic(auto, unfolding(crate::specs::Gaps::gap_lines))]
    fn fmt<W: fmt::Write>(&self, f: &mut fmt::Formatter<W>) -> fmt::Result {
        let GapLines(gap, behind) = *self;
        let Gap { left, asked, lack } = gap;
        writeln!(f, "  known: the budget left is at least {left}")?;
        writeln!(f, "  known: these words and {behind} are at most {asked}")?;
        writeln!(f, "  lacking, by the difference of the sums: {lack}")
    }
}

/// A budget that is too small on a way to a block.
impl fmt::Display for Gap {
    ghost use Rattle.std.specs.Prelude.{Some};
    ghost use Rattle.check_reasons.specs.Gaps.{gap_text};

    ghost output = { λ gap. Some (gap_text gap) };

    fn fmt<W: fmt::Write>(&self, f: &mut fmt::Formatter<W>) -> fmt::Result {
        let lines = GapLines(*self, "the budget entered");
        write!(f, "{lines}")
    }
}

/// A budget that is too small on a way to the end of the run.
#[derive(Clone, Copy)]
pub(crate) struct EndGap(pub(crate) Gap);

impl fmt::Display for EndGap {
    ghost use Rattle.std.specs.Prelude.{Some};
    ghost use Rattle.check_reasons.specs.Gaps.{end_text};

    ghost output = { λ end. Some (end_text end.0) };

    fn fmt<W: fmt::Write>(&self, f: &mut fmt::Formatter<W>) -> fmt::Result {
        let lines = GapLines(self.0, "0 at the end of the run");
        write!(f, "{lines}")
    }
}

//! What an edge has to show of the block that it leads to.
ghost use Rattle.std.specs.Prelude.{◌≡◌, ◌+◌, ◌*◌, ◌<◌, ◌≤◌, ◌^◌, ◌==◌, false, length, map};
ghost use Rattle.std.specs.List.{list_all, list_any};
ghost use Rattle.std.specs.Option.{option_map, option_map_or};
ghost use Rattle.linear_facts.specs.Differences.{is_not_less_of};
ghost use Rattle.linear_facts.specs.Forms.{form_at, scaled, substituted};
ghost use Rattle.abs_domain.specs.Starts.{equality_form, form_term};
ghost use Rattle.abs_state.specs.Branches.{table_on, value_on};
ghost use Rattle.abs_state.specs.Edges.{covers as covers_of, implied_by};
ghost use Rattle.abs_state.specs.Edges.{implies_block as implies_block_of};
ghost use Rattle.abs_state.specs.Edges.{implies_end as implies_end_of};
ghost use Rattle.abs_state.specs.Edges.{is_equality_shown as is_equality_shown_of};
ghost use Rattle.abs_state.specs.Edges.{is_interval_shown as is_interval_shown_of};
ghost use Rattle.abs_state.specs.Edges.{is_order_shown as is_order_shown_of};
ghost use Rattle.abs_state.specs.Edges.{tells_order as tells_order_of};
ghost use Rattle.abs_state.specs.Edges.{is_paid as is_paid_of, is_paid_for as is_paid_for_of};
ghost use Rattle.abs_state.specs.Edges.{is_sum_shown as is_sum_shown_of, least_of, most_of};
ghost use Rattle.abs_state.specs.Edges.{next_total, own_total, pays as pays_of};
ghost use Rattle.abs_state.specs.Edges.{is_vector_shown as is_vector_shown_of};
ghost use Rattle.abs_state.specs.Edges.{is_vtype_shown as is_vtype_shown_of};
ghost use Rattle.abs_state.specs.Edges.{leads_to as leads_to_of, says as says_of};
ghost use Rattle.abs_state.specs.Edges.{shown_or as shown_or_of};

use crate::branches::{Edge, Said};
use abs_domain::{Value, Why};
use cert_note::{Block, Budget, Equality, EqualityTerm, OrderFact, RegisterFact, VectorFact};
use linear_facts::{Atoms, Form, Multiple, Range, is_at_least, is_not_less};
use rv_decode::Condition;
use scalar_core::EXIT;
use std::alloc::Allocator;
use std::marker::Model;

/// What the end of a run asks for.
const NO_BUDGET: Budget = Budget {
    constant: 0,
    factor: 0,
    register: 0,
    second_factor: 0,
    second_register: 0,
};

/// The multiple of the form of a term's register, or of its atom where it is none of a register's.
fn replaced(term: EqualityTerm, forms: &[Form<8>]) -> Form<8>
    ensures product { result ≡ scaled term.coefficient (form_at forms.now term.atom) }
    ensures room { length result.terms ≤ 8 }
{
    match forms.get(usize::from(term.atom)) {
        Some(form) => form.multiple(term.coefficient),
        None => Form::<8>::atom(u16::from(term.atom)).multiple(term.coefficient),
    }
}

/// The constant and at most eight terms, with registers and vl replaced by their forms. Eight forms of eight terms have room.
#[tactic(auto, unfolding(linear_facts::specs::Forms::substituted))]
fn current_sum(constant: u32, terms: &[EqualityTerm], forms: &[Form<8>]) -> Form<64>
    requires { length terms.now ≤ 8 }
    ensures { result ≡ substituted forms.now record {
      constant = constant;
      terms = map form_term terms.now;
    } }
{
    let mut sum = Form::number(constant);
    for term in terms {
        sum = sum.add(&replaced(*term, forms)).unwrap();
    }
    sum
}

/// Whether the interval of the fact is shown.
#[tactic(auto, unfolding(crate::specs::Edges::is_interval_shown))]
pub fn is_interval_shown<A: Allocator>(edge: &Edge<'_, A>, fact: &RegisterFact) -> bool
    ensures { result ≡ is_interval_shown_of edge.now fact.now }
{
    let range = edge.range_on(fact.number);
    fact.low <= range.lo && range.hi <= fact.high
}

/// The sum of an equality, with registers and vl as they are now.
pub fn sum_on<A: Allocator>(edge: &Edge<'_, A>, equality: &Equality) -> Form<64>
    ensures { result ≡ substituted edge.now.state.numbers.forms (equality_form equality.now) }
{
    let state = edge.state;
    let terms = equality.terms.as_slice();
    current_sum(equality.constant, terms, state.numbers.forms())
}

/// Whether the sum, with registers and vl as they are now, is the number's form.
fn is_sum_shown<A: Allocator>(edge: &Edge<'_, A>, number: u8, equality: &Equality) -> bool
    ensures { result ≡ is_sum_shown_of edge.now number equality.now }
{
    sum_on(edge, equality).same(&edge.form_on(number))
}

/// Whether the equality of the fact is shown, if it has one.
#[tactic(auto, unfolding(crate::specs::Edges::is_equality_shown))]
pub fn is_equality_shown<A: Allocator>(edge: &Edge<'_, A>, fact: &RegisterFact) -> bool
    ensures { result ≡ is_equality_shown_of edge.now fact.now }
{
    match &fact.equality {
        Some(equality) => is_sum_shown(edge, fact.number, equality),
        None => true,
    }
}

/// Whether all intervals are shown.
fn are_intervals_shown<A: Allocator>(edge: &Edge<'_, A>, facts: &[RegisterFact]) -> bool
    ensures { result ≡ list_all (is_interval_shown_of edge.now) facts.now }
{
    facts.iter().all(|fact| is_interval_shown(edge, fact))
}

/// Whether all equalities are shown.
fn are_equalities_shown<A: Allocator>(edge: &Edge<'_, A>, facts: &[RegisterFact]) -> bool
    ensures { result ≡ list_all (is_equality_shown_of edge.now) facts.now }
{
    facts.iter().all(|fact| is_equality_shown(edge, fact))
}

/// Whether a branch says that the lesser register's number is at most the greater one's, both without sign.
#[tactic(auto, unfolding(crate::specs::Edges::says_order))]
fn tells_order(order: OrderFact, said: Said) -> bool
    ensures { result ≡ tells_order_of order said }
{
    let left = said.rs1.number();
    let right = said.rs2.number();
    let in_order = left == order.lesser && right == order.greater;
    let turned = right == order.lesser && left == order.greater;
    match (said.condition, said.taken) {
        (Condition::Ltu, true) | (Condition::Geu, false) => in_order,
        (Condition::Ltu, false) | (Condition::Geu, true) => turned,
        (Condition::Eq, true) | (Condition::Ne, false) => in_order || turned,
        (Condition::Eq, false) | (Condition::Ne, true) => false,
        (Condition::Lt, true) | (Condition::Lt, false) => false,
        (Condition::Ge, true) | (Condition::Ge, false) => false,
    }
}

/// Whether the branch that the edge belongs to, if there is one, says an order.
fn is_told<A: Allocator>(edge: &Edge<'_, A>, order: OrderFact) -> bool
    ensures { result ≡ option_map_or (tells_order_of order) edge.now.said false }
{
    match edge.said {
        Some(said) => tells_order(order, said),
        None => false,
    }
}

/// Whether the forms show an order: the greater number is not less than the lesser one.
fn is_order_by_forms<A: Allocator>(edge: &Edge<'_, A>, order: OrderFact) -> bool
    ensures { result ≡ is_not_less_of (table_on edge.now) (value_on edge.now order.greater).form
        (value_on edge.now order.lesser).form }
{
    is_not_less(
        &edge.form_on(order.greater),
        &edge.form_on(order.lesser),
        &edge.table(),
    )
}

/// Whether an order is shown: by the ranges, by the difference of the forms, or by the branch.
#[tactic(auto, unfolding(crate::specs::Edges::is_order_shown))]
pub fn is_order_shown<A: Allocator>(edge: &Edge<'_, A>, order: OrderFact) -> bool
    ensures { result ≡ is_order_shown_of edge.now order }
{
    let lesser = edge.range_on(order.lesser);
    let greater = edge.range_on(order.greater);
    lesser.hi <= greater.lo || is_order_by_forms(edge, order) || is_told(edge, order)
}

/// Whether all orders are shown.
fn are_orders_shown<A: Allocator>(edge: &Edge<'_, A>, orders: &[OrderFact]) -> bool
    ensures { result ≡ list_all (is_order_shown_of edge.now) orders.now }
{
    orders.iter().all(|order| is_order_shown(edge, *order))
}

/// Whether a fact speaks of as many elements as another one, where vl lies in this range. A count of 0 stands for vl.
#[tactic(auto, unfolding(crate::specs::Edges::covers))]
fn covers(vl: Range, known: u16, wanted: u16) -> bool
    ensures { result ≡ covers_of vl known wanted }
{
    let known = u32::from(known);
    let wanted = u32::from(wanted);
    if known == 0 {
        wanted == 0 || wanted <= vl.lo
    } else if wanted == 0 {
        vl.hi <= known
    } else {
        wanted <= known
    }
}

/// Whether a fact says what another one does.
#[tactic(auto, unfolding(crate::specs::Edges::says))]
fn says(vl: Range, wanted: VectorFact, known: VectorFact) -> bool
    ensures { result ≡ says_of vl wanted known }
{
    known.register == wanted.register
        && known.width == wanted.width
        && known.registers == wanted.registers
        && wanted.low <= known.low
        && known.high <= wanted.high
        && covers(vl, known.count, wanted.count)
}

/// Whether one of the known facts says what a fact does.
fn is_said(vl: Range, wanted: VectorFact, groups: &[VectorFact]) -> bool
    ensures { result ≡ list_any (says_of vl wanted) groups.now }
{
    groups.iter().any(|known| says(vl, wanted, *known))
}

/// Whether a fact on vector registers is shown.
#[tactic(auto, unfolding(crate::specs::Edges::is_vector_shown))]
pub fn is_vector_shown<A: Allocator>(edge: &Edge<'_, A>, wanted: VectorFact) -> bool
    ensures { result ≡ is_vector_shown_of edge.now wanted }
{
    let state = edge.state;
    is_said(edge.range_on(32), wanted, state.groups.as_slice())
}

/// Whether all facts on vector registers are shown.
fn are_vectors_shown<A: Allocator>(edge: &Edge<'_, A>, facts: &[VectorFact]) -> bool
    ensures { result ≡ list_all (is_vector_shown_of edge.now) facts.now }
{
    for fact in facts {
        if !is_vector_shown(edge, *fact) {
            return false;
        }
    }
    true
}

/// A number, and multiples of two others.
#[derive(Drop)]
struct Total<'a> {
    constant: u64,
    factor: u32,
    number: Value<'a>,
    second_factor: u32,
    second_number: Value<'a>,
}

impl<'a> Model for Total<'a> {
    ghost use Rattle.abs_state.specs.Edges.{Total};

    ghost Value = { Total };

    ghost view = { λ t. record {
      constant = t.constant;
      factor = t.factor;
      number = t.number;
      second_factor = t.second_factor;
      second_number = t.second_number;
    } };
}

/// A factor times a number.
fn times(factor: u32, number: u32) -> u128
    ensures value { result ≡ factor * number }
    ensures small { result < 2 ^ 64 }
{
    u128::from(factor) * u128::from(number)
}

impl Total<'_> {
    /// What it comes to where both numbers are at the lower ends of their ranges.
    fn least(&self) -> u128
        ensures { result ≡ least_of self.now }
    {
        u128::from(self.constant)
            + times(self.factor, self.number.range.lo)
            + times(self.second_factor, self.second_number.range.lo)
    }

    /// What it comes to where both numbers are at the upper ends of their ranges.
    fn most(&self) -> u128
        ensures { result ≡ most_of self.now }
    {
        u128::from(self.constant)
            + times(self.factor, self.number.range.hi)
            + times(self.second_factor, self.second_number.range.hi)
    }
}

/// What the budget of the block that the edge leaves came to at its start, at least.
pub fn least_left<A: Allocator>(edge: &Edge<'_, A>, own: Budget) -> u128
    ensures { result ≡ least_of (own_total edge.now own) }
{
    let state = edge.state;
    u128::from(own.constant)
        + times(own.factor, state.paid_range.lo)
        + times(own.second_factor, state.second_range.lo)
}

/// What was taken and another budget come to on the edge, at most.
pub fn most_asked<A: Allocator>(edge: &Edge<'_, A>, next: Budget) -> u128
    ensures { result ≡ most_of (next_total edge.now next) }
{
    let range = edge.range_on(next.register);
    let second = edge.range_on(next.second_register);
    u128::from(edge.words())
        + u128::from(next.constant)
        + times(next.factor, range.hi)
        + times(next.second_factor, second.hi)
}

/// Whether one total is at least the next one, by the ends of their ranges or by the difference of their forms.
#[tactic(auto, unfolding(crate::specs::Edges::is_paid))]
fn is_paid(atoms: &Atoms, own: &Total, next: &Total) -> bool
    ensures { result ≡ is_paid_of atoms.now own.now next.now }
{
    if next.most() <= own.least() {
        return true;
    }
    let more = [
        Multiple {
            factor: own.factor,
            form: own.number.form,
        },
        Multiple {
            factor: own.second_factor,
            form: own.second_number.form,
        },
    ];
    let less = [
        Multiple {
            factor: next.factor,
            form: next.number.form,
        },
        Multiple {
            factor: next.second_factor,
            form: next.second_number.form,
        },
    ];
    is_at_least(own.constant, &more, next.constant, &less, atoms)
}

/// Whether a block's budget pays for what was taken and for the next budget, if there is one.
#[tactic(auto, unfolding(crate::specs::Edges::pays))]
fn is_enough<A: Allocator>(edge: &Edge<'_, A>, own: Budget, next: Option<Budget>) -> bool
    ensures { result ≡ pays_of edge.now own next }
{
    let state = edge.state;
    let next = next.unwrap_or(NO_BUDGET);
    let form = edge.form_on(next.register);
    let second_form = edge.form_on(next.second_register);
    let own = Total {
        constant: u64::from(own.constant),
        factor: own.factor,
        number: state.paid(),
        second_factor: own.second_factor,
        second_number: state.second_paid(),
    };
    let next = Total {
        constant: u64::from(state.words()) + u64::from(next.constant),
        factor: next.factor,
        number: Value {
            form: &form,
            range: edge.range_on(next.register),
        },
        second_factor: next.second_factor,
        second_number: Value {
            form: &second_form,
            range: edge.range_on(next.second_register),
        },
    };
    is_paid(&edge.table(), &own, &next)
}

/// Whether the budget of the block that the edge leaves pays for what was taken and for the next one, if there is one. On the
/// way from the entry nothing has been taken.
#[tactic(auto, unfolding(crate::specs::Edges::is_paid_for))]
fn is_paid_for<A: Allocator>(edge: &Edge<'_, A>, next: Option<Budget>) -> bool
    ensures { result ≡ is_paid_for_of edge.now edge.now.state.budget next }
{
    let state = edge.state;
    match state.budget {
        None => true,
        Some(own) => is_enough(edge, own, next),
    }
}

/// Whether the vector type that a block states, if it states one, is the one that is known.
#[tactic(auto, unfolding(crate::specs::Edges::is_vtype_shown))]
fn is_vtype_shown(known: Option<u8>, wanted: Option<u8>) -> bool
    ensures { result ≡ is_vtype_shown_of known wanted }
{
    match (known, wanted) {
        (_, None) => true,
        (None, Some(_)) => false,
        (Some(known), Some(wanted)) => known == wanted,
    }
}

/// Whether the edge is known to lead to this address.
fn leads_to<A: Allocator>(edge: &Edge<'_, A>, address: u32) -> bool
    ensures { result ≡ leads_to_of edge.now address }
{
    match edge.target {
        Some(target) => target == address,
        None => false,
    }
}

/// The answer where something has to be shown.
fn shown_or(why: Why, shown: bool) -> Result<(), Why>
    ensures { result ≡ shown_or_of why shown }
{
    if shown { Ok(()) } else { Err(why) }
}

/// The answer of an edge to a block.
#[tactic(auto, unfolding(crate::specs::Edges::implies_block))]
fn implies_block<A: Allocator>(edge: &Edge<'_, A>, block: &Block) -> Result<(), Why>
    ensures { result ≡ implies_block_of edge.now block.now }
{
    let state = edge.state;
    let registers = block.registers.as_slice();
    let orders = block.orders.as_slice();
    let vectors = block.vectors.as_slice();
    shown_or(Why::TargetNotABlock, leads_to(edge, block.start))?;
    shown_or(Why::VtypeUnknown, is_vtype_shown(state.vtype, block.vtype))?;
    shown_or(Why::IntervalNotProved, are_intervals_shown(edge, registers))?;
    shown_or(
        Why::EqualityNotProved,
        are_equalities_shown(edge, registers),
    )?;
    shown_or(Why::OrderNotProved, are_orders_shown(edge, orders))?;
    shown_or(Why::VectorFactNotProved, are_vectors_shown(edge, vectors))?;
    shown_or(Why::BudgetNotProved, is_paid_for(edge, Some(block.budget)))
}

/// The answer of an edge to the end of the run.
#[tactic(auto, unfolding(crate::specs::Edges::implies_end))]
fn implies_end<A: Allocator>(edge: &Edge<'_, A>) -> Result<(), Why>
    ensures { result ≡ implies_end_of edge.now }
{
    shown_or(Why::TargetNotABlock, leads_to(edge, EXIT))?;
    shown_or(Why::BudgetNotProved, is_paid_for(edge, None))
}

/// The answer of an edge to the block that it leads to, or to the end of the run where no block begins there.
#[tactic(auto, unfolding(crate::specs::Edges::implied_by))]
pub fn implies<A: Allocator>(edge: &Edge<'_, A>, block: Option<&Block>) -> Result<(), Why>
    ensures { result ≡ implied_by edge.now (option_map (λ b. b.now) block.entry) }
{
    match block {
        Some(block) => implies_block(edge, block),
        None => implies_end(edge),
    }
}

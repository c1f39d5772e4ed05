//! What of the block entered is not shown on a way to it.
ghost use Rattle.std.specs.Prelude.{◌≡◌, find, not};
ghost use Rattle.std.specs.Option.{option_map};
ghost use Rattle.abs_state.specs.Edges.{is_equality_shown as is_equality_shown_of};
ghost use Rattle.abs_state.specs.Edges.{is_interval_shown as is_interval_shown_of};
ghost use Rattle.abs_state.specs.Edges.{is_order_shown as is_order_shown_of};
ghost use Rattle.abs_state.specs.Edges.{is_vector_shown as is_vector_shown_of};
ghost use Rattle.check_reasons.specs.Unshown.{number_on as number_on_of};
ghost use Rattle.check_reasons.specs.Unshown.{told_sum as told_sum_of, unshown_of};
ghost use Rattle.check_reasons.specs.Unshown.{unshown_budget as unshown_budget_of};
ghost use Rattle.check_reasons.specs.Unshown.{unshown_equality as unshown_equality_of};
ghost use Rattle.check_reasons.specs.Unshown.{unshown_interval as unshown_interval_of};
ghost use Rattle.check_reasons.specs.Unshown.{unshown_order as unshown_order_of};
ghost use Rattle.check_reasons.specs.Unshown.{unshown_vector as unshown_vector_of};
ghost use Rattle.check_reasons.specs.Unshown.{unshown_vtype as unshown_vtype_of};

use crate::gaps::{Gap, gap_on};
use crate::groups::{Vector, group_at};
use crate::spans::{Span, VlLine};
use crate::sums::{Name, Sum, VL, sum_of, sum_stated};
use crate::vtypes::{HeldVtype, VtypeText, kept_vtype};
use abs_state::{
    Edge, is_equality_shown, is_interval_shown, is_order_shown, is_vector_shown, sum_on,
};
use block_checker::CheckError;
use cert_note::{Block, Budget, Equality, OrderFact, RegisterFact, VectorFact};
use linear_facts::Range;
use std::alloc::Allocator;
use std::fmt;

/// A register, or vl, and what is known of it on a way out: with what the branch says.
#[derive(Drop)]
pub struct Number {
    pub register: u8,
    pub range: Range,
    /// In numbers of where the block begins that the way leaves.
    pub sum: Sum<8>,
}

/// What of the block entered is not shown.
#[derive(Drop)]
pub enum Unshown {
    /// Nothing more than the error says.
    Untold,
    /// An interval.
    Interval {
        known: Number,
        wanted: Range,
    },
    /// The vector type.
    Vtype {
        known: HeldVtype,
        wanted: u8,
    },
    /// An equality of a register, or of vl: what is known of it in numbers of where the block begins that the way leaves. What
    /// is wanted is in numbers of the block entered, and again in those of the block that the way leaves.
    Equality {
        register: u8,
        known: Sum<8>,
        wanted: Sum<8>,
        there: Sum<64>,
    },
    /// The lesser register is at most the greater one.
    Order {
        lesser: Number,
        greater: Number,
    },
    /// A fact on vector registers, beside what is known of the group that begins there, and of vl.
    Vector {
        wanted: VectorFact,
        known: Option<VectorFact>,
        vl: Range,
    },
    /// A budget.
    Budget(Gap),
}

/// A register, or vl, with what is known of it on the way.
#[tactic(auto, unfolding(crate::specs::Unshown::number_on))]
fn number_on<A: Allocator>(way: &Edge<'_, A>, register: u8) -> Number
    ensures { result ≡ number_on_of way.now register }
{
    Number {
        register,
        range: way.range_on(register),
        sum: sum_of(way.form_on(register)),
    }
}

/// The first fact with an interval that is not shown.
fn first_interval<'a, A: Allocator>(
    way: &Edge<'_, A>,
    facts: &'a [RegisterFact],
) -> Option<&'a RegisterFact>
    ensures { option_map (λ fact. fact.now) result
        ≡ find (λ fact. not (is_interval_shown_of way.now fact)) facts.now }
{
    facts.iter().find(|fact| !is_interval_shown(way, fact))
}

/// The first interval that is not shown.
#[tactic(auto, unfolding(crate::specs::Unshown::unshown_interval))]
fn unshown_interval<A: Allocator>(way: &Edge<'_, A>, facts: &[RegisterFact]) -> Unshown
    ensures { result ≡ unshown_interval_of way.now facts.now }
{
    match first_interval(way, facts) {
        None => Unshown::Untold,
        Some(fact) => Unshown::Interval {
            known: number_on(way, fact.number),
            wanted: Range {
                lo: fact.low,
                hi: fact.high,
            },
        },
    }
}

/// The first fact with an equality that is not shown.
fn first_equality<'a, A: Allocator>(
    way: &Edge<'_, A>,
    facts: &'a [RegisterFact],
) -> Option<&'a RegisterFact>
    ensures { option_map (λ fact. fact.now) result
        ≡ find (λ fact. not (is_equality_shown_of way.now fact)) facts.now }
{
    facts.iter().find(|fact| !is_equality_shown(way, fact))
}

/// An equality of a register, if there is one.
fn told_sum<A: Allocator>(way: &Edge<'_, A>, register: u8, equality: &Option<Equality>) -> Unshown
    ensures { result ≡ told_sum_of way.now register equality.now }
{
    match equality {
        None => Unshown::Untold,
        Some(equality) => Unshown::Equality {
            register,
            known: sum_of(way.form_on(register)),
            wanted: sum_stated(equality),
            there: sum_of(sum_on(way, equality)),
        },
    }
}

/// The first equality that is not shown.
#[tactic(auto, unfolding(crate::specs::Unshown::unshown_equality))]
fn unshown_equality<A: Allocator>(way: &Edge<'_, A>, facts: &[RegisterFact]) -> Unshown
    ensures { result ≡ unshown_equality_of way.now facts.now }
{
    match first_equality(way, facts) {
        None => Unshown::Untold,
        Some(fact) => told_sum(way, fact.number, &fact.equality),
    }
}

/// The first order that is not shown.
fn first_order<'a, A: Allocator>(
    way: &Edge<'_, A>,
    orders: &'a [OrderFact],
) -> Option<&'a OrderFact>
    ensures { option_map (λ order. order.now) result
        ≡ find (λ order. not (is_order_shown_of way.now order)) orders.now }
{
    orders.iter().find(|order| !is_order_shown(way, **order))
}

/// The first order that is not shown.
#[tactic(auto, unfolding(crate::specs::Unshown::unshown_order))]
fn unshown_order<A: Allocator>(way: &Edge<'_, A>, orders: &[OrderFact]) -> Unshown
    ensures { result ≡ unshown_order_of way.now orders.now }
{
    match first_order(way, orders) {
        None => Unshown::Untold,
        Some(order) => Unshown::Order {
            lesser: number_on(way, order.lesser),
            greater: number_on(way, order.greater),
        },
    }
}

/// The first fact on vector registers that is not shown.
fn first_vector<'a, A: Allocator>(
    way: &Edge<'_, A>,
    facts: &'a [VectorFact],
) -> Option<&'a VectorFact>
    ensures { option_map (λ fact. fact.now) result
        ≡ find (λ fact. not (is_vector_shown_of way.now fact)) facts.now }
{
    facts.iter().find(|fact| !is_vector_shown(way, **fact))
}

/// The first fact on vector registers that is not shown.
#[tactic(auto, unfolding(crate::specs::Unshown::unshown_vector))]
fn unshown_vector<A: Allocator>(way: &Edge<'_, A>, facts: &[VectorFact]) -> Unshown
    ensures { result ≡ unshown_vector_of way.now facts.now }
{
    match first_vector(way, facts) {
        None => Unshown::Untold,
        Some(fact) => Unshown::Vector {
            wanted: *fact,
            known: group_at(fact.register, way.groups()),
            vl: way.range_on(VL),
        },
    }
}

/// A budget that is not shown, where the block that is left has one.
fn unshown_budget<A: Allocator>(own: Option<Budget>, way: &Edge<'_, A>, next: Budget) -> Unshown
    ensures { result ≡ unshown_budget_of own way.now next }
{
    match own {
        None => Unshown::Untold,
        Some(own) => Unshown::Budget(gap_on(way, own, next)),
    }
}

/// The vector type that a block states, if it states one, beside the one that is known.
fn unshown_vtype<A: Allocator>(way: &Edge<'_, A>, wanted: Option<u8>) -> Unshown
    ensures { result ≡ unshown_vtype_of way.now wanted }
{
    match wanted {
        None => Unshown::Untold,
        Some(wanted) => Unshown::Vtype {
            known: kept_vtype(way.vtype()),
            wanted,
        },
    }
}

/// What of a block is not shown, by the error that the way to it has.
#[tactic(auto, unfolding(crate::specs::Unshown::unshown_of))]
pub(crate) fn unshown_in<A: Allocator>(
    error: CheckError,
    own: Option<Budget>,
    way: &Edge<'_, A>,
    block: &Block,
) -> Unshown
    ensures { result ≡ unshown_of error own way.now block.now }
{
    match error {
        CheckError::IntervalNotProved(_) => unshown_interval(way, block.registers.as_slice()),
        CheckError::EqualityNotProved(_) => unshown_equality(way, block.registers.as_slice()),
        CheckError::OrderNotProved(_) => unshown_order(way, block.orders.as_slice()),
        CheckError::VectorFactNotProved(_) => unshown_vector(way, block.vectors.as_slice()),
        CheckError::BudgetNotProved(_) => unshown_budget(own, way, block.budget),
        CheckError::VtypeUnknown(_) => unshown_vtype(way, block.vtype),
        CheckError::WrongVlen
        | CheckError::NoEntryBlock
        | CheckError::NotCode(_)
        | CheckError::IllegalWord(_)
        | CheckError::AccessNotProved(_)
        | CheckError::ReadOnly(_)
        | CheckError::TargetNotABlock(_)
        | CheckError::BlockTooLong(_)
        | CheckError::NoMemory => Unshown::Untold,
    }
}

impl fmt::Display for Number {
    ghost use Rattle.std.specs.Prelude.{Some};
    ghost use Rattle.check_reasons.specs.Unshown.{number_lines};

    ghost output = { λ number. Some (number_lines number) };

    #[tactic(auto, unfolding(crate::specs::Unshown::number_lines))]
    fn fmt<W: fmt::Write>(&self, f: &mut fmt::Formatter<W>) -> fmt::Result {
        let name = Name(self.register);
        let range = Span(self.range);
        let sum = &self.sum;
        writeln!(f, "  known: {name} in {range}")?;
        writeln!(f, "  known: {name} = {sum}")
    }
}

/// What is known of a register as a sum, the sum that is wanted, and that again in numbers of the block that the way leaves.
#[derive(Clone, Copy)]
struct SumLines<'a> {
    register: u8,
    known: &'a Sum<8>,
    wanted: &'a Sum<8>,
    there: &'a Sum<64>,
}

impl fmt::Display for SumLines<'_> {
    ghost use Rattle.std.specs.Prelude.{◌++◌, Some};
    ghost use Rattle.check_reasons.specs.Unshown.{sum_line, there_line, wanted_sum};

    ghost output = { λ sums. Some (sum_line sums.register sums.known.now
        ++ (wanted_sum sums.register sums.wanted.now ++ there_line sums.there.now)) };

    fn fmt<W: fmt::Write>(&self, f: &mut fmt::Formatter<W>) -> fmt::Result {
        let name = Name(self.register);
        let SumLines {
            known,
            wanted,
            there,
            ..
        } = *self;
        writeln!(f, "  known: {name} = {known}")?;
        writeln!(f, "  wanted on entering it: {name} = {wanted}")?;
        writeln!(f, "  that sum on this way: {there}")
    }
}

/// A vector type that is known, and the one that is wanted.
#[derive(Clone, Copy)]
struct VtypeLines(HeldVtype, u8);

impl fmt::Display for VtypeLines {
    ghost use Rattle.std.specs.Prelude.{Some};
    ghost use Rattle.check_reasons.specs.Unshown.{vtype_lines};

    ghost output = { λ lines. Some (vtype_lines lines.0 lines.1) };

    fn fmt<W: fmt::Write>(&self, f: &mut fmt::Formatter<W>) -> fmt::Result {
        let known = self.0;
        let wanted = VtypeText(self.1);
        write!(f, "  known: {known}\n  wanted on entering it: {wanted}\n")
    }
}

/// What is known of a group, as a line.
#[derive(Clone, Copy)]
struct KnownGroup(Option<VectorFact>);

impl fmt::Display for KnownGroup {
    ghost use Rattle.std.specs.Prelude.{Some};
    ghost use Rattle.check_reasons.specs.Unshown.{known_group};

    ghost output = { λ group. Some (known_group group.0) };

    fn fmt<W: fmt::Write>(&self, f: &mut fmt::Formatter<W>) -> fmt::Result {
        match self.0 {
            None => writeln!(f, "  known: nothing of this group"),
            Some(fact) => {
                let fact = Vector(fact);
                writeln!(f, "  known: {fact}")
            }
        }
    }
}

/// What is known of both registers of an order, and the order that is wanted.
#[derive(Clone, Copy)]
struct OrderLines<'a>(&'a Number, &'a Number);

impl fmt::Display for OrderLines<'_> {
    ghost use Rattle.std.specs.Prelude.{Some};
    ghost use Rattle.check_reasons.specs.Unshown.{order_lines};

    ghost output = { λ lines. Some (order_lines lines.0.now lines.1.now) };

    #[tactic(auto, unfolding(crate::specs::Unshown::order_lines))]
    fn fmt<W: fmt::Write>(&self, f: &mut fmt::Formatter<W>) -> fmt::Result {
        let OrderLines(lesser, greater) = *self;
        let less = Name(lesser.register);
        let more = Name(greater.register);
        writeln!(
            f,
            "{lesser}{greater}  wanted on entering it: {less} <= {more}"
        )
    }
}

/// A fact on vector registers that is wanted, what is known of the group, and of vl.
#[derive(Clone, Copy)]
struct VectorLines(VectorFact, Option<VectorFact>, Range);

impl fmt::Display for VectorLines {
    ghost use Rattle.std.specs.Prelude.{Some};
    ghost use Rattle.check_reasons.specs.Unshown.{vector_lines};

    ghost output = { λ lines. Some (vector_lines lines.0 lines.1 lines.2) };

    #[tactic(auto, unfolding(crate::specs::Unshown::vector_lines))]
    fn fmt<W: fmt::Write>(&self, f: &mut fmt::Formatter<W>) -> fmt::Result {
        let wanted = Vector(self.0);
        let known = KnownGroup(self.1);
        let vl = VlLine(self.2);
        writeln!(f, "{vl}{known}  wanted on entering it: {wanted}")
    }
}

impl fmt::Display for Unshown {
    ghost use Rattle.std.specs.Prelude.{Some};
    ghost use Rattle.check_reasons.specs.Unshown.{unshown_text};

    ghost output = { λ unshown. Some (unshown_text unshown) };

    #[tactic(auto, unfolding(crate::specs::Unshown::unshown_text))]
    fn fmt<W: fmt::Write>(&self, f: &mut fmt::Formatter<W>) -> fmt::Result {
        match self {
            Unshown::Untold => Ok(()),
            Unshown::Interval { known, wanted } => {
                let name = Name(known.register);
                let range = Span(*wanted);
                writeln!(f, "{known}  wanted on entering it: {name} in {range}")
            }
            Unshown::Vtype { known, wanted } => {
                let lines = VtypeLines(*known, *wanted);
                write!(f, "{lines}")
            }
            Unshown::Equality {
                register,
                known,
                wanted,
                there,
            } => {
                let lines = SumLines {
                    register: *register,
                    known,
                    wanted,
                    there,
                };
                write!(f, "{lines}")
            }
            Unshown::Order { lesser, greater } => {
                let lines = OrderLines(lesser, greater);
                write!(f, "{lines}")
            }
            Unshown::Vector { wanted, known, vl } => {
                let lines = VectorLines(*wanted, *known, *vl);
                write!(f, "{lines}")
            }
            Unshown::Budget(gap) => write!(f, "{gap}"),
        }
    }
}

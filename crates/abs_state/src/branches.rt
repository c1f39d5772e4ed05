//! The ways out of an instruction, and what a branch says of the numbers that it compares.
ghost use Rattle.std.specs.Prelude.{◌≡◌, Some, slice_index_or};
ghost use Rattle.abs_domain.specs.Values.{just};
ghost use Rattle.abs_state.specs.Branches.{apart_from as apart_from_of, both_ranges};
ghost use Rattle.abs_state.specs.Branches.{branch_edge as branch_edge_of};
ghost use Rattle.abs_state.specs.Branches.{changes_of, edge_in as edge_in_of, filled_range};
ghost use Rattle.abs_state.specs.Branches.{if_small as if_small_of};
ghost use Rattle.abs_state.specs.Branches.{plain_edge as plain_edge_of, refined};
ghost use Rattle.abs_state.specs.Branches.{related_edge as related_edge_of};
ghost use Rattle.abs_state.specs.Branches.{related_ranges as related_ranges_of, relation_of};
ghost use Rattle.abs_state.specs.Branches.{table_on, value_on};
ghost use Rattle.abs_state.specs.Branches.{without_end as without_end_of};
ghost use Rattle.abs_state.specs.declared.branches.Relation.TheVariants.{Below};

use crate::state::{Abstract, Way};
use abs_domain::{NUMBERS, Value, computed_range, copy_of, whole_atom};
use cert_note::VectorFact;
use linear_facts::{Atoms, Change, Form, Range};
use rv_decode::{Condition, Reg};
use std::alloc::{Allocator, Global};
use std::marker::Model;

/// How one number stands to another, both without sign.
#[derive(Clone, Copy, PartialEq, Eq)]
pub enum Relation {
    Same,
    Different,
    Below,
    NotBelow,
}

/// A branch, and whether it is taken.
#[derive(Clone, Copy, PartialEq, Eq)]
pub struct Said {
    pub condition: Condition,
    pub rs1: Reg,
    pub rs2: Reg,
    pub taken: bool,
}

/// A relation of signed numbers, where both are below 2^31: there it is the one without sign.
fn if_small(a: Range, b: Range, relation: Relation) -> Option<Relation>
    ensures { result ≡ if_small_of a b relation }
{
    if a.hi < 1 << 31 && b.hi < 1 << 31 {
        Some(relation)
    } else {
        None
    }
}

/// How rs1 stands to rs2 where a branch is taken, or where it isn't.
#[tactic(auto, unfolding(crate::specs::Branches::relation_of))]
fn relation_when(condition: Condition, taken: bool, a: Range, b: Range) -> Option<Relation>
    ensures { result ≡ relation_of condition taken a b }
{
    match (condition, taken) {
        (Condition::Eq, true) | (Condition::Ne, false) => Some(Relation::Same),
        (Condition::Eq, false) | (Condition::Ne, true) => Some(Relation::Different),
        (Condition::Lt, true) | (Condition::Ge, false) => if_small(a, b, Relation::Below),
        (Condition::Lt, false) | (Condition::Ge, true) => if_small(a, b, Relation::NotBelow),
        (Condition::Ltu, true) | (Condition::Geu, false) => Some(Relation::Below),
        (Condition::Ltu, false) | (Condition::Geu, true) => Some(Relation::NotBelow),
    }
}

/// The range between two ends, where it is not empty.
fn filled(lo: u64, hi: u32) -> Option<Range>
    ensures { result ≡ filled_range lo hi }
{
    if lo <= u64::from(hi) {
        Some(Range { lo: lo as u32, hi })
    } else {
        None
    }
}

/// Two ranges, where there are both.
fn both(a: Option<Range>, b: Option<Range>) -> Option<(Range, Range)>
    ensures { result ≡ both_ranges a b }
{
    let a = a?;
    let b = b?;
    Some((a, b))
}

/// The range without a number that is one of its ends.
#[tactic(auto, unfolding(crate::specs::Branches::without_end))]
fn without_end(n: u32, a: Range) -> Option<Range>
    ensures { result ≡ without_end_of n a }
{
    let lo = u64::from(a.lo);
    let lo = if a.lo == n { lo + 1 } else { lo };
    let hi = if a.hi == n {
        a.hi.saturating_sub(1)
    } else {
        a.hi
    };
    filled(lo, hi)
}

/// The range without the other's number, where the other has just one.
#[tactic(auto, unfolding(crate::specs::Branches::apart_from))]
fn apart_from(b: Range, a: Range) -> Option<Range>
    ensures { result ≡ apart_from_of b a }
{
    if b.lo == b.hi {
        without_end(b.lo, a)
    } else {
        Some(a)
    }
}

/// The ranges of two numbers, the first of them below the second.
#[tactic(auto, unfolding(crate::specs::Branches::related_ranges))]
fn below(a: Range, b: Range) -> Option<(Range, Range)>
    ensures { result ≡ related_ranges_of Below a b }
{
    if b.hi == 0 {
        None
    } else {
        both(
            filled(u64::from(a.lo), a.hi.min(b.hi - 1)),
            filled(u64::from(b.lo).max(u64::from(a.lo) + 1), b.hi),
        )
    }
}

/// The ranges of two numbers in this relation, or `None` where no two numbers of these ranges are.
#[tactic(auto, unfolding(crate::specs::Branches::related_ranges))]
fn related_ranges(relation: Relation, a: Range, b: Range) -> Option<(Range, Range)>
    ensures { result ≡ related_ranges_of relation a b }
{
    match relation {
        Relation::Same => both(a.meet(&b), a.meet(&b)),
        Relation::Different => both(apart_from(b, a), apart_from(a, b)),
        Relation::Below => below(a, b),
        Relation::NotBelow => both(
            filled(u64::from(a.lo.max(b.lo)), a.hi),
            filled(u64::from(b.lo), b.hi.min(a.hi)),
        ),
    }
}

/// An atom has this range.
fn change_to(atom: u16, range: Range) -> Option<Change>
    ensures { result ≡ Some record { atom = atom; range = range } }
{
    Some(Change { atom, range })
}

/// The ranges of the atoms that the two compared numbers are, or `None` where one atom has no number left.
#[tactic(auto, unfolding(crate::specs::Branches::changes_of))]
fn changes(
    first: Option<u16>,
    p: Range,
    second: Option<u16>,
    q: Range,
) -> Option<(Option<Change>, Option<Change>)>
    ensures { result ≡ changes_of first p second q }
{
    match (first, second) {
        (Some(a), Some(b)) => if a == b {
            let both = p.meet(&q)?;
            Some((change_to(a, both), None))
        } else {
            Some((change_to(a, p), change_to(b, q)))
        },
        (Some(a), None) => Some((change_to(a, p), None)),
        (None, Some(b)) => Some((None, change_to(b, q))),
        (None, None) => Some((None, None)),
    }
}

/// What is known on the way from one instruction to another: the state, and what a branch says besides.
#[derive(Drop)]
pub struct Edge<'a, A: Allocator = Global> {
    pub(crate) state: &'a Abstract<A>,
    pub(crate) ranges: [Range; NUMBERS],
    pub(crate) first: Option<Change>,
    pub(crate) second: Option<Change>,
    pub(crate) refined: bool,
    pub(crate) target: Option<u32>,
    /// The branch, if the edge is one of its two.
    pub(crate) said: Option<Said>,
}

impl<'a, A: Allocator> Model for Edge<'a, A> {
    ghost use Rattle.abs_state.specs.Branches.{EdgeView};

    ghost Value = { EdgeView };

    ghost view = { λ e. record {
      state = e.state.now;
      ranges = e.ranges;
      first = e.first;
      second = e.second;
      refined = e.refined;
      target = e.target;
      said = e.said;
    } };
}

impl<A: Allocator> Edge<'_, A> {
    /// Where the edge leads, if that is known.
    pub fn target(&self) -> Option<u32>
        ensures { result ≡ self.now.target }
    {
        self.target
    }

    /// How many instructions have been taken since the block began that the edge leaves.
    pub fn words(&self) -> u32
        ensures { result ≡ self.now.state.words }
    {
        let state = self.state;
        state.words
    }

    /// Bits 7 to 0 of vtype, if they are known.
    pub fn vtype(&self) -> Option<u8>
        ensures { result ≡ self.now.state.vtype }
    {
        let state = self.state;
        state.vtype
    }

    /// The number, where the block began that the edge leaves, of the register that its budget names.
    pub fn paid(&self) -> Value<'_>
        ensures { result ≡ self.now.state.paid }
    {
        let state = self.state;
        state.paid()
    }

    /// That of its second register.
    pub fn second_paid(&self) -> Value<'_>
        ensures { result ≡ self.now.state.second_paid }
    {
        let state = self.state;
        state.second_paid()
    }

    /// The facts on vector registers.
    pub fn groups(&self) -> &[VectorFact]
        ensures { result.now ≡ self.now.state.groups }
    {
        let state = self.state;
        state.groups()
    }

    /// What is known of the atoms on the edge.
    pub fn table(&self) -> Atoms<'_>
        ensures { result ≡ table_on self.now }
    {
        let state = self.state;
        let table = state.numbers.table();
        Atoms {
            atoms: table.atoms,
            first: self.first,
            second: self.second,
        }
    }

    /// The form of a register's number, or of vl's (32). A number past these stands for none, and has the form 0.
    #[tactic(auto, unfolding(crate::specs::Branches::value_on, abs_domain::specs::Numbers::value_at))]
    pub fn form_on(&self, number: u8) -> Form<8>
        ensures { result ≡ (value_on self.now number).form }
    {
        let state = self.state;
        match state.numbers.forms().get(usize::from(number)) {
            Some(form) => copy_of(form),
            None => Form::number(0),
        }
    }

    /// The range of a register's number, or of vl's (32), as the edge has it.
    fn own_range(&self, number: u8) -> Range
        ensures { result ≡ slice_index_or self.now.ranges number (just 0) }
    {
        match self.ranges.get(usize::from(number)) {
            Some(range) => *range,
            None => Range { lo: 0, hi: 0 },
        }
    }

    /// The range of a register's number, or of vl's (32). After a branch it is met with the range of its form, which what is
    /// known of the atoms may have changed.
    #[tactic(auto, unfolding(crate::specs::Branches::value_on))]
    pub fn range_on(&self, number: u8) -> Range
        ensures { result ≡ (value_on self.now number).range }
    {
        let own = self.own_range(number);
        if self.refined {
            let form = self.form_on(number);
            computed_range(Some(own), form.range_of(&self.table()))
        } else {
            own
        }
    }
}

impl<A: Allocator> Abstract<A> {
    /// An edge that the state says all of.
    fn plain_edge(&self, target: Option<u32>) -> Edge<'_, A>
        ensures { result ≡ plain_edge_of self.now target }
    {
        Edge {
            state: self,
            ranges: self.numbers.ranges(),
            first: None,
            second: None,
            refined: false,
            target,
            said: None,
        }
    }

    /// The edge where rs1 and rs2 have these ranges, or `None` where an atom has no number left.
    #[tactic(auto, unfolding(crate::specs::Branches::edge_in))]
    fn edge_in(&self, rs1: Reg, rs2: Reg, target: u32, p: Range, q: Range) -> Option<Edge<'_, A>>
        ensures { result ≡ edge_in_of rs1 rs2 target self.now (p, q) }
    {
        let left = usize::from(rs1.number());
        let right = usize::from(rs2.number());
        let numbers = &self.numbers;
        let (first, second) = changes(
            whole_atom(numbers.value(left).form),
            p,
            whole_atom(numbers.value(right).form),
            q,
        )?;
        let mut ranges = numbers.ranges();
        ranges[left] = p;
        ranges[right] = q;
        Some(Edge {
            state: self,
            ranges,
            first,
            second,
            refined: true,
            target: Some(target),
            said: None,
        })
    }

    /// The edge where rs1 and rs2 stand in a relation, if one is known, or `None` where no two numbers in their ranges do.
    #[tactic(auto, unfolding(crate::specs::Branches::related_edge))]
    fn related_edge(
        &self,
        relation: Option<Relation>,
        rs1: Reg,
        rs2: Reg,
        target: u32,
    ) -> Option<Edge<'_, A>>
        ensures { result ≡ related_edge_of relation rs1 rs2 target self.now }
    {
        match relation {
            None => Some(self.plain_edge(Some(target))),
            Some(relation) => {
                let a = self.numbers.range_at(usize::from(rs1.number()));
                let b = self.numbers.range_at(usize::from(rs2.number()));
                let (p, q) = related_ranges(relation, a, b)?;
                self.edge_in(rs1, rs2, target, p, q)
            }
        }
    }

    /// The edge of a branch, taken or not. A register says nothing of itself.
    #[tactic(auto, unfolding(crate::specs::Branches::branch_edge))]
    fn branch_edge(
        &self,
        taken: bool,
        condition: Condition,
        rs1: Reg,
        rs2: Reg,
        target: u32,
    ) -> Option<Edge<'_, A>>
        ensures { result ≡ branch_edge_of taken condition rs1 rs2 target self.now }
    {
        let relation = if rs1.number() == rs2.number() {
            None
        } else {
            let a = self.numbers.range_at(usize::from(rs1.number()));
            let b = self.numbers.range_at(usize::from(rs2.number()));
            relation_when(condition, taken, a, b)
        };
        let mut edge = self.related_edge(relation, rs1, rs2, target)?;
        edge.said = Some(Said {
            condition,
            rs1,
            rs2,
            taken,
        });
        Some(edge)
    }

    /// The edge out of the last instruction that was taken: for a branch where it is taken, or where it isn't. `None` where it
    /// can't come to that.
    #[tactic(auto, unfolding(crate::specs::Branches::refined, crate::specs::Branches::edge_by))]
    pub fn refine(&self, taken: bool) -> Option<Edge<'_, A>>
        ensures { result ≡ refined taken self.now }
    {
        match self.way {
            Way::To { target } => Some(self.plain_edge(Some(target))),
            Way::Unknown => Some(self.plain_edge(None)),
            Way::Fork {
                condition,
                rs1,
                rs2,
                target,
                next,
            } => {
                let target = if taken { target } else { next };
                self.branch_edge(taken, condition, rs1, rs2, target)
            }
        }
    }
}

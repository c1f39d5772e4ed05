//! The way out of a word that the check refused: the block that it enters, and what is not shown of it.
ghost use Rattle.std.specs.Prelude.{◌≡◌};
ghost use Rattle.check_reasons.specs.Edge.{budget_of, edge_from, edge_told, end_of};
ghost use Rattle.check_reasons.specs.Edge.{entered_of, is_end as is_end_of, is_of_budget, jump_in};
ghost use Rattle.check_reasons.specs.Edge.{jump_of, jump_register as jump_register_of, left_of};
ghost use Rattle.check_reasons.specs.Edge.{source_of as source_of_edge};

use crate::gaps::{EndGap, Gap, NO_BUDGET, gap_on};
use crate::spans::Span;
use crate::sums::{Name, Times};
use crate::unshown::{Unshown, unshown_in};
use abs_state::{Abstract, Edge as KnownEdge};
use block_checker::{CheckError, Part, place_of, refused_edge};
use cert_note::{Budget, Certificate};
use explanations::Address;
use linear_facts::Range;
use rv_decode::{Insn, ScalarInsn, decode, integer_computation, vector_arithmetic};
use scalar_core::EXIT;
use std::alloc::Allocator;
use std::fmt;

/// The block that a way out of a word enters.
#[derive(Drop)]
pub struct Entered {
    /// The number of the block in the certificate, from 0 on.
    pub block: usize,
    pub start: u32,
    pub budget: Budget,
    /// What of the block is not shown.
    pub unshown: Unshown,
}

/// The block that a way out of a word leaves.
#[derive(Clone, Copy, PartialEq, Eq)]
pub struct Left {
    /// The number of the block in the certificate, from 0 on.
    pub block: usize,
    pub budget: Budget,
}

/// A register by which a word jumps, and what is known of it.
#[derive(Clone, Copy, PartialEq, Eq)]
pub struct Source {
    pub register: u8,
    pub range: Range,
}

/// A way out of a word that the check refused.
#[derive(Drop)]
pub struct Edge {
    /// Where it leads, if that is known.
    pub target: Option<u32>,
    /// How many words of the block were taken.
    pub words: u32,
    /// The register by which the word leads to an address that is not known, unless it sets that register, too.
    pub source: Option<Source>,
    /// The block of the word. The way into the first block leaves none.
    pub left: Option<Left>,
    /// The block there.
    pub entered: Option<Entered>,
    /// Where it leads to the end of the run: what the budget of the block left lacks.
    pub end: Option<Gap>,
}

/// The block of a part of the check.
#[tactic(auto, unfolding(crate::specs::Edge::left_of))]
fn left_block<C: Allocator>(certificate: &Certificate<C>, part: Part) -> Option<Left>
    ensures { result ≡ left_of certificate.now part }
{
    match part {
        Part::Entry => None,
        Part::Block(start) => {
            let block = place_of(certificate, start)?;
            Some(Left {
                block,
                budget: certificate.contents().blocks[block].budget,
            })
        }
    }
}

/// The block to which a way leads, if it leads to one.
#[tactic(auto, unfolding(crate::specs::Edge::entered_of, crate::specs::Edge::entered_by))]
fn entered_block<A: Allocator, C: Allocator>(
    certificate: &Certificate<C>,
    error: CheckError,
    own: Option<Budget>,
    way: &KnownEdge<'_, A>,
) -> Option<Entered>
    ensures { result ≡ entered_of certificate.now error own way.now }
{
    let address = way.target()?;
    if address == EXIT {
        return None;
    }
    let place = place_of(certificate, address)?;
    let block = &certificate.contents().blocks[place];
    Some(Entered {
        block: place,
        start: block.start,
        budget: block.budget,
        unshown: unshown_in(error, own, way, block),
    })
}

/// The budget of the block that is left.
fn budget_of(left: Option<Left>) -> Option<Budget>
    ensures { result ≡ budget_of left }
{
    match left {
        None => None,
        Some(left) => Some(left.budget),
    }
}

/// The register by which an instruction jumps, unless it sets that register, too.
fn jump_in(insn: ScalarInsn) -> Option<u8>
    ensures { result ≡ jump_in insn }
{
    match insn {
        ScalarInsn::Jalr { rd, rs1, .. } => { if rd == rs1 { None } else { Some(rs1.number()) } }
        ScalarInsn::Jal { .. }
        | ScalarInsn::Branch { .. }
        | ScalarInsn::Load { .. }
        | ScalarInsn::Store { .. }
        | ScalarInsn::Fence
        | ScalarInsn::Ecall
        | integer_computation!() => None,
    }
}

/// The same of any instruction.
fn jump_of(insn: &Insn) -> Option<u8>
    ensures { result ≡ jump_of insn.now }
{
    match *insn {
        Insn::Scalar(insn) => jump_in(insn),
        Insn::VMem(_) | Insn::Csr(_) | Insn::VSet(_) | vector_arithmetic!() => None,
    }
}

/// The same of a word.
#[tactic(auto, unfolding(crate::specs::Edge::jump_register))]
fn jump_register(word: Option<u32>) -> Option<u8>
    ensures { result ≡ jump_register_of word }
{
    let Some(word) = word else {
        return None;
    };
    match decode(word) {
        None => None,
        Some(insn) => jump_of(&insn),
    }
}

/// What is known of the register by which a word leads to an address that is not known.
#[tactic(auto, unfolding(crate::specs::Edge::source_of))]
fn source_of<A: Allocator>(word: Option<u32>, way: &KnownEdge<'_, A>) -> Option<Source>
    ensures { result ≡ source_of_edge word way.now }
{
    if way.target().is_some() {
        return None;
    }
    let register = jump_register(word)?;
    Some(Source {
        register,
        range: way.range_on(register),
    })
}

/// Whether a way leads to the end of the run.
fn is_end<A: Allocator>(way: &KnownEdge<'_, A>) -> bool
    ensures { result ≡ is_end_of way.now }
{
    match way.target() {
        None => false,
        Some(target) => target == EXIT,
    }
}

/// Whether a budget was not proved.
fn is_of_budget(error: CheckError) -> bool
    ensures { result ≡ is_of_budget error }
{
    matches!(error, CheckError::BudgetNotProved(_))
}

/// What a budget lacks on a way to the end of the run.
#[tactic(auto, unfolding(crate::specs::Edge::end_of))]
fn end_gap<A: Allocator>(
    error: CheckError,
    own: Option<Budget>,
    way: &KnownEdge<'_, A>,
) -> Option<Gap>
    ensures { result ≡ end_of error own way.now }
{
    if is_of_budget(error) && is_end(way) {
        let own = own?;
        Some(gap_on(way, own, NO_BUDGET))
    } else {
        None
    }
}

/// A way out behind a word, as a reason holds it.
#[tactic(auto, unfolding(crate::specs::Edge::edge_told))]
fn told<A: Allocator, C: Allocator>(
    certificate: &Certificate<C>,
    error: CheckError,
    part: Part,
    word: Option<u32>,
    way: &KnownEdge<'_, A>,
) -> Edge
    ensures { result ≡ edge_told certificate.now error part word way.now }
{
    let left = left_block(certificate, part);
    let own = budget_of(left);
    Edge {
        target: way.target(),
        words: way.words(),
        source: source_of(word, way),
        left,
        entered: entered_block(certificate, error, own, way),
        end: end_gap(error, own, way),
    }
}

/// The way out of a state behind a word at pc that is refused.
#[tactic(auto, unfolding(crate::specs::Edge::edge_from))]
pub(crate) fn edge_at<A: Allocator, C: Allocator>(
    certificate: &Certificate<C>,
    error: CheckError,
    part: Part,
    pc: u32,
    word: Option<u32>,
    state: &Abstract<A>,
) -> Option<Edge>
    ensures { result ≡ edge_from certificate.now error part pc word state.now }
{
    match refused_edge(certificate, pc, state) {
        None => None,
        Some(way) => Some(told(certificate, error, part, word, &way)),
    }
}

/// A number of words.
#[derive(Clone, Copy)]
struct Words(u32);

impl fmt::Display for Words {
    ghost use Rattle.std.specs.Prelude.{Some};
    ghost use Rattle.check_reasons.specs.Edge.{words_text};

    ghost output = { λ words. Some (words_text words.0) };

    #[tactic(auto, unfolding(crate::specs::Edge::words_text))]
    fn fmt<W: fmt::Write>(&self, f: &mut fmt::Formatter<W>) -> fmt::Result {
        let words = self.0;
        if words == 1 {
            f.write_str("1 word")
        } else {
            write!(f, "{words} words")
        }
    }
}

/// How many words of the block that is left were taken. On the way into the first block none are.
#[derive(Clone, Copy)]
struct After(Option<Left>, Words);

impl fmt::Display for After {
    ghost use Rattle.std.specs.Prelude.{Some};
    ghost use Rattle.check_reasons.specs.Edge.{after_text};

    ghost output = { λ after. Some (after_text after.0 after.1.0) };

    fn fmt<W: fmt::Write>(&self, f: &mut fmt::Formatter<W>) -> fmt::Result {
        let words = self.1;
        match self.0 {
            None => Ok(()),
            Some(_) => write!(f, ", after {words} of the block"),
        }
    }
}

/// The address to which a way leads, or the end of the run.
#[derive(Clone, Copy)]
struct Target(u32);

impl fmt::Display for Target {
    ghost use Rattle.std.specs.Prelude.{Some};
    ghost use Rattle.check_reasons.specs.Edge.{target_text};

    ghost output = { λ target. Some (target_text target.0) };

    #[tactic(auto, unfolding(crate::specs::Edge::target_text))]
    fn fmt<W: fmt::Write>(&self, f: &mut fmt::Formatter<W>) -> fmt::Result {
        if self.0 == EXIT {
            f.write_str("the end of the run")
        } else {
            let address = Address(u64::from(self.0));
            write!(f, "{address}")
        }
    }
}

/// Where a way leads, as a line.
#[derive(Clone, Copy)]
struct TargetLine {
    target: Option<u32>,
    left: Option<Left>,
    words: u32,
}

impl fmt::Display for TargetLine {
    ghost use Rattle.std.specs.Prelude.{Some};
    ghost use Rattle.check_reasons.specs.Edge.{target_line};

    ghost output = { λ line. Some (target_line line.target line.left line.words) };

    fn fmt<W: fmt::Write>(&self, f: &mut fmt::Formatter<W>) -> fmt::Result {
        let words = Words(self.words);
        match self.target {
            None => writeln!(f, "  leads to an address that is not known, after {words}"),
            Some(target) => {
                let target = Target(target);
                let after = After(self.left, words);
                writeln!(f, "  leads to {target}{after}")
            }
        }
    }
}

/// What is known of the register by which a word jumps, as a line.
#[derive(Clone, Copy)]
struct SourceLine(Option<Source>);

impl fmt::Display for SourceLine {
    ghost use Rattle.std.specs.Prelude.{Some};
    ghost use Rattle.check_reasons.specs.Edge.{source_line};

    ghost output = { λ line. Some (source_line line.0) };

    fn fmt<W: fmt::Write>(&self, f: &mut fmt::Formatter<W>) -> fmt::Result {
        match self.0 {
            None => Ok(()),
            Some(source) => {
                let name = Name(source.register);
                let range = Span(source.range);
                writeln!(f, "  known: {name} in {range}")
            }
        }
    }
}

/// A multiple of a register that is added, if it is not 0.
#[derive(Clone, Copy)]
struct Product {
    factor: u32,
    register: u8,
}

impl fmt::Display for Product {
    ghost use Rattle.std.specs.Prelude.{Some};
    ghost use Rattle.check_reasons.specs.Edge.{product_text};

    ghost output = { λ product. Some (product_text product.factor product.register) };

    #[tactic(auto, unfolding(crate::specs::Edge::product_text))]
    fn fmt<W: fmt::Write>(&self, f: &mut fmt::Formatter<W>) -> fmt::Result {
        let Product { factor, register } = *self;
        if factor == 0 {
            Ok(())
        } else {
            let times = Times(factor);
            write!(f, " + {times}x{register}")
        }
    }
}

/// A sum of a constant and multiples of registers.
#[derive(Clone, Copy)]
struct Sum(Budget);

impl fmt::Display for Sum {
    ghost use Rattle.std.specs.Prelude.{Some};
    ghost use Rattle.check_reasons.specs.Edge.{budget_text};

    ghost output = { λ sum. Some (budget_text sum.0) };

    #[tactic(auto, unfolding(crate::specs::Edge::budget_text))]
    fn fmt<W: fmt::Write>(&self, f: &mut fmt::Formatter<W>) -> fmt::Result {
        let constant = self.0.constant;
        let first = Product {
            factor: self.0.factor,
            register: self.0.register,
        };
        let second = Product {
            factor: self.0.second_factor,
            register: self.0.second_register,
        };
        write!(f, "{constant}{first}{second}")
    }
}

/// The block that a way out leaves, as a line.
#[derive(Clone, Copy)]
struct LeftLine(Option<Left>);

impl fmt::Display for LeftLine {
    ghost use Rattle.std.specs.Prelude.{Some};
    ghost use Rattle.check_reasons.specs.Edge.{left_line};

    ghost output = { λ line. Some (left_line line.0) };

    fn fmt<W: fmt::Write>(&self, f: &mut fmt::Formatter<W>) -> fmt::Result {
        match self.0 {
            None => Ok(()),
            Some(left) => {
                let block = left.block;
                let budget = Sum(left.budget);
                writeln!(
                    f,
                    "  leaves block {block} of the certificate, with a budget of {budget}"
                )
            }
        }
    }
}

/// The lines on the block entered, if there is one.
#[derive(Clone, Copy)]
struct EnteredLines<'a>(&'a Option<Entered>);

impl fmt::Display for EnteredLines<'_> {
    ghost use Rattle.std.specs.Prelude.{Some};
    ghost use Rattle.check_reasons.specs.Edge.{entered_lines};

    ghost output = { λ lines. Some (entered_lines lines.0.now) };

    #[tactic(auto, unfolding(crate::specs::Edge::entered_lines))]
    fn fmt<W: fmt::Write>(&self, f: &mut fmt::Formatter<W>) -> fmt::Result {
        match self.0 {
            None => Ok(()),
            Some(entered) => {
                let block = entered.block;
                let budget = Sum(entered.budget);
                let unshown = &entered.unshown;
                writeln!(
                    f,
                    "  enters block {block} of the certificate, with a budget of {budget}"
                )?;
                write!(f, "{unshown}")
            }
        }
    }
}

/// What a budget lacks at the end of the run, if it does.
#[derive(Clone, Copy)]
struct EndLines(Option<Gap>);

impl fmt::Display for EndLines {
    ghost use Rattle.std.specs.Prelude.{Some};
    ghost use Rattle.check_reasons.specs.Edge.{end_lines};

    ghost output = { λ lines. Some (end_lines lines.0) };

    fn fmt<W: fmt::Write>(&self, f: &mut fmt::Formatter<W>) -> fmt::Result {
        match self.0 {
            None => Ok(()),
            Some(gap) => {
                let gap = EndGap(gap);
                write!(f, "{gap}")
            }
        }
    }
}

impl fmt::Display for Edge {
    ghost use Rattle.std.specs.Prelude.{Some};
    ghost use Rattle.check_reasons.specs.Edge.{edge_text};

    ghost output = { λ edge. Some (edge_text edge) };

    #[tactic(auto, unfolding(crate::specs::Edge::edge_text))]
    fn fmt<W: fmt::Write>(&self, f: &mut fmt::Formatter<W>) -> fmt::Result {
        let target = TargetLine {
            target: self.target,
            left: self.left,
            words: self.words,
        };
        let source = SourceLine(self.source);
        let left = LeftLine(self.left);
        let entered = EnteredLines(&self.entered);
        let end = EndLines(self.end);
        write!(f, "{target}{source}{left}{entered}{end}")
    }
}

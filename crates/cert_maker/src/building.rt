//! The blocks of a loop's certificate.
ghost use Rattle.std.specs.Prelude.{◌≡◌, ◌≤◌, ◌<◌, ◌+◌, ◌*◌, ◌^◌, [], ◌∷◌, ◌++◌, length, IfOk};
ghost use Rattle.std.specs.Option.{option_to_list};
ghost use Rattle.cert_maker.specs.Certificates.{fact, facts_by, block as block_of, base_of};
ghost use Rattle.cert_maker.specs.Certificates.{entry_count as entry_count_of};
ghost use Rattle.cert_maker.specs.Certificates.{entry_pointer as entry_pointer_of};
ghost use Rattle.cert_maker.specs.Certificates.{loop_count as loop_count_of};
ghost use Rattle.cert_maker.specs.Certificates.{loop_pointer as loop_pointer_of};
ghost use Rattle.cert_maker.specs.Certificates.{budget as budget_of};
ghost use Rattle.cert_maker.specs.Loops.{size_of, is_flagged as is_flagged_of};
ghost use Rattle.cert_maker.specs.Make.{AreParameters, IsFor, stated_at, blocks_of, has_room};
ghost use Rattle.cert_maker.specs.declared.building.Spot.TheVariants.{Entry, Body};
ghost use Rattle.scalar_core.specs.Hart.{exit};

use crate::instructions::{bytes_of, is_flagged};
use crate::loops::Loop;
use arrayvec::ArrayVec;
use cert_note::{Block, Budget, Equality, EqualityTerm, RegisterFact};
use region_mem::Parameters;
use rv_decode::Reg;
use scalar_core::EXIT;
use std::alloc::{AllocError, Allocator};

/// Where a block begins.
#[derive(Clone, Copy, PartialEq, Eq)]
pub enum Spot {
    /// At the entry, with the branch past the loop.
    Entry,
    /// At the loop's first word.
    Body,
    /// At the return.
    Return,
}

/// ra holds the address that ends a run.
fn return_fact() -> RegisterFact
    ensures { result ≡ fact 1 exit exit None }
{
    RegisterFact {
        number: 1,
        low: EXIT,
        high: EXIT,
        equality: None,
    }
}

/// A sum of one term.
fn one_term(term: EqualityTerm) -> ArrayVec<EqualityTerm, 8>
    ensures { result.items ≡ term ∷ [] }
{
    let mut terms = ArrayVec::new();
    terms.push(term);
    terms
}

/// A sum of two terms.
fn two_terms(first: EqualityTerm, second: EqualityTerm) -> ArrayVec<EqualityTerm, 8>
    ensures { result.items ≡ first ∷ second ∷ [] }
{
    let mut terms = ArrayVec::new();
    terms.push(first);
    terms.push(second);
    terms
}

/// At the entry the count is the argument.
fn entry_count(of: &Loop) -> RegisterFact
    requires { of.now.count < 18 }
    ensures { result ≡ entry_count_of of.now }
{
    let count = of.count.number();
    let argument = EqualityTerm {
        atom: count + 23,
        coefficient: 1,
    };
    RegisterFact {
        number: count,
        low: 0,
        high: of.most,
        equality: Some(Equality {
            constant: 0,
            terms: one_term(argument),
        }),
    }
}

/// At the entry a pointer stands at its buffer's start.
fn entry_pointer(parameters: &Parameters, place: u8) -> RegisterFact
    requires { place < 8 }
    ensures { result ≡ entry_pointer_of parameters.now place }
{
    let base = parameters.address(usize::from(place)).unwrap_or(0);
    RegisterFact {
        number: place + 10,
        low: base,
        high: base,
        equality: Some(Equality {
            constant: base,
            terms: ArrayVec::new(),
        }),
    }
}

/// In the loop something is left.
fn loop_count(of: &Loop) -> RegisterFact
    ensures { result ≡ loop_count_of of.now }
{
    RegisterFact {
        number: of.count.number(),
        low: 1,
        high: of.most,
        equality: None,
    }
}

/// In the loop a pointer has moved by what is done.
fn loop_pointer(parameters: &Parameters, of: &Loop, place: u8) -> RegisterFact
    requires place { place < 8 }
    requires count { of.now.count < 18 }
    requires room { base_of parameters.now place + size_of of.now * of.now.most < 2 ^ 32 }
    ensures { result ≡ loop_pointer_of parameters.now of.now place }
{
    let base = parameters.address(usize::from(place)).unwrap_or(0);
    let size = bytes_of(of.sew);
    let count = of.count.number();
    let left = EqualityTerm {
        atom: count,
        coefficient: size.wrapping_neg(),
    };
    let argument = EqualityTerm {
        atom: count + 23,
        coefficient: size,
    };
    RegisterFact {
        number: place + 10,
        low: base,
        high: base + size * of.most,
        equality: Some(Equality {
            constant: base,
            terms: two_terms(left, argument),
        }),
    }
}

/// What is stated of an argument register.
#[tactic(auto, using(crate::proofs::IsForLemmas::room_fits))]
fn stated(spot: Spot, parameters: &Parameters, of: &Loop, place: u8) -> Option<RegisterFact>
    requires params { AreParameters parameters.now }
    requires place { place < 8 }
    requires class { IsFor parameters.now of.now }
    ensures { result ≡ stated_at spot parameters.now of.now place }
{
    let register = Reg::new(place + 10);
    let is_count = register.number() == of.count.number();
    let is_pointer = is_flagged(register, &of.pointers);
    match spot {
        Spot::Entry if is_count => Some(entry_count(of)),
        Spot::Entry if is_pointer => Some(entry_pointer(parameters, place)),
        Spot::Body if is_count => Some(loop_count(of)),
        Spot::Body if is_pointer => Some(loop_pointer(parameters, of, place)),
        Spot::Entry | Spot::Body | Spot::Return => None,
    }
}

/// One fact more, where there is one.
fn add(facts: &mut ArrayVec<RegisterFact, 32>, fact: Option<RegisterFact>)
    requires { length facts.old.items < 32 }
    ensures { facts.new.items ≡ facts.old.items ++ option_to_list fact }
{
    if let Some(fact) = fact {
        facts.push(fact);
    }
}

/// What is stated where a block begins.
#[tactic(auto, using(crate::proofs::FactLists::first_stated))]
fn facts(spot: Spot, parameters: &Parameters, of: &Loop) -> ArrayVec<RegisterFact, 32>
    requires params { AreParameters parameters.now }
    requires class { IsFor parameters.now of.now }
    ensures { result.items ≡ facts_by (stated_at spot parameters.now of.now) }
{
    let mut facts = ArrayVec::new();
    facts.push(return_fact());
    for place in 0..8u8 {
        add(&mut facts, stated(spot, parameters, of, place));
    }
    facts
}

/// At most `constant` instructions, and `factor` for each one in the register.
fn budget(constant: u32, factor: u32, register: u8) -> Budget
    ensures { result ≡ budget_of constant factor register }
{
    Budget {
        constant,
        factor,
        register,
        second_factor: 0,
        second_register: 0,
    }
}

/// A block, which states nothing of the vector type and of vector registers.
fn block(start: u32, budget: Budget, registers: ArrayVec<RegisterFact, 32>) -> Block
    ensures { result ≡ block_of start budget registers.items }
{
    Block {
        start,
        budget,
        vtype: None,
        registers,
        vectors: ArrayVec::new(),
        orders: ArrayVec::new(),
    }
}

/// The blocks of the certificate of a loop of `words` instructions, which begins at the entry's second word.
pub(crate) fn blocks<A: Allocator>(
    alloc: A,
    entry: u32,
    parameters: &Parameters,
    of: &Loop,
    words: u32,
) -> Result<Vec<Block, A>, AllocError>
    requires params { AreParameters parameters.now }
    requires class { IsFor parameters.now of.now }
    requires low { entry + 4 + 4 * words ≤ 0xC000_0000 }
    ensures { IfOk result (λ blocks.
        blocks.items ≡ blocks_of entry parameters.now of.now words) }
{
    let mut blocks = Vec::with_capacity(alloc, 3)?;
    let count = of.count.number();
    let first = facts(Spot::Entry, parameters, of);
    blocks.push(block(entry, budget(2, words, count), first))?;
    if of.most != 0 {
        let body = facts(Spot::Body, parameters, of);
        blocks.push(block(entry + 4, budget(1, words, count), body))?;
    }
    let last = facts(Spot::Return, parameters, of);
    blocks.push(block(entry + 4 + 4 * words, budget(1, 0, 0), last))?;
    Ok(blocks)
}

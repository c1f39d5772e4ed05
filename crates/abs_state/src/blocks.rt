//! What is known of a machine where a block of a certificate begins, and where a run does.
ghost use Rattle.std.specs.Prelude.{◌≡◌, ◌<◌, ◌≤◌, ◌+◌, ◌++◌, ◌∷◌, [], length, vec_capacity, IfOk};
ghost use Rattle.std.specs.Prelude.{Some};
ghost use Rattle.std.specs.List.{slice_get};
ghost use Rattle.abs_domain.specs.Starts.{IsUsable};
ghost use Rattle.abs_state.specs.Blocks.{at_block_of, at_entry_of};

use crate::state::{Abstract, MOST_WORDS, Way};
use abs_domain::{Numbers, copy_of, entry_numbers, just, memory_zones};
use arrayvec::ArrayVec;
use cert_note::{Block, Certificate, VectorFact};
use elf_image::Image;
use linear_facts::Form;
use std::alloc::{AllocError, Allocator};

/// How many facts on vector registers there may be: those of a block, and one for each instruction.
const MOST_FACTS: usize = 32 + MOST_WORDS as usize;

/// One fact more.
fn push_fact<A: Allocator>(groups: &mut Vec<VectorFact, A>, fact: VectorFact)
    requires few { length groups.old.items < 32 }
    requires room { MOST_FACTS ≤ vec_capacity groups.old }
    ensures items { groups.new.items ≡ groups.old.items ++ fact ∷ [] }
    ensures count { length groups.new.items ≡ length groups.old.items + 1 }
    ensures room { MOST_FACTS ≤ vec_capacity groups.new }
{
    groups.push(fact).unwrap();
}

/// These facts on vector registers in place of what was there.
fn put_facts<A: Allocator>(groups: &mut Vec<VectorFact, A>, facts: &[VectorFact])
    requires few { length facts.now ≤ 32 }
    requires room { MOST_FACTS ≤ vec_capacity groups.old }
    ensures items { groups.new.items ≡ facts.now }
    ensures room { MOST_FACTS ≤ vec_capacity groups.new }
{
    groups.clear();
    for fact in facts {
        push_fact(groups, *fact);
    }
}

impl<A: Allocator> Abstract<A> {
    /// A state that is not set to a start, with all memory that later calls need.
    #[tactic(auto, unfolding(abs_domain::specs::Numbers::zero_numbers))]
    fn with_room<C: Allocator>(
        alloc: A,
        certificate: &Certificate<C>,
    ) -> Result<Abstract<A>, AllocError>
    where
        A: Copy,
    {
        Ok(Abstract {
            vlenb: certificate.contents().vlen.bytes() as u32,
            numbers: Numbers::new(alloc)?,
            zones: ArrayVec::new(),
            vtype: None,
            groups: Vec::with_capacity(alloc, MOST_FACTS)?,
            budget: None,
            paid_form: Form::number(0),
            paid_range: just(0),
            second_form: Form::number(0),
            second_range: just(0),
            words: 0,
            way: Way::Unknown,
        })
    }

    /// What is known where this block begins, in place of what was known.
    #[tactic(auto, unfolding(crate::specs::Blocks::at_block_of))]
    fn set<B: Allocator, C: Allocator>(
        &mut self,
        certificate: &Certificate<C>,
        image: &Image<B>,
        block: &Block,
    )
        requires { IsUsable block.now }
        ensures state { self.new ≡ at_block_of image.now certificate.now block.now }
        ensures begins { self.new.words ≡ 0 }
    {
        let contents = certificate.contents();
        self.numbers.start(
            &contents.parameters,
            block.registers.as_slice(),
            block.orders.as_slice(),
        );
        put_facts(&mut self.groups, block.vectors.as_slice());
        let paid = self.numbers.value(usize::from(block.budget.register));
        self.paid_form = copy_of(paid.form);
        self.paid_range = paid.range;
        let second = self
            .numbers
            .value(usize::from(block.budget.second_register));
        self.second_form = copy_of(second.form);
        self.second_range = second.range;
        self.vlenb = contents.vlen.bytes() as u32;
        self.zones = memory_zones(image, &contents.parameters);
        self.vtype = block.vtype;
        self.budget = Some(block.budget);
        self.words = 0;
        self.way = Way::To {
            target: block.start,
        };
    }

    /// What is known where a block of the certificate begins, as [`Abstract::at_block`] says, in place of what was known. It
    /// takes no memory.
    pub fn set_block<B: Allocator, C: Allocator>(
        &mut self,
        certificate: &Certificate<C>,
        image: &Image<B>,
        index: usize,
    )
        requires { index < length certificate.now.blocks }
        ensures state { (block : Block) → slice_get certificate.now.blocks index ≡ Some block
            → self.new ≡ at_block_of image.now certificate.now block }
        ensures begins { self.new.words ≡ 0 }
    {
        let block = &certificate.contents().blocks[index];
        self.set(certificate, image, block);
    }

    /// What is known where a block of the certificate begins: what it states of registers, vl, vtype and the vector
    /// registers, with an atom for the number of each register and of vl there, and for each number that was passed.
    /// All memory that later calls need is taken here. An error is want of memory.
    pub fn at_block<B: Allocator, C: Allocator>(
        alloc: A,
        certificate: &Certificate<C>,
        image: &Image<B>,
        index: usize,
    ) -> Result<Abstract<A>, AllocError>
    where
        A: Copy,
        requires { index < length certificate.now.blocks }
        ensures state { IfOk result (λ a. (block : Block)
            → slice_get certificate.now.blocks index ≡ Some block
            → a ≡ at_block_of image.now certificate.now block) }
        ensures begins { IfOk result (λ a. a.words ≡ 0) }
    {
        let mut state = Abstract::with_room(alloc, certificate)?;
        state.set_block(certificate, image, index);
        Ok(state)
    }

    /// What is known where a run of the image begins, with arguments that match the certificate's parameters: ra is
    /// EXIT, sp the stack's end, a0 to a7 hold the arguments, and every other register and vl are 0. All memory that
    /// later calls need is taken here. An error is want of memory.
    #[tactic(auto, unfolding(crate::specs::Blocks::at_entry_of))]
    pub fn at_entry<B: Allocator, C: Allocator>(
        alloc: A,
        certificate: &Certificate<C>,
        image: &Image<B>,
    ) -> Result<Abstract<A>, AllocError>
    where
        A: Copy,
        ensures { IfOk result (λ a. a ≡ at_entry_of image.now certificate.now) }
    {
        let contents = certificate.contents();
        let numbers = entry_numbers(alloc, &contents.parameters)?;
        let paid = numbers.value(0);
        let paid_form = copy_of(paid.form);
        let paid_range = paid.range;
        Ok(Abstract {
            vlenb: contents.vlen.bytes() as u32,
            zones: memory_zones(image, &contents.parameters),
            vtype: None,
            groups: Vec::with_capacity(alloc, MOST_FACTS)?,
            budget: None,
            paid_form,
            paid_range,
            second_form: copy_of(numbers.value(0).form),
            second_range: paid_range,
            words: 0,
            way: Way::To {
                target: image.entry(),
            },
            numbers,
        })
    }
}

//! Words that a run met before, what they mean, and how they are carried out.
//!
//! Nothing is decoded ahead. A step fetches its word with the test of rights, and then looks up what
//! that very word means. Legality is judged again where vtype is no longer the same.

ghost use Rattle.std.specs.Prelude.{◌≡◌, ◌==◌, ◌<◌, IfSome, Some};
ghost use Rattle.region_mem.specs.Faults.{Steps};
ghost use Rattle.rv_decode.specs.Decode.{meaning_of};
ghost use Rattle.rv_decode.specs.declared.instructions.Insn.TheVariants.{Scalar as ScalarOf};
ghost use Rattle.scalar_core.specs.Ops.{insn_of};
ghost use Rattle.machine.specs.MachineStep.{decoded};
ghost use Rattle.vector_core.specs.Step.{IsJudged};

use region_mem::{Fault, Regions};
use rv_decode::{Insn, decode, vector_arithmetic};
use scalar_core::{Op, Scalar, step_op, step_scalar};
use std::alloc::{AllocError, Allocator, Global};
use std::marker::Model;
use vector_core::{VectorState, judge, step_known};
use vreg_groups::{Vconfig, Vtype};

/// How many words are remembered at once.
const ROOMS: usize = 256;

/// A word, and what it means. `op` is the flat form, where the instruction has one. `judged` is
/// what legality says of the instruction under `vtype`.
#[derive(Drop)]
struct Known {
    word: u32,
    op: Option<Op>,
    insn: Option<Insn>,
    vtype: u32,
    judged: Option<Vtype>,
}

impl Model for Known {
    ghost use Rattle.std.specs.Prelude.{◌≡◌, ℕ, IfSome, Some};
    ghost use Rattle.rv_decode.specs.Decode.{meaning_of};
    ghost use Rattle.rv_decode.specs.declared.instructions.Insn.TheVariants.{Scalar as ScalarOf};
    ghost use Rattle.scalar_core.specs.Ops.{insn_of};
    ghost use Rattle.vector_core.specs.Step.{IsJudged};

    ghost Value = { ℕ };

    ghost view = { λ k. k.word };

    ghost invariant = { λ k. (k.insn ≡ meaning_of k.word)
        × IfSome k.op (λ op. meaning_of k.word ≡ Some (ScalarOf (insn_of op)))
        × IfSome (meaning_of k.word) (λ insn. IsJudged k.vtype insn k.judged) };
}

/// The flat form of an instruction, where it has one.
fn flat(insn: &Option<Insn>) -> Option<Op>
    ensures { IfSome result (λ op. insn.now ≡ Some (ScalarOf (insn_of op))) }
{
    match insn {
        Some(Insn::Scalar(insn)) => Some(Op::of(*insn)),
        Some(_) | None => None,
    }
}

/// What legality says of an instruction, if it is one.
fn judge_any(config: &Vconfig, insn: &Option<Insn>) -> Option<Vtype>
    ensures { IfSome insn.now (λ insn. IsJudged config.now.vtype insn result) }
{
    match insn {
        Some(insn) => judge(config, insn),
        None => None,
    }
}

impl Known {
    /// A word, and what is known of it.
    fn new(
        word: u32,
        op: Option<Op>,
        insn: Option<Insn>,
        vtype: u32,
        judged: Option<Vtype>,
    ) -> Known
        requires meaning { insn ≡ meaning_of word }
        requires op { IfSome op (λ op. meaning_of word ≡ Some (ScalarOf (insn_of op))) }
        requires judged { IfSome (meaning_of word) (λ insn. IsJudged vtype insn judged) }
        ensures { result ≡ word }
    {
        Known {
            word,
            op,
            insn,
            vtype,
            judged,
        }
    }

    /// A word, decoded.
    fn of(word: u32) -> Known
        ensures { result ≡ word }
    {
        let insn = decode(word);
        let op = flat(&insn);
        let config = Vconfig::none();
        let judged = judge_any(&config, &insn);
        Known::new(word, op, insn, config.vtype, judged)
    }

    /// Another word. It stands apart, since a step would clear the locals of this at each word that is
    /// known.
    #[inline(never)]
    fn relearn(&mut self, word: u32)
        ensures { self.new ≡ word }
    {
        *self = Known::of(word);
    }

    /// The word 0, which has this meaning.
    fn zero(insn: &Option<Insn>) -> Known
        requires { insn.now ≡ meaning_of 0 }
        ensures { result ≡ 0 }
    {
        match insn {
            None => Known::new(0, None, None, 0, None),
            Some(_) => Known::of(0),
        }
    }

    /// Whether this is the word.
    #[inline(always)]
    fn is(&self, word: u32) -> bool
        ensures { result ≡ (self.now == word) }
    {
        self.word == word
    }

    /// The flat form of what it means, where there is one.
    #[inline(always)]
    fn op(&self) -> &Option<Op>
        ensures { IfSome result.now (λ op. meaning_of self.now ≡ Some (ScalarOf (insn_of op))) }
    {
        &self.op
    }

    /// What it means.
    #[inline(always)]
    fn insn(&self) -> &Option<Insn>
        ensures { result.now ≡ meaning_of self.now }
    {
        &self.insn
    }

    /// What legality says of the instruction under vtype as it stands.
    #[inline(always)]
    fn judged(&mut self, config: &Vconfig) -> Option<Vtype>
        ensures judged { IfSome (meaning_of self.old)
            (λ insn. IsJudged config.now.vtype insn result) }
        ensures kept { self.new ≡ self.old }
    {
        if self.vtype == config.vtype {
            return self.judged;
        }
        let judged = judge_any(config, &self.insn);
        self.vtype = config.vtype;
        self.judged = judged;
        judged
    }
}

/// The words that are remembered, each in the room of its address. Contracts see the words alone.
#[derive(Drop)]
pub(crate) struct Memo<A: Allocator = Global> {
    known: Vec<Known, A>,
}

impl<A: Allocator> Model for Memo<A> {
    ghost use Rattle.std.specs.Prelude.{◌≡◌, length, ℕ, List};
    ghost use Rattle.machine.specs.declared.memo.TheConstants.{ROOMS};

    ghost Value = { List ℕ };

    ghost view = { λ m. m.known.items };

    ghost invariant = { λ m. length m.known.items ≡ ROOMS };
}

/// The room of the word at an address: words that follow each other have rooms that do.
#[inline(always)]
fn room(pc: u32) -> usize
    ensures { result < ROOMS }
{
    (pc / 4) as usize % ROOMS
}

impl<A: Allocator> Memo<A> {
    /// A memory of the word 0 alone.
    pub(crate) fn new(alloc: A) -> Result<Memo<A>, AllocError> {
        let insn = decode(0);
        let mut known = Vec::with_capacity(alloc, ROOMS)?;
        'filling: while known.len() < ROOMS {
            known.push(Known::zero(&insn))?;
        }
        Ok(Memo { known })
    }

    /// Carries out the word at an address, and remembers what it means in place of the word that its
    /// room had.
    #[inline(always)]
    pub(crate) fn carry_out<const VLENB: usize>(
        &mut self,
        hart: &mut Scalar,
        vectors: &mut VectorState<VLENB>,
        memory: &mut Regions<A>,
        pc: u32,
        word: u32,
    ) -> Result<(), Fault>
        ensures { Steps (decoded VLENB word
            (record { hart = hart.old; vectors = vectors.old; memory = memory.old })
            (meaning_of word))
            (record { hart = hart.old; vectors = vectors.old; memory = memory.old })
            (record { hart = hart.new; vectors = vectors.new; memory = memory.new }) result }
    {
        let known = &mut self.known[room(pc)];
        if !known.is(word) {
            known.relearn(word);
        }
        if let Some(op) = known.op() {
            return step_op(hart, op, memory);
        }
        carry_out(hart, vectors, memory, known, word)
    }
}

/// Carries out a word that has no flat form, by the class of what it means. It stands apart, so that
/// the words that have one take none of its room.
#[inline(never)]
#[tactic(auto, unfolding(crate::specs::MachineStep::carry_out))]
fn carry_out<const VLENB: usize, A: Allocator>(
    hart: &mut Scalar,
    vectors: &mut VectorState<VLENB>,
    memory: &mut Regions<A>,
    known: &mut Known,
    word: u32,
) -> Result<(), Fault>
    requires { known.old ≡ word }
    ensures { Steps (decoded VLENB word
        (record { hart = hart.old; vectors = vectors.old; memory = memory.old }) (meaning_of word))
        (record { hart = hart.old; vectors = vectors.old; memory = memory.old })
        (record { hart = hart.new; vectors = vectors.new; memory = memory.new }) result }
{
    let config = vectors.config();
    let judged = known.judged(&config);
    match known.insn() {
        None => Err(Fault::Illegal(word)),
        Some(insn) => match insn {
            Insn::Scalar(_) | Insn::Csr(_) => {
                vectors.state_law();
                step_scalar(hart, *insn, memory, &config, VLENB)
            }
            Insn::VSet(_) | Insn::VMem(_) | vector_arithmetic!() => {
                step_known(vectors, hart, word, insn, judged, memory)
            }
        },
    }
}

//! What is known of a machine at an instruction of a kernel.
ghost use Rattle.std.specs.Prelude.{◌≡◌};
ghost use Rattle.abs_state.specs.declared.state.TheConstants.{MOST_WORDS};

use abs_domain::{Numbers, Value, Zone};
use arrayvec::ArrayVec;
use cert_note::{Budget, VectorFact};
use linear_facts::{Form, Range};
use rv_decode::{Condition, Reg};
use std::alloc::{Allocator, Global};
use std::marker::Model;

/// How many instructions a block may have.
pub const MOST_WORDS: u32 = 4096;

/// Law: how many instructions a block may have, in numbers.
pub fn block_limit_in_numbers()
    ensures { MOST_WORDS ≡ 4096 }
{}

/// Where an instruction leads, as far as it is known.
#[derive(Clone, Copy, PartialEq, Eq)]
pub enum Way {
    /// To one address.
    To {
        target: u32,
    },
    /// To an address that is not known.
    Unknown,
    /// To `target` where the branch is taken, else to `next`.
    Fork {
        condition: Condition,
        rs1: Reg,
        rs2: Reg,
        target: u32,
        next: u32,
    },
}

/// What is known of a machine at an instruction of a block: of registers and vl, of memory, vtype and the vector registers;
/// what the block may still take of its budget; and where the instruction that was taken last leads. All memory is taken
/// at the start. `A` is the allocator.
#[derive(Drop)]
pub struct Abstract<A: Allocator = Global> {
    pub(crate) vlenb: u32,
    pub(crate) numbers: Numbers<A>,
    pub(crate) zones: ArrayVec<Zone, 25>,
    pub(crate) vtype: Option<u8>,
    pub(crate) groups: Vec<VectorFact, A>,
    pub(crate) budget: Option<Budget>,
    /// The form and range, where the block begins, of the register that its budget names.
    pub(crate) paid_form: Form<8>,
    pub(crate) paid_range: Range,
    /// Those of its second register.
    pub(crate) second_form: Form<8>,
    pub(crate) second_range: Range,
    pub(crate) words: u32,
    pub(crate) way: Way,
}

impl<A: Allocator> Model for Abstract<A> {
    ghost use Rattle.std.specs.Prelude.{◌≡◌, ◌≤◌, ◌+◌, ◌*◌, length, vec_capacity};
    ghost use Rattle.vreg_groups.specs.VectorLength.{IsVlenb};
    ghost use Rattle.abs_state.specs.State.{AbstractView};
    ghost use Rattle.abs_state.specs.declared.state.TheConstants.{MOST_WORDS};

    ghost Value = { AbstractView };

    ghost view = { λ a. record {
      vlenb = a.vlenb;
      numbers = a.numbers;
      zones = a.zones.items;
      vtype = a.vtype;
      groups = a.groups.items;
      budget = a.budget;
      paid = record { form = a.paid_form; range = a.paid_range };
      second_paid = record { form = a.second_form; range = a.second_range };
      words = a.words;
      way = a.way;
    } };

    // An instruction makes at most two atoms and one fact on vector registers more.
    ghost invariant = { λ a. IsVlenb a.vlenb × (a.words ≤ MOST_WORDS)
        × (length a.numbers.atoms ≤ 73 + 2 * a.words)
        × (length a.groups.items ≤ 32 + a.words) × (32 + MOST_WORDS ≤ vec_capacity a.groups) };
}

impl<A: Allocator> Abstract<A> {
    /// What is known of the registers and of vl.
    pub fn numbers(&self) -> &Numbers<A>
        ensures { result.now ≡ self.now.numbers }
    {
        &self.numbers
    }

    /// Bits 7 to 0 of vtype, if they are known.
    pub fn vtype(&self) -> Option<u8>
        ensures { result ≡ self.now.vtype }
    {
        self.vtype
    }

    /// The facts on vector registers.
    pub fn groups(&self) -> &[VectorFact]
        ensures { result.now ≡ self.now.groups }
    {
        self.groups.as_slice()
    }

    /// The number, where the block begins, of the register that its budget names.
    pub fn paid(&self) -> Value<'_>
        ensures { result ≡ self.now.paid }
    {
        Value {
            form: &self.paid_form,
            range: self.paid_range,
        }
    }

    /// That of its second register.
    pub fn second_paid(&self) -> Value<'_>
        ensures { result ≡ self.now.second_paid }
    {
        Value {
            form: &self.second_form,
            range: self.second_range,
        }
    }

    /// How many instructions have been taken since the block began.
    pub fn words(&self) -> u32
        ensures { result ≡ self.now.words }
    {
        self.words
    }
}

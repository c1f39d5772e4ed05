//! What each vector instruction makes of what is known.
ghost use Rattle.std.specs.Prelude.{◌≡◌, ◌<◌, ◌≤◌, ◌+◌, length, IfErr, OnErr, OnOk, Ok, Err};
ghost use Rattle.abs_transfer.specs.Facts.{known_type as known_type_of};
ghost use Rattle.abs_domain.specs.Numbers.{with_result};
ghost use Rattle.abs_state.specs.After.{access_check as access_check_of, mask_numbers};
ghost use Rattle.abs_state.specs.After.{move_numbers, reach_of};
ghost use Rattle.abs_state.specs.After.{vector_after, vector_numbers, vset_after};

use crate::state::{Abstract, MOST_WORDS, Way};
use abs_domain::{Effect, MOST_ATOMS, Numbers, VL, Why, up_to};
use abs_transfer::{
    Reach, after_groups, after_vset, cut_groups, legal_check, reach_at, transfer_check,
};
use linear_facts::Range;
use rv_decode::{Insn, Reg, VMask, VMem, VMove, VSet, vector_arithmetic};
use std::alloc::Allocator;
use vreg_groups::{Vtype, type_in};

/// The vector type, where vtype is known.
fn known_type(vtype: Option<u8>) -> Option<Vtype>
    ensures { result ≡ known_type_of vtype }
{
    match vtype {
        None => None,
        Some(bits) => Vtype::from_bits(u32::from(bits)),
    }
}

/// A register gets a number in this range.
fn set_register<A: Allocator>(numbers: &mut Numbers<A>, rd: Reg, range: Range)
    requires { length numbers.old.atoms < MOST_ATOMS }
    ensures { numbers.new ≡ with_result rd (Effect.Fresh range) numbers.old }
{
    numbers.set_result(rd, Effect::Fresh { range });
}

/// What an instruction on masks makes of the registers' numbers: a count of bits is at most vl.
#[tactic(auto, unfolding(crate::specs::After::mask_numbers))]
fn after_mask<A: Allocator>(numbers: &mut Numbers<A>, insn: &VMask)
    requires { length numbers.old.atoms < MOST_ATOMS }
    ensures { numbers.new ≡ mask_numbers insn.now numbers.old }
{
    match *insn {
        VMask::Count { rd, .. } => {
            let most = numbers.range_at(VL).hi;
            set_register(numbers, rd, up_to(most));
        }
        VMask::First { rd, .. } => set_register(numbers, rd, Range::FULL),
        VMask::Logic { .. } | VMask::SetFirst { .. } | VMask::Iota { .. } | VMask::Index { .. } =>
            {}
    }
}

/// What a move between registers makes of the numbers of x registers.
#[tactic(auto, unfolding(crate::specs::After::move_numbers))]
fn after_move<A: Allocator>(numbers: &mut Numbers<A>, insn: &VMove)
    requires { length numbers.old.atoms < MOST_ATOMS }
    ensures { numbers.new ≡ move_numbers insn.now numbers.old }
{
    match *insn {
        VMove::ToScalar { rd, .. } => set_register(numbers, rd, Range::FULL),
        VMove::FromScalar { .. } | VMove::Whole { .. } => {}
    }
}

/// What a vector instruction makes of the registers' numbers.
#[tactic(auto, unfolding(crate::specs::After::vector_numbers), using(crate::proofs::Growth::mask_grows, crate::proofs::Growth::move_grows))]
fn after_vector<A: Allocator>(numbers: &mut Numbers<A>, insn: &Insn)
    requires { length numbers.old.atoms < MOST_ATOMS }
    ensures numbers { numbers.new ≡ vector_numbers insn.now numbers.old }
    ensures grows { length numbers.new.atoms ≤ length numbers.old.atoms + 1 }
{
    match insn {
        Insn::VMask(insn) => after_mask(numbers, insn),
        Insn::VMove(insn) => after_move(numbers, insn),
        Insn::Scalar(_)
        | Insn::Csr(_)
        | Insn::VSet(_)
        | Insn::VArith(_)
        | Insn::VPerm(_)
        | Insn::VReduce(_)
        | Insn::VMem(_) => {}
    }
}

impl<A: Allocator> Abstract<A> {
    /// Where the bytes of a vector load or store may lie, if that is known.
    #[tactic(auto, unfolding(crate::specs::After::reach_of))]
    pub fn reach(&self, insn: &VMem) -> Option<Reach>
        ensures { result ≡ reach_of self.now insn.now }
    {
        reach_at(
            &self.numbers,
            self.vlenb,
            &type_in(known_type(self.vtype)),
            self.groups.as_slice(),
            insn.place,
            &self.numbers.value(usize::from(insn.rs1.number())),
        )
    }

    /// The answer on what an instruction accesses.
    #[tactic(auto, unfolding(crate::specs::After::access_check))]
    fn access_check(&self, insn: &Insn) -> Result<(), Why>
        ensures { result ≡ access_check_of self.now insn.now }
    {
        match insn {
            Insn::VMem(insn) => transfer_check(
                &self.numbers,
                self.vlenb,
                &type_in(known_type(self.vtype)),
                self.groups.as_slice(),
                self.zones.as_slice(),
                insn,
            ),
            Insn::Scalar(_) | Insn::Csr(_) | Insn::VSet(_) | vector_arithmetic!() => Ok(()),
        }
    }

    /// An instruction that sets vtype and vl.
    #[tactic(auto, unfolding(crate::specs::After::vset_after))]
    pub(crate) fn take_vset(&mut self, pc: u32, insn: VSet)
        requires { self.old.words < MOST_WORDS }
        ensures state { self.new ≡ vset_after pc insn self.old }
        ensures counts { self.new.words ≡ self.old.words + 1 }
    {
        let least = self.numbers.range_at(VL).lo;
        let set = after_vset(&mut self.numbers, self.vlenb, self.vtype, insn);
        if !set.is_kept {
            cut_groups(self.vlenb, least, &mut self.groups);
        }
        self.vtype = set.vtype;
        self.words += 1;
        self.way = Way::To {
            target: pc.wrapping_add(4),
        };
    }

    /// A vector instruction of any other class. Where it is refused nothing is changed.
    #[tactic(auto, unfolding(crate::specs::After::vector_after, crate::specs::After::passed, abs_transfer::specs::Facts::groups_after))]
    pub(crate) fn take_vector(&mut self, pc: u32, insn: &Insn) -> Result<(), Why>
        requires { self.old.words < MOST_WORDS }
        ensures ok { OnOk result (vector_after pc insn.now self.old ≡ Ok self.new) }
        ensures counts { OnOk result (self.new.words ≡ self.old.words + 1) }
        ensures err { IfErr result (λ why. vector_after pc insn.now self.old ≡ Err why) }
        ensures kept { OnErr result (self.new ≡ self.old) }
    {
        legal_check(self.vtype, insn)?;
        self.access_check(insn)?;
        let vtype = known_type(self.vtype);
        after_groups(self.vlenb, vtype, &self.numbers, insn, &mut self.groups);
        after_vector(&mut self.numbers, insn);
        self.words += 1;
        self.way = Way::To {
            target: pc.wrapping_add(4),
        };
        Ok(())
    }
}

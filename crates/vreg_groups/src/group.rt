//! The group of registers that an operand of an instruction stands for.

ghost use Rattle.std.specs.Prelude.{◌≡◌, ◌≤◌, ◌+◌, ◌*◌, true, length, map, replicate};
ghost use Rattle.std.specs.List.{flat_map};
ghost use Rattle.vreg_groups.specs.Elements.{bytes_of, numbers_of};
ghost use Rattle.vreg_groups.specs.Group.{IsGroupInside, IsSize, group_of, body_bytes, body_of};
ghost use Rattle.vreg_groups.specs.Group.{mask_bytes_of, whole_of, written};
ghost use Rattle.vreg_groups.specs.Legality.{whole_count};
ghost use Rattle.vreg_groups.specs.VectorLength.{IsVlenb};
ghost use Rattle.vreg_groups.specs.VectorType.{vlmax_of};
ghost use Rattle.vreg_groups.specs.declared.vector_type.TheConstants.{MOST_ELEMENTS};

use crate::bytes::are_bytes;
use crate::elements::Element;
use crate::legality::whole_count;
use crate::policies::Policy;
use crate::registers::VregFile;
use crate::vector_type::Vtype;
use rv_decode::{Count, Eew, Reg, Width};
use std::marker::Model;

/// The registers of an operand, with the elements of the body that lie in them: they are within the 32 registers.
#[derive(Drop)]
pub struct Group<const VLENB: usize> {
    first: Reg,
    count: usize,
    bytes: usize,
    vl: usize,
}

impl<const VLENB: usize> Model for Group<VLENB> {
    ghost use Rattle.std.specs.Prelude.{◌≤◌, ◌+◌, ◌*◌};
    ghost use Rattle.vreg_groups.specs.Group.{Span};
    ghost use Rattle.vreg_groups.specs.VectorLength.{IsVlenb};

    ghost Value = { Span };

    ghost view = { λ g. record { first = g.first; count = g.count; bytes = g.bytes; vl = g.vl } };

    ghost invariant = { λ g. IsVlenb VLENB × (g.first + g.count ≤ 32) × (g.count ≤ 8)
        × (g.bytes * g.vl ≤ g.count * VLENB) };
}

impl<const VLENB: usize> Group<VLENB> {
    /// The group that begins at `first`, of elements of this width, under a vector type and length: that of an operand
    /// which is inside the registers, as those of a legal instruction are.
    #[tactic(auto, unfolding(crate::specs::Legality::count_of))]
    pub fn new(vtype: &Vtype, vl: usize, first: Reg, eew: Eew) -> Group<VLENB>
        requires vlenb { IsVlenb VLENB }
        requires length { vl ≤ vlmax_of VLENB vtype.now }
        requires inside { IsGroupInside vtype.now first eew }
        ensures { result ≡ group_of vtype.now vl first eew }
    {
        Group {
            first,
            count: vtype.group_count(eew),
            bytes: usize::from(vtype.eew_bits(eew)) / 8,
            vl,
        }
    }

    /// The register of a mask, as bytes: its body is those that hold the bits of vl elements.
    pub fn mask_bytes(vl: usize, first: Reg) -> Group<VLENB>
        requires vlenb { IsVlenb VLENB }
        requires bits { vl ≤ 8 * VLENB }
        ensures { result ≡ mask_bytes_of vl first }
    {
        Group {
            first,
            count: 1,
            bytes: 1,
            vl: vl.div_ceil(8),
        }
    }

    /// Whole registers as elements of this width, all of them in the body.
    pub fn whole(first: Reg, count: Count, width: Width) -> Group<VLENB>
        requires vlenb { IsVlenb VLENB }
        requires inside { first + whole_count count ≤ 32 }
        ensures { result ≡ whole_of VLENB first count width }
    {
        let count = whole_count(count);
        let bytes = usize::from(width.bytes());
        Group {
            first,
            count,
            bytes,
            vl: count * VLENB / bytes,
        }
    }

    /// How many elements the body has: they take no more than eight registers.
    pub fn vl(&self) -> usize
        ensures meaning { result ≡ self.now.vl }
        ensures bytes { self.now.bytes * result ≤ MOST_ELEMENTS }
    {
        self.vl
    }

    /// How many registers it has: all of them are among the 32, and the body lies in them.
    pub fn count(&self) -> usize
        ensures meaning { result ≡ self.now.count }
        ensures vlenb { IsVlenb VLENB }
        ensures inside { self.now.first + result ≤ 32 }
        ensures few { result ≤ 8 }
        ensures body { self.now.bytes * self.now.vl ≤ result * VLENB }
    {
        self.count
    }

    /// Reads the elements of the body.
    #[tactic(auto, unfolding(crate::specs::Group::body_of))]
    pub fn read<E: Element>(&self, registers: &VregFile<VLENB>, out: &mut [E])
        requires width { E.SIZE ≡ self.now.bytes }
        requires length { length out.old ≡ self.now.vl }
        ensures { map E.number out.new ≡ body_of VLENB self.now registers.now }
    {
        let _ = self.vl;
        registers.read_group(self.first, out);
    }

    /// Writes results to the group: the body has as many elements as `results`, and what follows it is the tail.
    #[tactic(auto, unfolding(crate::specs::Group::written))]
    pub fn write<E: Element>(
        &self,
        registers: &mut VregFile<VLENB>,
        results: &[E],
        active: &[bool],
        policy: Policy,
    )
        requires { E.SIZE ≡ self.now.bytes }
        ensures { registers.new ≡ written VLENB self.now policy (map E.number results.now)
            active.now registers.old }
    {
        registers.write_group(self.first, self.count, results, active, policy);
    }

    /// Writes results to the group, all of them active: the instruction is not masked.
    #[tactic(auto, unfolding(crate::specs::Group::written))]
    pub fn write_all<E: Element>(
        &self,
        registers: &mut VregFile<VLENB>,
        results: &[E],
        policy: Policy,
    )
        requires { E.SIZE ≡ self.now.bytes }
        ensures { registers.new ≡ written VLENB self.now policy (map E.number results.now)
            (replicate (length results.now) true) registers.old }
    {
        registers.write_group_all(self.first, self.count, results, policy);
    }

    /// The bytes of the elements of the body: from the group's first byte on.
    #[tactic(auto, unfolding(crate::specs::Group::body_bytes))]
    pub fn body_bytes<'a>(&self, registers: &'a VregFile<VLENB>) -> &'a [u8]
        ensures meaning { result.now ≡ body_bytes VLENB self.now registers.now }
        ensures size { length result.now ≡ self.now.bytes * self.now.vl }
        ensures numbers { body_of VLENB self.now registers.now
            ≡ numbers_of self.now.bytes self.now.vl result.now }
        ensures bytes { flat_map (bytes_of self.now.bytes) (body_of VLENB self.now registers.now)
            ≡ result.now }
    {
        let whole = registers.group(self.first, self.count);
        let bytes = &whole[..self.bytes * self.vl];
        are_bytes(bytes);
        bytes
    }

    /// Writes to the group the body whose elements have these bytes, all of them active.
    pub fn write_bytes(&self, registers: &mut VregFile<VLENB>, results: &[u8], policy: Policy)
        requires size { IsSize self.now.bytes }
        requires length { length results.now ≡ self.now.bytes * self.now.vl }
        ensures { registers.new ≡ written VLENB self.now policy
            (numbers_of self.now.bytes self.now.vl results.now) (replicate self.now.vl true)
            registers.old }
    {
        are_bytes(results);
        registers.write_group_bytes(self.first, self.count, results, policy.tail);
    }
}

//! Which vector instructions are legal under a vector type.

ghost use Rattle.std.specs.Prelude.{◌≡◌, ◌==◌, ◌+◌, ◌%◌, ◌^◌, ◌≤◌, ◌<◌, ◌⊎◌, ◌&&◌, Option, Some};
ghost use Rattle.std.specs.Prelude.{None, is_some, true, IfSome, if◌then◌else◌, ℕ};
ghost use Rattle.std.specs.List.{range_with_len};
ghost use Rattle.rv_decode.specs.Needs.{needs_of, needs_of_access, group, operands, second};
ghost use Rattle.rv_decode.specs.declared.extents.Eew.TheVariants.{Same};
ghost use Rattle.vreg_groups.specs.VectorLength.{IsConfig, IsLength, IsVlenb};
ghost use Rattle.vreg_groups.specs.VectorType.{type_in, vlmax_of, vtype_of};
ghost use Rattle.vreg_groups.specs.Legality.{eew_bits, is_common, is_in_a_row, emul_eighths};
ghost use Rattle.vreg_groups.specs.Legality.{group_count, whole_count, count_of, registers_of};
ghost use Rattle.vreg_groups.specs.Legality.{is_among, are_apart, is_width, is_group_legal};
ghost use Rattle.vreg_groups.specs.Legality.{is_operand_legal, element_bits, is_emul_whole};
ghost use Rattle.vreg_groups.specs.Legality.{may_overlap, is_overlap_legal, is_grouped};
ghost use Rattle.vreg_groups.specs.Legality.{is_pair_legal, keeps_mask, is_mask_legal};
ghost use Rattle.vreg_groups.specs.Legality.{is_present_legal, is_source_legal};
ghost use Rattle.vreg_groups.specs.Legality.{is_destination_legal, are_operands_legal, is_legal};
ghost use Rattle.vreg_groups.specs.Legality.{AreAllInside, IsInside};

use crate::vector_length::Vconfig;
use crate::vector_type::{Vtype, emul_eighths, type_in};
use rv_decode::{
    Addressing, Count, Direction, Eew, Extent, Insn, Operand, Operands, Reg, Sharing, Source,
    VArith, VMem, needs, vector_arithmetic,
};

/// Tells whether an instruction is legal under `config`.
///
/// The rules are those of the standard on EEW and EMUL, on the alignment of groups, on what a destination may overlap,
/// and on v0 ("Vector Operands", "Vector Masking"). With vill set, a vector instruction is legal only where all its
/// operands are whole registers. An instruction without vector operands always is.
#[tactic(auto, unfolding(crate::specs::Legality::is_legal))]
pub fn legal(config: &Vconfig, insn: &Insn) -> bool
    ensures { result ≡ is_legal config.now insn.now }
{
    are_operands_legal(config.vector_type(), &needs(insn))
}

/// The vector type that a legal instruction works under, or `None` where it is not legal.
///
/// Its operands are inside the registers, and vl fits the type.
#[tactic(auto, unfolding(crate::specs::Legality::is_legal))]
pub fn legal_type(config: &Vconfig, insn: &Insn) -> Option<Vtype>
    ensures meaning { result ≡ (if is_legal config.now insn.now
        then Some (type_in (vtype_of config.now.vtype)) else None) }
    ensures inside { IfSome result (λ t. AreAllInside t (needs_of insn.now)) }
    ensures length { IfSome result (λ t. (vlenb : ℕ) → IsVlenb vlenb → IsConfig vlenb config.now
        → IsLength vlenb t config.now.vl) }
{
    let vtype = config.vector_type();
    if is_plain(vtype, insn) || are_operands_legal(vtype, &needs(insn)) {
        Some(type_in(vtype))
    } else {
        None
    }
}

/// The same of a vector load or store.
#[tactic(auto, unfolding(crate::specs::Legality::is_legal, rv_decode::specs::Needs::needs_of))]
pub fn legal_access_type(config: &Vconfig, access: &VMem) -> Option<Vtype>
    ensures meaning { result ≡ (if is_legal config.now (Insn.VMem access.now)
        then Some (type_in (vtype_of config.now.vtype)) else None) }
    ensures inside { IfSome result (λ t. AreAllInside t (needs_of_access access.now)) }
    ensures length { IfSome result (λ t. (vlenb : ℕ) → IsVlenb vlenb → IsConfig vlenb config.now
        → IsLength vlenb t config.now.vl) }
{
    match config.vector_type() {
        Some(vtype) if is_plain_access(&vtype, access) => Some(vtype),
        _ => legal_type(config, &Insn::VMem(*access)),
    }
}

// Whether an instruction is one of the most common, and legal. Its operands, if it has any, have elements of one width, so
// how they overlap does not matter, and the answer needs no look at each pair.
#[inline(always)]
#[tactic(auto, unfolding(rv_decode::specs::Needs::needs_of, rv_decode::specs::Needs::needs_of_arith, crate::specs::Legality::are_operands_legal, crate::specs::Legality::is_destination_legal, crate::specs::Legality::is_common, crate::specs::Legality::is_in_a_row))]
fn is_plain(vtype: Option<Vtype>, insn: &Insn) -> bool
    ensures meaning { result ≡ (is_some vtype && is_common insn.now
        && are_operands_legal vtype (needs_of insn.now)) }
    ensures inside { result ≡ true → AreAllInside (type_in vtype) (needs_of insn.now) }
{
    let Some(vtype) = vtype else {
        return false;
    };
    match insn {
        Insn::VArith(
            VArith::Int {
                vd,
                vs2,
                b,
                masked,
                ..
            },
        ) => is_plain_operation(&vtype, *vd, *vs2, b, *masked),
        Insn::VMem(access) => is_plain_access(&vtype, access),
        Insn::VSet(_) => true,
        Insn::Scalar(_) | Insn::Csr(_) | vector_arithmetic!() => false,
    }
}

// Whether an operation on groups of SEW is legal.
#[inline(always)]
#[tactic(auto, using(crate::proofs::Plain::same_width), unfolding(crate::specs::Legality::are_operands_legal, crate::specs::Legality::is_destination_legal, crate::specs::Legality::is_source_legal))]
fn is_plain_operation(vtype: &Vtype, vd: Reg, vs2: Reg, b: &Source, masked: bool) -> bool
    ensures meaning { result ≡ are_operands_legal (Some vtype.now) (operands (group Same vd)
        (group Same vs2) (second b.now) masked Sharing.ByWidth) }
    ensures inside { result ≡ true → AreAllInside vtype.now (operands (group Same vd)
        (group Same vs2) (second b.now) masked Sharing.ByWidth) }
{
    let destination = same_group(vd);
    is_operand_legal(Some(*vtype), &destination)
        && is_operand_legal(Some(*vtype), &same_group(vs2))
        && is_second_legal(vtype, b)
        && is_mask_legal(masked, Sharing::ByWidth, &destination)
}

// The group of SEW that begins at this register.
#[inline(always)]
fn same_group(first: Reg) -> Operand
    ensures { result ≡ record { first = first; extent = Extent.Group Same } }
{
    Operand {
        first,
        extent: Extent::Group(Eew::Same),
    }
}

// Whether the second operand is legal by itself.
#[inline(always)]
fn is_second_legal(vtype: &Vtype, b: &Source) -> bool
    ensures meaning { result ≡ is_present_legal (Some vtype.now) (second b.now) }
    ensures inside { result ≡ true → IfSome (second b.now) (IsInside vtype.now) }
{
    match b {
        Source::Vector(vs1) => is_operand_legal(Some(*vtype), &same_group(*vs1)),
        Source::Scalar(_) | Source::Immediate(_) => true,
    }
}

// Whether a load or store is one of elements that lie one after another, and legal.
#[inline(always)]
#[tactic(auto, unfolding(rv_decode::specs::Needs::needs_of_access, rv_decode::specs::Needs::needs_of_place, rv_decode::specs::Needs::access_operands, crate::specs::Legality::is_in_a_row, crate::specs::Legality::are_operands_legal, crate::specs::Legality::is_destination_legal, crate::specs::Legality::is_source_legal))]
fn is_plain_access(vtype: &Vtype, access: &VMem) -> bool
    ensures meaning { result ≡ (is_in_a_row access.now.place && are_operands_legal (Some vtype.now)
        (needs_of_access access.now)) }
    ensures inside { result ≡ true → AreAllInside vtype.now (needs_of_access access.now) }
{
    let place = access.place;
    match place {
        Addressing::Unit { width, masked } => {
            let values = Operand {
                first: access.values,
                extent: Extent::Group(Eew::Fixed(width)),
            };
            is_operand_legal(Some(*vtype), &values)
                && match access.direction {
                    Direction::Load => is_mask_legal(masked, Sharing::ByWidth, &values),
                    Direction::Store => true,
                }
        }
        Addressing::Strided { .. }
        | Addressing::Indexed { .. }
        | Addressing::Mask
        | Addressing::Whole { .. } => false,
    }
}

/// Tells whether operands are legal under a vector type, `None` with vill set: each by itself, and then the destination beside
/// the sources and the mask, by the rules of [`legal`].
#[inline(never)]
#[tactic(auto, unfolding(crate::specs::Legality::are_operands_legal))]
pub fn are_operands_legal(vtype: Option<Vtype>, operands: &Operands) -> bool
    ensures meaning { result ≡ are_operands_legal vtype operands.now }
    ensures inside { result ≡ true → AreAllInside (type_in vtype) operands.now }
{
    is_present_legal(vtype, &operands.destination)
        && is_present_legal(vtype, &operands.vs2)
        && is_present_legal(vtype, &operands.vs1)
        && is_destination_legal(vtype, operands)
}

fn is_present_legal(vtype: Option<Vtype>, operand: &Option<Operand>) -> bool
    ensures meaning { result ≡ is_present_legal vtype operand.now }
    ensures inside { result ≡ true → IfSome operand.now (IsInside (type_in vtype)) }
{
    match operand {
        None => true,
        Some(operand) => is_operand_legal(vtype, operand),
    }
}

// The rules on an operand by itself.
#[inline(always)]
#[tactic(auto, unfolding(crate::specs::Legality::is_operand_legal, crate::specs::Legality::count_of, crate::specs::Legality::element_bits))]
fn is_operand_legal(vtype: Option<Vtype>, operand: &Operand) -> bool
    ensures meaning { result ≡ is_operand_legal vtype operand.now.extent operand.now.first }
    ensures inside { result ≡ true → IsInside (type_in vtype) operand.now }
{
    let first = usize::from(operand.first.number());
    let extent = operand.extent;
    match extent {
        Extent::Whole(count) => is_multiple(first, whole_count(count)),
        Extent::Group(eew) => match vtype {
            None => false,
            Some(vtype) => is_group_legal(&vtype, eew, first),
        },
        Extent::Single(eew) => match vtype {
            None => false,
            Some(vtype) => is_width(usize::from(vtype.eew_bits(eew))),
        },
        Extent::Mask => vtype.is_some(),
    }
}

// EEW and EMUL are in range, and the group stands at a multiple of its size.
#[inline(always)]
#[tactic(auto, using(crate::specs::SizeLemmas::group_ends, crate::specs::SizeLemmas::group_small))]
fn is_group_legal(vtype: &Vtype, eew: Eew, first: usize) -> bool
    requires { first < 32 }
    ensures meaning { result ≡ is_group_legal vtype.now eew first }
    ensures inside { result ≡ true → (first + group_count vtype.now eew ≤ 32)
        × (8 ≤ eew_bits vtype.now.sew eew) × (eew_bits vtype.now.sew eew ≤ 32)
        × (group_count vtype.now eew ≤ 8) }
{
    is_width(usize::from(vtype.eew_bits(eew)))
        && emul_eighths(vtype, eew) <= 64
        && is_multiple(first, vtype.group_count(eew))
}

// Whether a register's number is a multiple of how many registers a group has. These are few, and to divide by them
// takes no division.
#[inline(always)]
fn is_multiple(first: usize, count: usize) -> bool
    requires { 0 < count }
    ensures { result ≡ (first % count == 0) }
{
    match count {
        1 => true,
        2 => first % 2 == 0,
        4 => first % 4 == 0,
        8 => first % 8 == 0,
        _ => first % count == 0,
    }
}

#[tactic(auto, unfolding(crate::specs::Legality::is_destination_legal))]
fn is_destination_legal(vtype: Option<Vtype>, operands: &Operands) -> bool
    ensures { result ≡ is_destination_legal vtype operands.now operands.now.destination }
{
    match &operands.destination {
        None => true,
        Some(destination) => {
            is_source_legal(vtype, operands.sharing, destination, &operands.vs2)
                && is_source_legal(vtype, operands.sharing, destination, &operands.vs1)
                && is_mask_legal(operands.is_masked, operands.sharing, destination)
        }
    }
}

#[tactic(auto, unfolding(crate::specs::Legality::is_source_legal))]
fn is_source_legal(
    vtype: Option<Vtype>,
    sharing: Sharing,
    destination: &Operand,
    source: &Option<Operand>,
) -> bool
    ensures { result ≡ is_source_legal vtype sharing destination.now source.now }
{
    match source {
        None => true,
        Some(source) => is_pair_legal(vtype, sharing, destination, source),
    }
}

// The rules on a destination and a source.
#[tactic(auto, unfolding(crate::specs::Legality::is_pair_legal))]
fn is_pair_legal(
    vtype: Option<Vtype>,
    sharing: Sharing,
    destination: &Operand,
    source: &Operand,
) -> bool
    ensures { result ≡ is_pair_legal vtype sharing destination.now source.now }
{
    !is_grouped(destination.extent)
        || !is_grouped(source.extent)
        || are_apart(vtype, destination, source)
        || is_overlap_legal(vtype, sharing, destination, source)
}

fn is_grouped(extent: Extent) -> bool
    ensures { result ≡ is_grouped extent }
{
    match extent {
        Extent::Group(_) | Extent::Mask => true,
        Extent::Single(_) | Extent::Whole(_) => false,
    }
}

// No register belongs to both.
#[tactic(auto, unfolding(crate::specs::Legality::registers_of))]
fn are_apart(vtype: Option<Vtype>, a: &Operand, b: &Operand) -> bool
    ensures { result ≡ are_apart (registers_of vtype a.now) (registers_of vtype b.now) }
{
    are_ranges_apart(
        usize::from(a.first.number()),
        count_of(vtype, a.extent),
        usize::from(b.first.number()),
        count_of(vtype, b.extent),
    )
}

// Two ranges of register numbers, given by their first numbers and lengths, have none in common.
#[tactic(auto, using(crate::proofs::Ranges::are_apart_ranges))]
fn are_ranges_apart(a: usize, a_count: usize, b: usize, b_count: usize) -> bool
    requires a_fits { a + a_count < 2 ^ 32 }
    requires b_fits { b + b_count < 2 ^ 32 }
    requires a_some { 0 < a_count }
    requires b_some { 0 < b_count }
    ensures { result ≡ are_apart (range_with_len a a_count) (range_with_len b b_count) }
{
    a + a_count <= b || b + b_count <= a
}

// The number after that of an operand's last register.
fn end_of(vtype: Option<Vtype>, operand: &Operand) -> usize
    ensures { result ≡ operand.now.first + count_of vtype operand.now.extent }
{
    usize::from(operand.first.number()) + count_of(vtype, operand.extent)
}

#[tactic(auto, unfolding(crate::specs::Legality::is_overlap_legal))]
fn is_overlap_legal(
    vtype: Option<Vtype>,
    sharing: Sharing,
    destination: &Operand,
    source: &Operand,
) -> bool
    ensures { result ≡ is_overlap_legal vtype sharing destination.now source.now }
{
    match vtype {
        None => true,
        Some(vtype) => match sharing {
            Sharing::ByWidth => may_overlap(&vtype, destination, source),
            Sharing::Nothing => false,
        },
    }
}

// Whether widths, and where the groups begin and end, let a destination overlap a source.
#[tactic(auto, unfolding(crate::specs::Legality::may_overlap))]
fn may_overlap(vtype: &Vtype, destination: &Operand, source: &Operand) -> bool
    ensures { result ≡ may_overlap vtype.now destination.now source.now }
{
    let written = element_bits(vtype, destination.extent);
    let read = element_bits(vtype, source.extent);
    written == read
        || written < read && destination.first.number() == source.first.number()
        || read < written
            && is_emul_whole(vtype, source.extent)
            && end_of(Some(*vtype), destination) == end_of(Some(*vtype), source)
}

#[tactic(auto, unfolding(crate::specs::Legality::is_emul_whole))]
fn is_emul_whole(vtype: &Vtype, extent: Extent) -> bool
    ensures { result ≡ is_emul_whole vtype.now extent }
{
    match extent {
        Extent::Group(eew) => emul_eighths(vtype, eew) >= 8,
        Extent::Single(_) | Extent::Mask | Extent::Whole(_) => true,
    }
}

// Whether a masked instruction leaves its mask alone.
#[inline(always)]
#[tactic(auto, unfolding(crate::specs::Legality::is_mask_legal))]
fn is_mask_legal(masked: bool, sharing: Sharing, destination: &Operand) -> bool
    ensures { (vtype : Option Vtype) → result ≡ is_mask_legal vtype masked sharing destination.now }
{
    !masked || !keeps_mask(sharing, destination.extent) || !has_v0(destination)
}

// Whether an operand covers v0.
#[inline(always)]
#[tactic(auto, unfolding(crate::specs::Legality::registers_of))]
fn has_v0(operand: &Operand) -> bool
    ensures { (vtype : Option Vtype) → result ≡ is_among 0 (registers_of vtype operand.now) }
{
    operand.first.number() == 0
}

#[inline(always)]
#[tactic(auto, unfolding(crate::specs::Legality::keeps_mask))]
fn keeps_mask(sharing: Sharing, extent: Extent) -> bool
    ensures { result ≡ keeps_mask sharing extent }
{
    match sharing {
        Sharing::Nothing => true,
        Sharing::ByWidth => match extent {
            Extent::Group(_) => true,
            Extent::Single(_) | Extent::Mask | Extent::Whole(_) => false,
        },
    }
}

// How many registers an operand covers.
#[tactic(auto, unfolding(crate::specs::Legality::count_of))]
fn count_of(vtype: Option<Vtype>, extent: Extent) -> usize
    ensures meaning { result ≡ count_of vtype extent }
    ensures positive { 0 < result }
    ensures bound { result ≤ 256 }
{
    match extent {
        Extent::Whole(count) => whole_count(count),
        Extent::Group(eew) => match vtype {
            None => 1,
            Some(vtype) => vtype.group_count(eew),
        },
        Extent::Single(_) | Extent::Mask => 1,
    }
}

/// How many registers a whole-register form has.
#[inline(always)]
pub fn whole_count(count: Count) -> usize
    ensures meaning { result ≡ whole_count count }
    ensures positive { 0 < result }
    ensures bound { result ≤ 8 }
{
    match count {
        Count::One => 1,
        Count::Two => 2,
        Count::Four => 4,
        Count::Eight => 8,
    }
}

#[inline(always)]
#[tactic(auto, unfolding(crate::specs::Legality::is_width))]
fn is_width(bits: usize) -> bool
    ensures meaning { result ≡ is_width bits }
    ensures bound { result ≡ true → (8 ≤ bits) × (bits ≤ 32) }
{
    8 <= bits && bits <= 32
}

// The width of an operand's elements, in bits.
#[tactic(auto, unfolding(crate::specs::Legality::element_bits))]
fn element_bits(vtype: &Vtype, extent: Extent) -> usize
    ensures { result ≡ element_bits vtype.now extent }
{
    match extent {
        Extent::Group(eew) | Extent::Single(eew) => usize::from(vtype.eew_bits(eew)),
        Extent::Mask => 1,
        Extent::Whole(_) => 8,
    }
}

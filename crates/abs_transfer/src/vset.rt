//! What each instruction that sets vtype and vl makes of what is known.
ghost use Rattle.std.specs.Prelude.{◌≡◌, ◌<◌, ◌≤◌, ◌+◌, length, Some};
ghost use Rattle.vreg_groups.specs.VectorLength.{IsVlenb};
ghost use Rattle.vreg_groups.specs.VectorType.{vtype_of};
ghost use Rattle.abs_transfer.specs.Vset.{asked_of, configured, excess_range};
ghost use Rattle.abs_transfer.specs.Vset.{has_vlmax as has_vlmax_of};
ghost use Rattle.linear_facts.specs.Forms.{number_form};
ghost use Rattle.abs_domain.specs.Numbers.{value_at};
ghost use Rattle.abs_domain.specs.Values.{just as just_of};
ghost use Rattle.abs_transfer.specs.Vset.{kept_or_zero, known_request, lesser_range, limited};
ghost use Rattle.abs_transfer.specs.Vset.{limited_by};
ghost use Rattle.abs_transfer.specs.Vset.{supported_request};
ghost use Rattle.abs_transfer.specs.Vset.{unknown_length, unknown_request, wanted_of};
ghost use Rattle.abs_transfer.specs.Vset.{with_length_in};

use abs_domain::{MOST_ATOMS, Numbers, VL, copy_of, just, known, up_to, whole_atom};
use linear_facts::{Form, Range, Split};
use rv_decode::{Reg, VSet};
use std::alloc::Allocator;
use vreg_groups::Vtype;

/// The application vector length that an instruction asks for.
#[derive(Clone, Copy, PartialEq, Eq)]
pub enum Asked {
    /// The length that vl has.
    Keep,
    /// VLMAX.
    Greatest,
    /// A register's number.
    Register { register: Reg },
    /// A number that stands in the instruction.
    Number { number: u32 },
}

/// What an instruction asks for, as far as it is known.
#[derive(Clone, Copy, PartialEq, Eq)]
pub struct Wanted {
    /// The register that gets vl.
    pub rd: Reg,
    pub length: Asked,
    /// The bits of the new vtype.
    pub vtype: Option<u32>,
}

/// What an instruction sets: vtype, if it is known. Whether vl is what it was.
#[derive(Clone, Copy, PartialEq, Eq)]
pub struct Set {
    pub vtype: Option<u8>,
    pub is_kept: bool,
}

/// The application vector length: x[rs1]; with rs1 = x0 the greatest, or the present vl where rd is x0 too.
fn length_asked(rd: Reg, rs1: Reg) -> Asked
    ensures { result ≡ asked_of rd rs1 }
{
    if rs1.number() != 0 {
        Asked::Register { register: rs1 }
    } else if rd.number() != 0 {
        Asked::Greatest
    } else {
        Asked::Keep
    }
}

/// The range of the lesser of a number and another one.
fn lesser(most: u32, range: Range) -> Range
    ensures { result ≡ lesser_range most range }
{
    Range {
        lo: range.lo.min(most),
        hi: range.hi.min(most),
    }
}

/// The range of what a number is above another one.
fn excess(most: u32, range: Range) -> Range
    ensures { result ≡ excess_range most range }
{
    Range {
        lo: range.lo.saturating_sub(most),
        hi: range.hi.saturating_sub(most),
    }
}

/// The type that is known has this VLMAX.
#[tactic(auto, unfolding(crate::specs::Vset::has_vlmax))]
fn has_vlmax(vlenb: u32, known: Option<u8>, vlmax: u32) -> bool
    requires { IsVlenb vlenb }
    ensures { result ≡ has_vlmax_of vlenb known vlmax }
{
    match known {
        None => false,
        Some(bits) => match Vtype::from_bits(u32::from(bits)) {
            None => false,
            Some(before) => before.vlmax(vlenb as usize) == vlmax,
        },
    }
}

/// What an instruction asks for.
#[tactic(auto, unfolding(crate::specs::Vset::wanted_of))]
fn request_of<A: Allocator>(numbers: &Numbers<A>, insn: VSet) -> Wanted
    ensures { result ≡ wanted_of insn numbers.now }
{
    match insn {
        VSet::Vsetvli { rd, rs1, vtype } => Wanted {
            rd,
            length: length_asked(rd, rs1),
            vtype: Some(vtype),
        },
        VSet::Vsetivli { rd, avl, vtype } => Wanted {
            rd,
            length: Asked::Number { number: avl },
            vtype: Some(vtype),
        },
        VSet::Vsetvl { rd, rs1, rs2 } => Wanted {
            rd,
            length: length_asked(rd, rs1),
            vtype: known(numbers.range_at(usize::from(rs2.number()))),
        },
    }
}

/// vl is a new atom in the first range. A number that is an atom as a whole is the sum of that and of one in the other.
#[tactic(auto, unfolding(crate::specs::Vset::limited_by, crate::specs::Vset::split_into))]
fn limit<A: Allocator>(numbers: &mut Numbers<A>, whole: Option<u16>, vl: Range, rest: Range)
    requires { length numbers.old.atoms + 1 < MOST_ATOMS }
    ensures { numbers.new ≡ limited_by whole vl rest numbers.old }
{
    match whole {
        None => numbers.set_fresh(VL, vl),
        Some(atom) => {
            let first = numbers.push_atom(vl);
            let second = numbers.push_atom(rest);
            numbers.split_atom(atom, Split { first, second });
            numbers.set_value(VL, Form::atom(first), vl);
        }
    }
}

/// vl is a new number in a range, and vtype is not known.
fn set_unknown<A: Allocator>(numbers: &mut Numbers<A>, range: Range) -> Set
    requires { length numbers.old.atoms + 1 < MOST_ATOMS }
    ensures { unknown_length range numbers.old
        ≡ record { numbers = numbers.new; vtype = result.vtype; is_kept = result.is_kept } }
{
    numbers.set_fresh(VL, range);
    Set {
        vtype: None,
        is_kept: false,
    }
}

/// vtype is known.
fn set_to(bits: u8, is_kept: bool) -> Set
    ensures { result ≡ record { vtype = Some bits; is_kept = is_kept } }
{
    Set {
        vtype: Some(bits),
        is_kept,
    }
}

/// vl was kept, or is 0.
fn set_kept_or_zero<A: Allocator>(numbers: &mut Numbers<A>) -> Set
    requires { length numbers.old.atoms + 1 < MOST_ATOMS }
    ensures { kept_or_zero numbers.old
        ≡ record { numbers = numbers.new; vtype = result.vtype; is_kept = result.is_kept } }
{
    let hi = numbers.range_at(VL).hi;
    set_unknown(numbers, up_to(hi))
}

/// vl is the lesser of VLMAX and a register's number.
#[tactic(auto, unfolding(crate::specs::Vset::limited))]
fn limit_to_register<A: Allocator>(numbers: &mut Numbers<A>, vlmax: u32, register: Reg)
    requires { length numbers.old.atoms + 1 < MOST_ATOMS }
    ensures { numbers.new ≡ limited vlmax (value_at numbers.old register) numbers.old }
{
    let length = numbers.value(usize::from(register.number()));
    let whole = whole_atom(length.form);
    let range = length.range;
    limit(numbers, whole, lesser(vlmax, range), excess(vlmax, range));
}

/// vl is the lesser of VLMAX and a number.
#[tactic(auto, unfolding(crate::specs::Vset::limited))]
fn limit_to_number<A: Allocator>(numbers: &mut Numbers<A>, vlmax: u32, number: u32)
    requires { length numbers.old.atoms + 1 < MOST_ATOMS }
    ensures { numbers.new ≡ limited vlmax
        record { form = number_form number; range = just_of number } numbers.old }
{
    let whole = whole_atom(&Form::number(number));
    let range = just(number);
    limit(numbers, whole, lesser(vlmax, range), excess(vlmax, range));
}

/// A supported type with these bits and this VLMAX.
#[tactic(auto, unfolding(crate::specs::Vset::supported_request))]
fn set_supported<A: Allocator>(
    numbers: &mut Numbers<A>,
    vlenb: u32,
    known: Option<u8>,
    asked: Asked,
    bits: u8,
    vlmax: u32,
) -> Set
    requires vlenb { IsVlenb vlenb }
    requires room { length numbers.old.atoms + 1 < MOST_ATOMS }
    ensures { supported_request vlenb known asked bits vlmax numbers.old
        ≡ record { numbers = numbers.new; vtype = result.vtype; is_kept = result.is_kept } }
{
    match asked {
        Asked::Keep => if has_vlmax(vlenb, known, vlmax) {
            set_to(bits, true)
        } else {
            set_kept_or_zero(numbers)
        },
        Asked::Greatest => {
            numbers.set_fresh(VL, just(vlmax));
            set_to(bits, false)
        }
        Asked::Register { register } => {
            limit_to_register(numbers, vlmax, register);
            set_to(bits, false)
        }
        Asked::Number { number } => {
            limit_to_number(numbers, vlmax, number);
            set_to(bits, false)
        }
    }
}

/// Bits that are known: vl is 0 where they are no supported type's.
#[tactic(auto, unfolding(crate::specs::Vset::known_request), using(crate::specs::ConfigurationLemmas::type_fits))]
fn set_known<A: Allocator>(
    numbers: &mut Numbers<A>,
    vlenb: u32,
    known: Option<u8>,
    asked: Asked,
    bits: u32,
) -> Set
    requires vlenb { IsVlenb vlenb }
    requires room { length numbers.old.atoms + 1 < MOST_ATOMS }
    ensures { known_request vlenb known asked bits (vtype_of bits) numbers.old
        ≡ record { numbers = numbers.new; vtype = result.vtype; is_kept = result.is_kept } }
{
    match Vtype::from_bits(bits) {
        None => {
            numbers.set_value(VL, Form::number(0), just(0));
            Set {
                vtype: None,
                is_kept: false,
            }
        }
        Some(vtype) => {
            let vlmax = vtype.vlmax(vlenb as usize);
            set_supported(numbers, vlenb, known, asked, bits as u8, vlmax)
        }
    }
}

/// What an instruction asks for becomes vl and vtype.
#[tactic(auto, unfolding(crate::specs::Vset::configured, crate::specs::Vset::unknown_request))]
fn configure<A: Allocator>(
    numbers: &mut Numbers<A>,
    vlenb: u32,
    known: Option<u8>,
    asked: Asked,
    bits: Option<u32>,
) -> Set
    requires vlenb { IsVlenb vlenb }
    requires room { length numbers.old.atoms + 1 < MOST_ATOMS }
    ensures { configured vlenb known asked bits numbers.old
        ≡ record { numbers = numbers.new; vtype = result.vtype; is_kept = result.is_kept } }
{
    match bits {
        Some(bits) => set_known(numbers, vlenb, known, asked, bits),
        None => match asked {
            Asked::Keep => set_kept_or_zero(numbers),
            Asked::Greatest | Asked::Register { .. } | Asked::Number { .. } => {
                set_unknown(numbers, up_to(8 * vlenb))
            }
        },
    }
}

/// A register gets vl's number. x0 stays 0.
#[tactic(auto, unfolding(crate::specs::Vset::with_length_in, abs_domain::specs::Numbers::with_result, abs_domain::specs::Numbers::with_effect))]
fn set_length_in<A: Allocator>(numbers: &mut Numbers<A>, rd: Reg)
    ensures { numbers.new ≡ with_length_in rd numbers.old }
{
    let number = usize::from(rd.number());
    if number != 0 {
        let length = numbers.value(VL);
        let form = copy_of(length.form);
        let range = length.range;
        numbers.set_value(number, form, range);
    }
}

/// What an instruction that sets vtype and vl makes of the numbers, where vtype is known to have these bits or is not
/// known. The answer is vtype next, if it is known, and whether vl stays.
pub fn after_vset<A: Allocator>(
    numbers: &mut Numbers<A>,
    vlenb: u32,
    known: Option<u8>,
    insn: VSet,
) -> Set
    requires vlenb { IsVlenb vlenb }
    requires room { length numbers.old.atoms + 1 < MOST_ATOMS }
    ensures numbers { let w = wanted_of insn numbers.old in
        let c = configured vlenb known w.length w.vtype numbers.old in
        numbers.new ≡ with_length_in w.rd c.numbers }
    ensures vtype { let w = wanted_of insn numbers.old in
        result.vtype ≡ (configured vlenb known w.length w.vtype numbers.old).vtype }
    ensures kept { let w = wanted_of insn numbers.old in
        result.is_kept ≡ (configured vlenb known w.length w.vtype numbers.old).is_kept }
    ensures grows { length numbers.new.atoms ≤ length numbers.old.atoms + 2 }
{
    let wanted = request_of(numbers, insn);
    let set = configure(numbers, vlenb, known, wanted.length, wanted.vtype);
    set_length_in(numbers, wanted.rd);
    set
}

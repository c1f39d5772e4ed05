//! What is known of the elements of groups of vector registers.
ghost use Rattle.std.specs.Prelude.{◌≡◌, ◌+◌, ◌*◌, ◌%◌, ◌^◌, ◌<◌, ◌≤◌, ◌++◌, filter, find, length};
ghost use Rattle.std.specs.Prelude.{map, option_to_list, vec_capacity};
ghost use Rattle.std.specs.Option.{option_map};
ghost use Rattle.rv_decode.specs.Needs.{needs_of};
ghost use Rattle.vreg_groups.specs.Legality.{count_of as count_of_of};
ghost use Rattle.vreg_groups.specs.VectorLength.{IsVlenb};
ghost use Rattle.rv_decode.specs.Instructions.{bits_of_width};
ghost use Rattle.abs_transfer.specs.Facts.{all_of_bits as all_of_bits_of};
ghost use Rattle.abs_transfer.specs.Facts.{is_source as is_source_of};
ghost use Rattle.abs_transfer.specs.Facts.{source_range as source_range_of};
ghost use Rattle.abs_transfer.specs.Facts.{low_range as low_range_of};
ghost use Rattle.abs_transfer.specs.Facts.{second_range as second_range_of};
ghost use Rattle.abs_transfer.specs.Facts.{left_elements as left_elements_of};
ghost use Rattle.abs_transfer.specs.Facts.{right_elements as right_elements_of};
ghost use Rattle.abs_transfer.specs.Facts.{remainder_by as remainder_by_of};
ghost use Rattle.abs_transfer.specs.Facts.{int_range as int_range_of};
ghost use Rattle.abs_transfer.specs.Facts.{narrow_range as narrow_range_of};
ghost use Rattle.abs_transfer.specs.Facts.{unless_masked as unless_masked_of};
ghost use Rattle.abs_transfer.specs.Facts.{arith_range as arith_range_of};
ghost use Rattle.abs_transfer.specs.Facts.{mask_range as mask_range_of};
ghost use Rattle.abs_transfer.specs.Facts.{place_range as place_range_of};
ghost use Rattle.abs_transfer.specs.Facts.{stated_range as stated_range_of, fact_if as fact_if_of};
ghost use Rattle.abs_transfer.specs.Facts.{stated_by as stated_by_of};
ghost use Rattle.abs_transfer.specs.Facts.{is_apart as is_apart_of, untouched as untouched_of};
ghost use Rattle.abs_transfer.specs.Facts.{elements_in as elements_in_of, counted as counted_of};
ghost use Rattle.abs_transfer.specs.Facts.{is_lasting as is_lasting_of};
ghost use Rattle.abs_transfer.specs.Facts.{cut_groups as cut_groups_of};
ghost use Rattle.abs_domain.specs.Numbers.{value_at};
ghost use Rattle.abs_domain.specs.Values.{just as just_of};

use abs_domain::{Numbers, VL, fitting, just, known, multiple_range, up_to};
use cert_note::VectorFact;
use linear_facts::Range;
use rv_decode::{
    Eew, Extent, Insn, IntOp, NarrowOp, Operand, Reg, Source, VArith, VMask, Width, needs,
};
use std::alloc::Allocator;
use vreg_groups::{Vtype, whole_count};

/// How many bits an element has.
fn bits_of(width: Width) -> u32
    ensures meaning { result ≡ bits_of_width width }
    ensures bound { result ≤ 32 }
{
    u32::from(width.bits())
}

/// All numbers of at most 32 bits.
fn all_of_bits(bits: u32) -> Range
    requires { bits ≤ 32 }
    ensures { result ≡ all_of_bits_of bits }
{
    Range {
        lo: 0,
        hi: ((1_u64 << bits) - 1) as u32,
    }
}

/// Whether a fact speaks of this group, and of all its elements below vl.
#[tactic(auto, unfolding(crate::specs::Facts::is_source))]
fn is_source(vl: Range, first: Reg, width: u32, registers: usize, fact: &VectorFact) -> bool
    ensures { result ≡ is_source_of vl first width registers fact.now }
{
    fact.register == first.number()
        && u32::from(fact.width) == width
        && usize::from(fact.registers) == registers
        && (fact.count == 0 || vl.hi <= u32::from(fact.count))
}

/// The first fact that speaks of a group and of all its elements below vl, if there is one.
fn source_fact(
    vl: Range,
    first: Reg,
    width: u32,
    registers: usize,
    facts: &[VectorFact],
) -> Option<&VectorFact>
    ensures { option_map (λ fact. fact.now) result
        ≡ find (is_source_of vl first width registers) facts.now }
{
    facts
        .iter()
        .find(|fact| is_source(vl, first, width, registers, fact))
}

/// The range of the elements below vl of the group that begins at a register.
#[tactic(auto, unfolding(crate::specs::Facts::source_range))]
pub(crate) fn source_range(
    t: &Vtype,
    vl: Range,
    first: Reg,
    eew: Eew,
    facts: &[VectorFact],
) -> Range
    ensures { result ≡ source_range_of t.now vl first eew facts.now }
{
    let width = u32::from(t.eew_bits(eew));
    match source_fact(vl, first, width, t.group_count(eew), facts) {
        Some(fact) => Range {
            lo: fact.low,
            hi: fact.high,
        },
        None => all_of_bits(width.min(32)),
    }
}

/// The range of the low bits of a number.
#[tactic(auto, unfolding(crate::specs::Facts::low_range))]
fn low_range(bits: u32, r: Range) -> Range
    requires { bits ≤ 32 }
    ensures { result ≡ low_range_of bits r }
{
    if u64::from(r.hi) < 1 << bits {
        r
    } else {
        all_of_bits(bits)
    }
}

/// The range of the low bits of an immediate.
fn immediate_range(bits: u32, imm: u32) -> Range
    requires { bits ≤ 32 }
    ensures { result ≡ just_of (imm % 2 ^ bits) }
{
    let n = (u64::from(imm) % (1 << bits)) as u32;
    just(n)
}

/// The range of the elements of the second operand.
#[tactic(auto, unfolding(crate::specs::Facts::second_range))]
fn second_range<A: Allocator>(
    t: &Vtype,
    numbers: &Numbers<A>,
    facts: &[VectorFact],
    b: Source,
) -> Range
    ensures { result ≡ second_range_of t.now numbers.now facts.now b }
{
    match b {
        Source::Vector(vs1) => source_range(t, numbers.range_at(VL), vs1, Eew::Same, facts),
        Source::Scalar(rs1) => {
            low_range(bits_of(t.sew), numbers.range_at(usize::from(rs1.number())))
        }
        Source::Immediate(imm) => immediate_range(bits_of(t.sew), imm.cast_unsigned()),
    }
}

/// A shift to the left by the low bits of an amount, where it is known.
#[tactic(auto, unfolding(crate::specs::Facts::left_elements))]
fn left_elements(bits: u32, a: Range, amount: Option<u32>) -> Option<Range>
    requires least { 0 < bits }
    requires most { bits ≤ 32 }
    ensures { result ≡ left_elements_of bits a amount }
{
    match amount {
        Some(n) => multiple_range(bits, 1 << (n % bits), a),
        None => None,
    }
}

/// A shift to the right of elements with `of` bits, where what it leaves has `bits`.
#[tactic(auto, unfolding(crate::specs::Facts::right_elements))]
fn right_elements(of: u32, bits: u32, a: Range, amount: Option<u32>) -> Option<Range>
    requires least { 0 < of }
    requires most { of ≤ 64 }
    requires bits { bits ≤ 32 }
    ensures { result ≡ right_elements_of of bits a amount }
{
    match amount {
        Some(n) => fitting(
            bits,
            u64::from(a.lo) >> (n % of),
            u64::from(a.hi) >> (n % of),
        ),
        None => None,
    }
}

/// The remainder by a number of an x register, where it is known and not 0.
#[tactic(auto, unfolding(crate::specs::Facts::remainder_by, crate::specs::Facts::remainder_elements))]
fn remainder_by(b: Source, a: Range, divisor: Option<u32>) -> Option<Range>
    ensures { result ≡ remainder_by_of b a divisor }
{
    match b {
        Source::Scalar(_) => match divisor {
            Some(c) => if c == 0 {
                None
            } else {
                Some(up_to(a.hi.min(c - 1)))
            },
            None => None,
        },
        Source::Vector(_) | Source::Immediate(_) => None,
    }
}

/// The range of what an operation gives for elements of vs2 and of the second operand that lie in these.
#[tactic(auto, unfolding(crate::specs::Facts::int_range))]
fn int_range(bits: u32, op: IntOp, b: Source, x: Range, y: Range) -> Option<Range>
    requires least { 0 < bits }
    requires most { bits ≤ 32 }
    ensures { result ≡ int_range_of bits op b x y }
{
    match op {
        IntOp::Add => fitting(
            bits,
            u64::from(x.lo) + u64::from(y.lo),
            u64::from(x.hi) + u64::from(y.hi),
        ),
        IntOp::Minu => Some(Range {
            lo: x.lo.min(y.lo),
            hi: x.hi.min(y.hi),
        }),
        IntOp::Maxu => Some(Range {
            lo: x.lo.max(y.lo),
            hi: x.hi.max(y.hi),
        }),
        IntOp::And => Some(up_to(x.hi.min(y.hi))),
        IntOp::Sll => left_elements(bits, x, known(y)),
        IntOp::Srl => right_elements(bits, bits, x, known(y)),
        IntOp::Remu => remainder_by(b, x, known(y)),
        IntOp::Sub
        | IntOp::Rsub
        | IntOp::Min
        | IntOp::Max
        | IntOp::Or
        | IntOp::Xor
        | IntOp::Sra
        | IntOp::Mul
        | IntOp::Mulh
        | IntOp::Mulhu
        | IntOp::Mulhsu
        | IntOp::Divu
        | IntOp::Div
        | IntOp::Rem => None,
    }
}

/// The same for a shift of elements of 2*SEW to SEW.
#[tactic(auto, unfolding(crate::specs::Facts::narrow_range))]
fn narrow_range(bits: u32, op: NarrowOp, x: Range, y: Range) -> Option<Range>
    requires least { 0 < bits }
    requires most { bits ≤ 32 }
    ensures { result ≡ narrow_range_of bits op x y }
{
    match op {
        NarrowOp::Srl => right_elements(2 * bits, bits, x, known(y)),
        NarrowOp::Sra => None,
    }
}

/// Nothing is stated where an instruction is masked.
fn unless_masked(masked: bool, range: Option<Range>) -> Option<Range>
    ensures { result ≡ unless_masked_of masked range }
{
    if masked { None } else { range }
}

/// The range of an operation's results, from those of vs2 and the second operand.
fn int_results<A: Allocator>(
    t: &Vtype,
    numbers: &Numbers<A>,
    facts: &[VectorFact],
    op: IntOp,
    vs2: Reg,
    b: &Source,
) -> Option<Range>
    ensures { result ≡ int_range_of (bits_of_width t.now.sew) op b.now
        (source_range_of t.now (value_at numbers.now 32).range vs2 Eew.Same facts.now)
        (second_range_of t.now numbers.now facts.now b.now) }
{
    let x = source_range(t, numbers.range_at(VL), vs2, Eew::Same, facts);
    let y = second_range(t, numbers, facts, *b);
    int_range(bits_of(t.sew), op, *b, x, y)
}

/// The same for a shift of elements of 2*SEW to SEW.
fn narrow_results<A: Allocator>(
    t: &Vtype,
    numbers: &Numbers<A>,
    facts: &[VectorFact],
    op: NarrowOp,
    vs2: Reg,
    b: &Source,
) -> Option<Range>
    ensures { result ≡ narrow_range_of (bits_of_width t.now.sew) op
        (source_range_of t.now (value_at numbers.now 32).range vs2 Eew.Double facts.now)
        (second_range_of t.now numbers.now facts.now b.now) }
{
    let x = source_range(t, numbers.range_at(VL), vs2, Eew::Double, facts);
    let y = second_range(t, numbers, facts, *b);
    narrow_range(bits_of(t.sew), op, x, y)
}

/// The range of the results of vector arithmetic, where one is stated.
#[tactic(auto, unfolding(crate::specs::Facts::arith_range))]
fn arith_range<A: Allocator>(
    t: &Vtype,
    numbers: &Numbers<A>,
    facts: &[VectorFact],
    insn: &VArith,
) -> Option<Range>
    ensures { result ≡ arith_range_of t.now numbers.now facts.now insn.now }
{
    match insn {
        VArith::Int {
            op,
            vs2,
            b,
            masked,
            ..
        } => unless_masked(*masked, int_results(t, numbers, facts, *op, *vs2, b)),
        VArith::Narrow {
            op,
            vs2,
            b,
            masked,
            ..
        } => unless_masked(*masked, narrow_results(t, numbers, facts, *op, *vs2, b)),
        VArith::Extend {
            signed,
            of,
            vs2,
            masked,
            ..
        } => {
            let range = source_range(t, numbers.range_at(VL), *vs2, of.eew(), facts);
            unless_masked(*masked || *signed, Some(range))
        }
        VArith::Copy { b, .. } => Some(second_range(t, numbers, facts, *b)),
        VArith::MultiplyAdd { .. }
        | VArith::Carry { .. }
        | VArith::CarryOut { .. }
        | VArith::Merge { .. }
        | VArith::Compare { .. }
        | VArith::Fixed { .. }
        | VArith::Widen { .. }
        | VArith::Wide { .. }
        | VArith::WidenMultiplyAdd { .. }
        | VArith::Clip { .. } => None,
    }
}

/// The range of the numbers of elements, where all of them fit.
fn place_range(vlenb: u32, t: &Vtype) -> Option<Range>
    requires { IsVlenb vlenb }
    ensures { result ≡ place_range_of vlenb t.now }
{
    let last = t.vlmax(vlenb as usize).saturating_sub(1);
    fitting(bits_of(t.sew), 0, u64::from(last))
}

/// The range of what an instruction on masks gives.
#[tactic(auto, unfolding(crate::specs::Facts::mask_range))]
fn mask_range(vlenb: u32, t: &Vtype, insn: &VMask) -> Option<Range>
    requires { IsVlenb vlenb }
    ensures { result ≡ mask_range_of vlenb t.now insn.now }
{
    match insn {
        VMask::Iota { masked, .. } | VMask::Index { masked, .. } => {
            unless_masked(*masked, place_range(vlenb, t))
        }
        VMask::Logic { .. } | VMask::Count { .. } | VMask::First { .. } | VMask::SetFirst { .. } =>
            None,
    }
}

/// The range of the elements below vl that an instruction leaves in its destination, where it states one.
#[tactic(auto, unfolding(crate::specs::Facts::stated_range))]
fn stated_range<A: Allocator>(
    vlenb: u32,
    t: &Vtype,
    numbers: &Numbers<A>,
    facts: &[VectorFact],
    insn: &Insn,
) -> Option<Range>
    requires { IsVlenb vlenb }
    ensures { result ≡ stated_range_of vlenb t.now numbers.now facts.now insn.now }
{
    match insn {
        Insn::VArith(insn) => arith_range(t, numbers, facts, insn),
        Insn::VMask(insn) => mask_range(vlenb, t, insn),
        Insn::Scalar(_)
        | Insn::Csr(_)
        | Insn::VSet(_)
        | Insn::VPerm(_)
        | Insn::VReduce(_)
        | Insn::VMem(_)
        | Insn::VMove(_) => None,
    }
}

/// The fact for vl on a group of SEW. One on all numbers would say nothing.
#[tactic(auto, unfolding(crate::specs::Facts::fact_if))]
fn fact_if(t: &Vtype, first: Reg, range: Option<Range>) -> Option<VectorFact>
    ensures { option_to_list result ≡ fact_if_of t.now first range }
{
    let bits = bits_of(t.sew);
    match range {
        Some(r) => if r == all_of_bits(bits) {
            None
        } else {
            Some(VectorFact {
                register: first.number(),
                width: bits as u8,
                registers: t.group_count(Eew::Same) as u8,
                count: 0,
                low: r.lo,
                high: r.hi,
            })
        },
        None => None,
    }
}

/// What an instruction states of its destination, where vtype is known.
#[tactic(auto, unfolding(crate::specs::Facts::stated_by, crate::specs::Facts::stated_at))]
fn stated_by<A: Allocator>(
    vlenb: u32,
    vtype: Option<Vtype>,
    numbers: &Numbers<A>,
    facts: &[VectorFact],
    insn: &Insn,
) -> Option<VectorFact>
    requires { IsVlenb vlenb }
    ensures { option_to_list result ≡ stated_by_of vlenb vtype numbers.now facts.now insn.now }
{
    let t = vtype?;
    let destination = needs(insn).destination?;
    let range = stated_range(vlenb, &t, numbers, facts, insn);
    fact_if(&t, destination.first, range)
}

/// How many registers an operand covers.
#[tactic(auto, unfolding(vreg_groups::specs::Legality::count_of))]
fn count_of(vtype: Option<Vtype>, extent: Extent) -> u32
    ensures meaning { result ≡ count_of_of vtype extent }
    ensures bound { result ≤ 64 }
{
    match extent {
        Extent::Group(eew) => match vtype {
            Some(t) => t.group_count(eew) as u32,
            None => 1,
        },
        Extent::Single(_) | Extent::Mask => 1,
        Extent::Whole(count) => whole_count(count) as u32,
    }
}

/// Whether a fact's group has none of `count` registers from `first` on.
#[tactic(auto, unfolding(crate::specs::Facts::is_apart))]
fn is_apart(first: Reg, count: u32, fact: &VectorFact) -> bool
    requires { count ≤ 64 }
    ensures { result ≡ is_apart_of first count fact.now }
{
    let first = u32::from(first.number());
    let register = u32::from(fact.register);
    register + u32::from(fact.registers) <= first || first + count <= register
}

/// Leaves the facts on groups that have none of `count` registers from `first` on.
fn retain_apart<A: Allocator>(first: Reg, count: u32, facts: &mut Vec<VectorFact, A>)
    requires { count ≤ 64 }
    ensures items { facts.new.items ≡ filter (is_apart_of first count) facts.old.items }
    ensures bound { length facts.new.items ≤ length facts.old.items }
    ensures capacity { vec_capacity facts.new ≡ vec_capacity facts.old }
{
    facts.retain(|fact| is_apart(first, count, fact));
}

/// Leaves the facts that a write to a destination leaves.
#[tactic(auto, unfolding(crate::specs::Facts::untouched))]
fn untouched<A: Allocator>(
    vtype: Option<Vtype>,
    destination: Option<Operand>,
    facts: &mut Vec<VectorFact, A>,
)
    ensures items { facts.new.items ≡ untouched_of vtype destination facts.old.items }
    ensures bound { length facts.new.items ≤ length facts.old.items }
    ensures capacity { vec_capacity facts.new ≡ vec_capacity facts.old }
{
    if let Some(destination) = destination {
        let count = count_of(vtype, destination.extent);
        retain_apart(destination.first, count, facts);
    }
}

/// The facts after an instruction that leaves vl as it is: those that its destination leaves, and what it states of that.
pub fn after_groups<A: Allocator, B: Allocator>(
    vlenb: u32,
    vtype: Option<Vtype>,
    numbers: &Numbers<A>,
    insn: &Insn,
    facts: &mut Vec<VectorFact, B>,
)
    requires vlenb { IsVlenb vlenb }
    requires room { length facts.old.items < vec_capacity facts.old }
    ensures items { facts.new.items
        ≡ untouched_of vtype (needs_of insn.now).destination facts.old.items
        ++ stated_by_of vlenb vtype numbers.now facts.old.items insn.now }
    ensures growth { length facts.new.items ≤ length facts.old.items + 1 }
    ensures capacity { vec_capacity facts.old ≤ vec_capacity facts.new }
{
    let stated = stated_by(vlenb, vtype, numbers, facts.as_slice(), insn);
    untouched(vtype, needs(insn).destination, facts);
    if let Some(fact) = stated {
        facts.push(fact).unwrap();
    }
}

/// How many elements a fact's group has.
fn elements_in(vlenb: u32, fact: &VectorFact) -> u32
    requires { IsVlenb vlenb }
    ensures meaning { result ≡ elements_in_of vlenb fact.now }
    ensures bound { result < 65536 }
{
    let size = u32::from(fact.width / 8);
    if size == 0 {
        0
    } else {
        u32::from(fact.registers) * vlenb / size
    }
}

/// The fact for as many elements as vl is at least, where it is one for vl.
#[tactic(auto, unfolding(crate::specs::Facts::counted))]
fn counted(vlenb: u32, least: u32, fact: &VectorFact) -> VectorFact
    requires { IsVlenb vlenb }
    ensures { result ≡ counted_of vlenb least fact.now }
{
    if fact.count == 0 {
        VectorFact {
            count: least.min(elements_in(vlenb, fact)) as u16,
            ..*fact
        }
    } else {
        *fact
    }
}

/// Makes of each fact for vl one for as many elements as vl is at least.
fn count_all(vlenb: u32, least: u32, facts: &mut [VectorFact])
    requires { IsVlenb vlenb }
    ensures { facts.new ≡ map (counted_of vlenb least) facts.old }
{
    for fact in facts.iter_mut() {
        *fact = counted(vlenb, least, fact);
    }
}

/// Whether a fact is not for vl, or vl is at least 1.
#[tactic(auto, unfolding(crate::specs::Facts::is_lasting))]
fn is_lasting(least: u32, fact: &VectorFact) -> bool
    ensures { result ≡ is_lasting_of least fact.now }
{
    fact.count != 0 || least > 0
}

/// Leaves the facts that are not for vl, and the others where vl is at least 1.
fn retain_lasting<A: Allocator>(least: u32, facts: &mut Vec<VectorFact, A>)
    ensures items { facts.new.items ≡ filter (is_lasting_of least) facts.old.items }
    ensures bound { length facts.new.items ≤ length facts.old.items }
    ensures capacity { vec_capacity facts.new ≡ vec_capacity facts.old }
{
    facts.retain(|fact| is_lasting(least, fact));
}

/// The facts where vl, which was at least `least`, changes: one for vl becomes one for that many elements, and is left out
/// where that is 0.
#[tactic(auto, unfolding(crate::specs::Facts::cut_groups))]
pub fn cut_groups<A: Allocator>(vlenb: u32, least: u32, facts: &mut Vec<VectorFact, A>)
    requires { IsVlenb vlenb }
    ensures items { facts.new.items ≡ cut_groups_of vlenb least facts.old.items }
    ensures bound { length facts.new.items ≤ length facts.old.items }
    ensures capacity { vec_capacity facts.new ≡ vec_capacity facts.old }
{
    retain_lasting(least, facts);
    count_all(vlenb, least, facts.as_mut_slice());
}

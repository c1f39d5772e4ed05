//! Where the bytes of a vector load or store may lie, and the test that they lie in one zone. Masks are ignored.
ghost use Rattle.std.specs.Prelude.{◌≡◌, ◌<◌, ◌≤◌, ◌+◌, ◌-◌, ◌*◌, ◌^◌};
ghost use Rattle.linear_facts.specs.Forms.{within};
ghost use Rattle.rv_decode.specs.Instructions.{bytes_of_width};
ghost use Rattle.abs_transfer.specs.Accesses.{fitting_less as fitting_less_of};
ghost use Rattle.abs_transfer.specs.Accesses.{met_with_form as met_with_form_of};
ghost use Rattle.abs_transfer.specs.Accesses.{sum_form as sum_form_of};
ghost use Rattle.abs_transfer.specs.Accesses.{sharpened as sharpened_of};
ghost use Rattle.abs_transfer.specs.Accesses.{unit_reach as unit_reach_of};
ghost use Rattle.abs_transfer.specs.Accesses.{rising_reach as rising_reach_of};
ghost use Rattle.abs_transfer.specs.Accesses.{falling_reach as falling_reach_of};
ghost use Rattle.abs_transfer.specs.Accesses.{strided_reach as strided_reach_of};
ghost use Rattle.abs_transfer.specs.Accesses.{indexed_reach as indexed_reach_of};
ghost use Rattle.abs_transfer.specs.Accesses.{reach_at as reach_at_of, is_whole as is_whole_of};
ghost use Rattle.abs_transfer.specs.Accesses.{reach_allowed as reach_allowed_of};
ghost use Rattle.abs_transfer.specs.Accesses.{transfer_check as transfer_check_of};

use crate::facts::source_range;
use abs_domain::{
    Numbers, VL, Value, Why, Zone, computed_range, fitting, known, load_allowed, store_allowed,
};
use cert_note::VectorFact;
use linear_facts::{End, Form, Range};
use rv_decode::{Addressing, Direction, Eew, VMem, Width};
use std::alloc::Allocator;
use vreg_groups::{Vtype, whole_count};

/// Addresses from the first on and below the end.
#[derive(Clone, Copy, PartialEq, Eq)]
pub struct Reach {
    pub first: u64,
    pub end: u64,
}

/// How many bytes an element has.
fn bytes_of(width: Width) -> u32
    ensures value { result ≡ bytes_of_width width }
    ensures few { result ≤ 4 }
{
    u32::from(width.bytes())
}

/// A product in whole numbers.
fn product(k: u32, n: u32) -> u64
    ensures value { result ≡ k * n }
    ensures bound { result ≤ (2 ^ 32 - 1) * (2 ^ 32 - 1) }
{
    u64::from(k) * u64::from(n)
}

/// A number and a multiple, in whole numbers.
fn sum(x: u32, k: u32, n: u32) -> u64
    ensures value { result ≡ x + k * n }
    ensures bound { result ≤ (2 ^ 32 - 1) * 2 ^ 32 }
{
    u64::from(x) + product(k, n)
}

/// The form of `a + k * b + n`, with `k` and `n` as numbers modulo 2^32.
#[tactic(auto, unfolding(crate::specs::Accesses::sum_form))]
fn sum_form(a: &Form<8>, k: u32, b: &Form<8>, n: u32) -> Form<16>
    ensures { result ≡ sum_form_of a.now k b.now n }
{
    a.sum(&b.multiple(k)).add(&Form::<0>::number(n)).unwrap()
}

/// The interval between two ends less a number, where it stays within 32 bits.
#[tactic(auto, unfolding(crate::specs::Accesses::fitting_less))]
fn fitting_less(lo: u64, hi: u64, less: u32) -> Option<Range>
    ensures { result ≡ fitting_less_of lo hi less }
{
    let less = u64::from(less);
    if less <= lo {
        fitting(32, lo - less, hi.saturating_sub(less))
    } else {
        None
    }
}

/// Elements as far from a base as indices say.
fn indexed_reach(size: u32, x: Range, i: Range) -> Reach
    ensures { result ≡ indexed_reach_of size x i }
{
    Reach {
        first: u64::from(x.lo) + u64::from(i.lo),
        end: u64::from(x.hi) + u64::from(i.hi) + u64::from(size),
    }
}

/// Whether whole registers are moved, whatever vl is.
#[tactic(auto, unfolding(crate::specs::Accesses::is_whole))]
fn is_whole(place: Addressing) -> bool
    ensures { result ≡ is_whole_of place }
{
    match place {
        Addressing::Whole { .. } => true,
        Addressing::Unit { .. }
        | Addressing::Strided { .. }
        | Addressing::Indexed { .. }
        | Addressing::Mask => false,
    }
}

/// The answer on a load or store whose bytes lie in the reach, if there is one.
#[tactic(auto, unfolding(crate::specs::Accesses::reach_allowed))]
fn reach_allowed(direction: Direction, reach: Option<Reach>, zones: &[Zone]) -> Result<(), Why>
    ensures { result ≡ reach_allowed_of direction reach zones.now }
{
    match reach {
        None => Err(Why::AccessNotProved),
        Some(reach) => match direction {
            Direction::Load => load_allowed(reach.first, reach.end, zones),
            Direction::Store => store_allowed(reach.first, reach.end, zones),
        },
    }
}

/// What an interval and a form tell of a number. A form of more than eight terms tells nothing.
fn met_with_form<A: Allocator>(numbers: &Numbers<A>, interval: Range, form: &Form<16>) -> Range
    ensures { result ≡ met_with_form_of numbers.now interval (within 8 form.now) }
{
    match form.resize::<8>() {
        Some(form) => computed_range(Some(interval), form.range_of(&numbers.table())),
        None => interval,
    }
}

/// An end of a sum: that of the interval and the form, where there is an interval, and else the one by whole numbers.
#[tactic(auto, unfolding(crate::specs::Accesses::sharpened))]
fn sharpened<A: Allocator>(
    end: End,
    numbers: &Numbers<A>,
    whole: u64,
    interval: Option<Range>,
    form: &Form<16>,
) -> u64
    ensures { result ≡ sharpened_of end numbers.now whole interval form.now }
{
    match interval {
        Some(interval) => u64::from(met_with_form(numbers, interval, form).end(end)),
        None => whole,
    }
}

/// Elements one after another from x on, as many as vl.
#[tactic(auto, unfolding(crate::specs::Accesses::unit_reach))]
fn unit_reach<A: Allocator>(numbers: &Numbers<A>, size: u32, x: &Value, vl: &Value) -> Reach
    ensures { result ≡ unit_reach_of numbers.now size x.now vl.now }
{
    let lo = sum(x.range.lo, size, vl.range.lo);
    let hi = sum(x.range.hi, size, vl.range.hi);
    let form = sum_form(x.form, size, vl.form, 0);
    Reach {
        first: u64::from(x.range.lo),
        end: sharpened(End::Hi, numbers, hi, fitting(32, lo, hi), &form),
    }
}

/// Elements k bytes apart upwards. The last one ends at `x + k * vl - k + size`.
#[tactic(auto, unfolding(crate::specs::Accesses::rising_reach))]
fn rising_reach<A: Allocator>(
    numbers: &Numbers<A>,
    size: u32,
    k: u32,
    x: &Value,
    vl: &Value,
) -> Reach
    requires { size ≤ 4 }
    ensures { result ≡ rising_reach_of numbers.now size k x.now vl.now }
{
    let (step, size) = (u64::from(k), u64::from(size));
    let lo = sum(x.range.lo, k, vl.range.lo) + size;
    let hi = sum(x.range.hi, k, vl.range.hi) + size;
    let past = ((1 << 32) - step + size) % (1 << 32);
    let form = sum_form(x.form, k, vl.form, past as u32);
    Reach {
        first: u64::from(x.range.lo),
        end: sharpened(
            End::Hi,
            numbers,
            hi.saturating_sub(step),
            fitting_less(lo, hi, k),
            &form,
        ),
    }
}

/// Elements k bytes apart downwards. The last one begins at `x - k * vl + k`, which may not be below 0.
#[tactic(auto, unfolding(crate::specs::Accesses::falling_reach))]
fn falling_reach<A: Allocator>(
    numbers: &Numbers<A>,
    size: u32,
    k: u32,
    x: &Value,
    vl: &Value,
) -> Option<Reach>
    requires { 0 < k }
    ensures { result ≡ falling_reach_of numbers.now size k x.now vl.now }
{
    let most = product(k, vl.range.hi);
    let first = sum(x.range.lo, k, 1);
    if most > first {
        return None;
    }
    let lo = first - most;
    let hi = sum(x.range.hi, k, 1).saturating_sub(product(k, vl.range.lo));
    let form = sum_form(x.form, u32::MAX - k + 1, vl.form, k);
    Some(Reach {
        first: sharpened(End::Lo, numbers, lo, fitting(32, lo, hi), &form),
        end: u64::from(x.range.hi) + u64::from(size),
    })
}

/// Elements as many bytes apart as a stride says, where it is known: a signed number, which is given by its bits.
#[tactic(auto, unfolding(crate::specs::Accesses::strided_reach))]
fn strided_reach<A: Allocator>(
    numbers: &Numbers<A>,
    size: u32,
    stride: Option<u32>,
    x: &Value,
    vl: &Value,
) -> Option<Reach>
    requires { size ≤ 4 }
    ensures { result ≡ strided_reach_of numbers.now size stride x.now vl.now }
{
    match stride {
        None => None,
        Some(n) => if n < 1 << 31 {
            Some(rising_reach(numbers, size, n, x, vl))
        } else {
            falling_reach(numbers, size, u32::MAX - n + 1, x, vl)
        },
    }
}

/// Where the bytes of an access from x on may lie, if that is known.
#[tactic(auto, unfolding(crate::specs::Accesses::reach_at))]
pub fn reach_at<A: Allocator>(
    numbers: &Numbers<A>,
    vlenb: u32,
    t: &Vtype,
    facts: &[VectorFact],
    place: Addressing,
    x: &Value,
) -> Option<Reach>
    ensures { result ≡ reach_at_of vlenb t.now numbers.now facts.now place x.now }
{
    let vl = numbers.value(VL);
    match place {
        Addressing::Unit { width, .. } => Some(unit_reach(numbers, bytes_of(width), x, &vl)),
        Addressing::Strided { width, rs2, .. } => {
            let stride = known(numbers.range_at(usize::from(rs2.number())));
            strided_reach(numbers, bytes_of(width), stride, x, &vl)
        }
        Addressing::Indexed { width, vs2, .. } => {
            let indices = source_range(t, vl.range, vs2, Eew::Fixed(width), facts);
            Some(indexed_reach(bytes_of(t.sew), x.range, indices))
        }
        Addressing::Mask => Some(Reach {
            first: u64::from(x.range.lo),
            end: u64::from(x.range.hi) + (u64::from(vl.range.hi) + 7) / 8,
        }),
        Addressing::Whole { count, .. } => Some(Reach {
            first: u64::from(x.range.lo),
            end: u64::from(x.range.hi) + whole_count(count) as u64 * u64::from(vlenb),
        }),
    }
}

/// The answer on a vector load or store: its bytes have to lie in one zone with the right, whatever its mask is. Where vl
/// is known to be 0 nothing is accessed but by whole registers.
#[tactic(auto, unfolding(crate::specs::Accesses::transfer_check))]
pub fn transfer_check<A: Allocator>(
    numbers: &Numbers<A>,
    vlenb: u32,
    t: &Vtype,
    facts: &[VectorFact],
    zones: &[Zone],
    insn: &VMem,
) -> Result<(), Why>
    ensures { result ≡ transfer_check_of vlenb t.now numbers.now facts.now zones.now insn.now }
{
    if !is_whole(insn.place) && numbers.range_at(VL).hi == 0 {
        return Ok(());
    }
    let x = numbers.value(usize::from(insn.rs1.number()));
    let reach = reach_at(numbers, vlenb, t, facts, insn.place, &x);
    reach_allowed(insn.direction, reach, zones)
}

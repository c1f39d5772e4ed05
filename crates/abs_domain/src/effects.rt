//! What the instructions of RV32I and M, and reads of CSRs, make of the numbers of their operands, as far as these are known.
ghost use Rattle.std.specs.Prelude.{◌≡◌, ◌≤◌};
ghost use Rattle.linear_facts.specs.Forms.{scaled};
ghost use Rattle.abs_domain.specs.Effects.{fitting as fitting_of, sum_range as sum_range_of};
ghost use Rattle.abs_domain.specs.Effects.{difference_range as difference_range_of};
ghost use Rattle.abs_domain.specs.Effects.{multiple_range as multiple_range_of};
ghost use Rattle.abs_domain.specs.Effects.{offset_range as offset_range_of};
ghost use Rattle.abs_domain.specs.Effects.{offset_form as offset_form_of};
ghost use Rattle.abs_domain.specs.Effects.{constant_effect as constant_effect_of};
ghost use Rattle.abs_domain.specs.Effects.{sum_effect as sum_effect_of};
ghost use Rattle.abs_domain.specs.Effects.{difference_effect as difference_effect_of};
ghost use Rattle.abs_domain.specs.Effects.{offset_effect as offset_effect_of};
ghost use Rattle.abs_domain.specs.Effects.{product_effect as product_effect_of};
ghost use Rattle.abs_domain.specs.Effects.{product_by as product_by_of};
ghost use Rattle.abs_domain.specs.Effects.{left_shift_by as left_shift_by_of};
ghost use Rattle.abs_domain.specs.Effects.{right_shift_range as right_shift_range_of};
ghost use Rattle.abs_domain.specs.Effects.{quotient_range as quotient_range_of};
ghost use Rattle.abs_domain.specs.Effects.{remainder_range as remainder_range_of};
ghost use Rattle.abs_domain.specs.Effects.{register_effect as register_effect_of};
ghost use Rattle.abs_domain.specs.Effects.{immediate_effect as immediate_effect_of};
ghost use Rattle.abs_domain.specs.Effects.{shift_effect as shift_effect_of};
ghost use Rattle.abs_domain.specs.Effects.{load_effect as load_effect_of};
ghost use Rattle.abs_domain.specs.Effects.{csr_effect as csr_effect_of, bit_effect, unknown_effect};
ghost use Rattle.abs_domain.specs.Values.{just as just_of, up_to as up_to_of};
ghost use Rattle.scalar_core.specs.Arithmetic.{unsigned};

use crate::values::{Effect, Value, known};
use linear_facts::{Form, Range};
use rv_decode::{CsrName, ImmediateOp, LoadKind, RegisterOp, ShiftOp};

/// One number alone.
pub fn just(n: u32) -> Range
    ensures { result ≡ just_of n }
{
    Range { lo: n, hi: n }
}

/// The numbers from 0 to one.
pub fn up_to(hi: u32) -> Range
    ensures { result ≡ up_to_of hi }
{
    Range { lo: 0, hi }
}

/// The range between two ends, where both have this many bits.
pub fn fitting(bits: u32, lo: u64, hi: u64) -> Option<Range>
    requires { bits ≤ 32 }
    ensures { result ≡ fitting_of bits lo hi }
{
    if lo < 1 << bits && hi < 1 << bits {
        Some(Range {
            lo: lo as u32,
            hi: hi as u32,
        })
    } else {
        None
    }
}

/// The sums of numbers of two ranges.
fn sum_range(a: Range, b: Range) -> Option<Range>
    ensures { result ≡ sum_range_of a b }
{
    fitting(
        32,
        u64::from(a.lo) + u64::from(b.lo),
        u64::from(a.hi) + u64::from(b.hi),
    )
}

/// The differences of numbers of two ranges, where none is below 0.
fn difference_range(a: Range, b: Range) -> Option<Range>
    ensures { result ≡ difference_range_of a b }
{
    if b.hi <= a.lo {
        Some(Range {
            lo: a.lo - b.hi,
            hi: a.hi.saturating_sub(b.lo),
        })
    } else {
        None
    }
}

/// The multiples of a range's numbers, where both ends have this many bits.
pub fn multiple_range(bits: u32, k: u32, a: Range) -> Option<Range>
    requires { bits ≤ 32 }
    ensures { result ≡ multiple_range_of bits k a }
{
    fitting(
        bits,
        u64::from(k) * u64::from(a.lo),
        u64::from(k) * u64::from(a.hi),
    )
}

/// The range of a number and a signed number of 32 bits, which is given by its bits, by interval arithmetic; None where it
/// does not stay within 32 bits.
#[tactic(auto, unfolding(crate::specs::Effects::offset_range))]
pub fn offset_range(n: u32, a: Range) -> Option<Range>
    ensures { result ≡ offset_range_of n a }
{
    if n < 1 << 31 {
        sum_range(a, just(n))
    } else {
        difference_range(a, just(u32::MAX - n + 1))
    }
}

/// The form of a number and a signed number of 32 bits, which is given by its bits.
#[tactic(auto, unfolding(crate::specs::Effects::offset_form))]
pub fn offset_form(form: &Form<8>, n: u32) -> Form<8>
    ensures { result ≡ offset_form_of form.now n }
{
    form.add(&Form::<0>::number(n)).unwrap()
}

/// A number that stands in the instruction, or is its address.
#[tactic(auto, unfolding(crate::specs::Effects::constant_effect))]
pub fn constant_effect(n: u32) -> Effect
    ensures { result ≡ constant_effect_of n }
{
    Effect::Computed {
        form: Form::number(n),
        interval: Some(just(n)),
    }
}

/// A sum modulo 2^32.
#[tactic(auto, unfolding(crate::specs::Effects::sum_effect))]
fn sum_effect(a: &Value, b: &Value) -> Effect
    ensures { result ≡ sum_effect_of a.now b.now }
{
    Effect::Computed {
        form: a.form.sum(b.form),
        interval: sum_range(a.range, b.range),
    }
}

/// A difference modulo 2^32.
#[tactic(auto, unfolding(crate::specs::Effects::difference_effect))]
fn difference_effect(a: &Value, b: &Value) -> Effect
    ensures { result ≡ difference_effect_of a.now b.now }
{
    Effect::Computed {
        form: a.form.sum(&b.form.multiple(u32::MAX)),
        interval: difference_range(a.range, b.range),
    }
}

/// The sum of a number and a signed one, which is given by its bits.
#[tactic(auto, unfolding(crate::specs::Effects::offset_effect, crate::specs::Effects::offset_form))]
fn offset_effect(a: &Value, n: u32) -> Effect
    ensures { result ≡ offset_effect_of a.now n }
{
    Effect::Computed {
        form: a.form.sum(&Form::number(n)),
        interval: offset_range(n, a.range),
    }
}

/// The multiple of a form, with room for more terms.
fn long_multiple(k: u32, form: &Form<8>) -> Form<16>
    ensures { result ≡ scaled k form.now }
{
    form.scale(k).unwrap()
}

/// A multiple of a number.
#[tactic(auto, unfolding(crate::specs::Effects::product_effect))]
fn product_effect(k: u32, a: &Value) -> Effect
    ensures { result ≡ product_effect_of k a.now }
{
    Effect::Computed {
        form: long_multiple(k, a.form),
        interval: multiple_range(32, k, a.range),
    }
}

/// A product, where one of its factors is known: a multiple of the other one.
#[tactic(auto, unfolding(crate::specs::Effects::product_by))]
fn product_by(a: &Value, k: Option<u32>, b: &Value, j: Option<u32>) -> Effect
    ensures { result ≡ product_by_of a.now k b.now j }
{
    match k {
        Some(k) => product_effect(k, a),
        None => match j {
            Some(j) => product_effect(j, b),
            None => Effect::Fresh { range: Range::FULL },
        },
    }
}

/// A shift to the left, where its amount is known.
#[tactic(auto, unfolding(crate::specs::Effects::left_shift_by))]
fn left_shift_by(a: &Value, amount: Option<u32>) -> Effect
    ensures { result ≡ left_shift_by_of a.now amount }
{
    match amount {
        Some(n) => product_effect(1 << (n % 32), a),
        None => Effect::Fresh { range: Range::FULL },
    }
}

/// The range of a shift to the right, where its amount is known.
#[tactic(auto, unfolding(crate::specs::Effects::right_shift_range))]
fn right_shift_range(a: Range, amount: Option<u32>) -> Range
    ensures { result ≡ right_shift_range_of a amount }
{
    match amount {
        Some(n) => Range {
            lo: a.lo >> (n % 32),
            hi: a.hi >> (n % 32),
        },
        None => Range::FULL,
    }
}

/// The range of a quotient, where the divisor is known and not 0.
#[tactic(auto, unfolding(crate::specs::Effects::quotient_range))]
fn quotient_range(a: Range, divisor: Option<u32>) -> Range
    ensures { result ≡ quotient_range_of a divisor }
{
    match divisor {
        Some(c) if c != 0 => Range {
            lo: a.lo / c,
            hi: a.hi / c,
        },
        Some(_) | None => Range::FULL,
    }
}

/// The range of a remainder, where the divisor is known and not 0.
#[tactic(auto, unfolding(crate::specs::Effects::remainder_range))]
fn remainder_range(a: Range, divisor: Option<u32>) -> Range
    ensures { result ≡ remainder_range_of a divisor }
{
    match divisor {
        Some(c) if c != 0 => up_to(a.hi.min(c - 1)),
        Some(_) | None => Range::FULL,
    }
}

/// A result that is 0 or 1.
fn bit_effect() -> Effect
    ensures { result ≡ bit_effect }
{
    Effect::Fresh { range: up_to(1) }
}

/// A result with nothing known of it.
fn unknown_effect() -> Effect
    ensures { result ≡ unknown_effect }
{
    Effect::Fresh { range: Range::FULL }
}

/// What an instruction on two registers makes of them, `a` of rs1 and `b` of rs2.
#[tactic(auto, unfolding(crate::specs::Effects::register_effect))]
pub fn register_effect(op: RegisterOp, a: &Value, b: &Value) -> Effect
    ensures { result ≡ register_effect_of op a.now b.now }
{
    match op {
        RegisterOp::Add => sum_effect(a, b),
        RegisterOp::Sub => difference_effect(a, b),
        RegisterOp::Sll => left_shift_by(a, known(b.range)),
        RegisterOp::Slt | RegisterOp::Sltu => bit_effect(),
        RegisterOp::Srl => Effect::Fresh {
            range: right_shift_range(a.range, known(b.range)),
        },
        RegisterOp::And => Effect::Fresh {
            range: up_to(a.range.hi.min(b.range.hi)),
        },
        RegisterOp::Mul => product_by(a, known(b.range), b, known(a.range)),
        RegisterOp::Divu => Effect::Fresh {
            range: quotient_range(a.range, known(b.range)),
        },
        RegisterOp::Remu => Effect::Fresh {
            range: remainder_range(a.range, known(b.range)),
        },
        RegisterOp::Xor
        | RegisterOp::Sra
        | RegisterOp::Or
        | RegisterOp::Mulh
        | RegisterOp::Mulhsu
        | RegisterOp::Mulhu
        | RegisterOp::Div
        | RegisterOp::Rem => unknown_effect(),
    }
}

/// What an instruction on a register and a signed immediate makes of them.
#[tactic(auto, unfolding(crate::specs::Effects::immediate_effect))]
pub fn immediate_effect(op: ImmediateOp, a: &Value, imm: i32) -> Effect
    ensures { result ≡ immediate_effect_of op a.now (unsigned imm) }
{
    let n = imm.cast_unsigned();
    match op {
        ImmediateOp::Addi => offset_effect(a, n),
        ImmediateOp::Slti | ImmediateOp::Sltiu => bit_effect(),
        ImmediateOp::Andi => Effect::Fresh {
            range: up_to(a.range.hi.min(n)),
        },
        ImmediateOp::Xori | ImmediateOp::Ori => unknown_effect(),
    }
}

/// What a shift by an amount that stands in the instruction makes of a register.
#[tactic(auto, unfolding(crate::specs::Effects::shift_effect))]
pub fn shift_effect(op: ShiftOp, a: &Value, amount: u32) -> Effect
    ensures { result ≡ shift_effect_of op a.now amount }
{
    match op {
        ShiftOp::Slli => left_shift_by(a, Some(amount)),
        ShiftOp::Srli => Effect::Fresh {
            range: right_shift_range(a.range, Some(amount)),
        },
        ShiftOp::Srai => unknown_effect(),
    }
}

/// What a load gives, whatever memory holds.
#[tactic(auto, unfolding(crate::specs::Effects::load_effect))]
pub fn load_effect(kind: LoadKind) -> Effect
    ensures { result ≡ load_effect_of kind }
{
    match kind {
        LoadKind::ByteUnsigned => Effect::Fresh { range: up_to(255) },
        LoadKind::HalfUnsigned => Effect::Fresh {
            range: up_to(65535),
        },
        LoadKind::Byte | LoadKind::Half | LoadKind::Word => unknown_effect(),
    }
}

/// The same form once more.
pub fn copy_of(form: &Form<8>) -> Form<8>
    ensures { result ≡ form.now }
{
    let _terms = form.terms();
    form.resize().unwrap()
}

/// A number that is known already.
fn copied_effect(a: &Value) -> Effect
    ensures { result ≡ Effect.Copied a.now.form a.now.range }
{
    Effect::Copied {
        form: copy_of(a.form),
        range: a.range,
    }
}

/// What a read of a CSR gives, with what is known of vl, and `vlenb` bytes in a vector register.
#[tactic(auto, unfolding(crate::specs::Effects::csr_effect))]
pub fn csr_effect(csr: CsrName, vlenb: u32, vl: &Value) -> Effect
    ensures { result ≡ csr_effect_of csr vlenb vl.now }
{
    match csr {
        CsrName::Vxsat => Effect::Fresh { range: up_to(1) },
        CsrName::Vxrm => Effect::Fresh { range: up_to(3) },
        CsrName::Vcsr => Effect::Fresh { range: up_to(7) },
        CsrName::Vl => copied_effect(vl),
        CsrName::Vtype => unknown_effect(),
        CsrName::Vlenb => constant_effect(vlenb),
    }
}

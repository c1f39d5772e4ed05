//! Fields of a certificate that need no memory.
ghost use Rattle.std.specs.Prelude.{◌≡◌, ◌==◌, ◌&&◌, ◌≤◌, ◌+◌, ◌%◌, ◌^◌, nat_le, IsTrue, IfOk};
ghost use Rattle.std.specs.Int.{w16, w32};
ghost use Rattle.cert_note.specs.Certificate.{is_width, is_group, is_count, is_interval, is_full};
ghost use Rattle.cert_note.specs.Certificate.{is_budget, is_second, is_atom, is_scalar};
ghost use Rattle.cert_note.specs.Reading.{Gives, expect, byte_at, number_at, zero_at, zeros_at};
ghost use Rattle.cert_note.specs.Reading.{version_of, vlen_of, header_at, is_mode, is_first_number};
ghost use Rattle.cert_note.specs.Reading.{is_second_number, param_of, parameter_at, parameters_at};
ghost use Rattle.cert_note.specs.Reading.{term_at, group_at, vector_at, single_at, double_at};
ghost use Rattle.cert_note.specs.Reading.{budget_at, is_vtype, vtype_at, few_at, order_count_at};
ghost use Rattle.cert_note.specs.Reading.{counts_at, count_at, front_at, nothing_at};

use crate::refusals::{CertError, Fault, fault_of};
use crate::values::{
    Budget, Counts, EqualityTerm, FactGroup, Front, PARAMETER_ATOMS, PARAMETER_ATOMS_END,
    VectorFact, Version,
};
use region_mem::{MAX_BUFFER_SIZE, Mode, Param, Parameters};
use vreg_groups::{Vlen, Vtype};

/// Whether a field that these bytes stand behind is right, and else its fault.
pub(crate) fn expect(test: bool, error: CertError, behind: &[u8]) -> Result<(), Fault>
    ensures { Gives (λ x. x) result (expect test error behind.now) }
{
    if test {
        Ok(())
    } else {
        Err(fault_of(error, behind))
    }
}

#[tactic(auto, unfolding(crate::specs::Reading::byte_at))]
pub(crate) fn byte_at(bytes: &[u8]) -> Result<(u8, &[u8]), Fault>
    ensures { Gives (λ x. (x.0, x.1.now)) result (byte_at bytes.now) }
{
    match bytes {
        [] => Err(fault_of(CertError::Short, &[])),
        [byte, rest @ ..] => Ok((*byte, rest)),
    }
}

#[tactic(auto, unfolding(crate::specs::Reading::number_at))]
pub(crate) fn half_at(bytes: &[u8]) -> Result<(u16, &[u8]), Fault>
    ensures { Gives (λ x. (x.0, x.1.now)) result (number_at w16 bytes.now) }
{
    if bytes.len() < 2 {
        return Err(fault_of(CertError::Short, &[]));
    }
    let (front, rest) = bytes.split_at(2);
    let number = u16::from_le_bytes([front[0], front[1]]);
    Ok((number, rest))
}

#[tactic(auto, unfolding(crate::specs::Reading::number_at))]
pub(crate) fn word_at(bytes: &[u8]) -> Result<(u32, &[u8]), Fault>
    ensures { Gives (λ x. (x.0, x.1.now)) result (number_at w32 bytes.now) }
{
    if bytes.len() < 4 {
        return Err(fault_of(CertError::Short, &[]));
    }
    let (front, rest) = bytes.split_at(4);
    let number = u32::from_le_bytes([front[0], front[1], front[2], front[3]]);
    Ok((number, rest))
}

#[tactic(auto, unfolding(crate::specs::Reading::zero_at))]
fn zero_at(error: CertError, bytes: &[u8]) -> Result<&[u8], Fault>
    ensures { Gives (λ x. x.now) result (zero_at error bytes.now) }
{
    let (byte, rest) = byte_at(bytes)?;
    expect(byte == 0, error, rest)?;
    Ok(rest)
}

#[tactic(auto, unfolding(crate::specs::Reading::zeros_at))]
fn zeros_at(error: CertError, bytes: &[u8]) -> Result<&[u8], Fault>
    ensures { Gives (λ x. x.now) result (zeros_at error bytes.now) }
{
    let (number, rest) = half_at(bytes)?;
    expect(number == 0, error, rest)?;
    Ok(rest)
}

#[tactic(auto, unfolding(crate::specs::Reading::version_of))]
fn version_of(number: u16) -> Option<Version>
    ensures { result ≡ version_of number }
{
    match number {
        1 => Some(Version::V1),
        2 => Some(Version::V2),
        _ => None,
    }
}

#[tactic(auto, unfolding(crate::specs::Reading::vlen_of))]
fn vlen_of(code: u8) -> Option<Vlen>
    ensures { result ≡ vlen_of code }
{
    match code {
        1 => Some(Vlen::V128),
        2 => Some(Vlen::V256),
        3 => Some(Vlen::V512),
        _ => None,
    }
}

#[tactic(auto, unfolding(crate::specs::Reading::header_at))]
fn header_at(bytes: &[u8]) -> Result<((Version, Vlen), &[u8]), Fault>
    ensures { Gives (λ x. (x.0, x.1.now)) result (header_at bytes.now) }
{
    let (number, rest) = half_at(bytes)?;
    let version = version_of(number).ok_or(fault_of(CertError::Version, rest))?;
    let (code, rest) = byte_at(rest)?;
    let vlen = vlen_of(code).ok_or(fault_of(CertError::Version, rest))?;
    let rest = zero_at(CertError::Version, rest)?;
    Ok(((version, vlen), rest))
}

#[tactic(auto, unfolding(crate::specs::Reading::is_mode))]
fn is_mode(kind: u8, mode: u8) -> bool
    ensures { result ≡ is_mode kind mode }
{
    if kind == 2 {
        mode == 1 || mode == 3
    } else {
        mode == 0
    }
}

#[tactic(auto, unfolding(crate::specs::Reading::is_first_number))]
fn is_first_number(kind: u8, a: u32) -> bool
    ensures { result ≡ is_first_number kind a }
{
    if kind == 0 {
        a == 0
    } else if kind == 2 {
        a <= MAX_BUFFER_SIZE
    } else {
        true
    }
}

#[tactic(auto, unfolding(crate::specs::Reading::is_second_number))]
fn is_second_number(kind: u8, a: u32, b: u32) -> bool
    ensures { result ≡ is_second_number kind a b }
{
    if kind == 1 { a <= b } else { b == 0 }
}

#[tactic(auto, unfolding(crate::specs::Reading::param_of))]
fn param_of(kind: u8, mode: u8, a: u32, b: u32) -> Param
    ensures { result ≡ param_of kind mode a b }
{
    if kind == 2 {
        let mode = if mode == 1 {
            Mode::Read
        } else {
            Mode::ReadWrite
        };
        Param::Buffer { mode, size: a }
    } else if kind == 1 {
        Param::Scalar { lo: a, hi: b }
    } else {
        Param::None
    }
}

#[tactic(auto, unfolding(crate::specs::Reading::parameter_at))]
fn parameter_at(bytes: &[u8]) -> Result<(Param, &[u8]), Fault>
    ensures { Gives (λ x. (x.0, x.1.now)) result (parameter_at bytes.now) }
{
    let (kind, rest) = byte_at(bytes)?;
    expect(kind <= 2, CertError::Parameter, rest)?;
    let (mode, rest) = byte_at(rest)?;
    expect(is_mode(kind, mode), CertError::Parameter, rest)?;
    let rest = zeros_at(CertError::Parameter, rest)?;
    let (a, rest) = word_at(rest)?;
    expect(is_first_number(kind, a), CertError::Parameter, rest)?;
    let (b, rest) = word_at(rest)?;
    expect(is_second_number(kind, a, b), CertError::Parameter, rest)?;
    Ok((param_of(kind, mode, a, b), rest))
}

fn parameters_at(bytes: &[u8]) -> Result<([Param; 8], &[u8]), Fault>
    ensures { Gives (λ x. (x.0, x.1.now)) result (parameters_at 8 bytes.now) }
{
    let mut params = [Param::None; 8];
    let mut rest = bytes;
    for place in 0..8 {
        let (param, after) = parameter_at(rest)?;
        params[place] = param;
        rest = after;
    }
    Ok((params, rest))
}

#[tactic(auto, unfolding(crate::specs::Certificate::is_scalar))]
fn is_scalar(param: Param) -> bool
    ensures { result ≡ is_scalar param }
{
    match param {
        Param::Scalar { lo: _, hi: _ } => true,
        Param::None | Param::Buffer { mode: _, size: _ } => false,
    }
}

#[tactic(auto, unfolding(crate::specs::Certificate::is_atom))]
fn is_atom(parameters: &Parameters, atom: u8) -> bool
    ensures { result ≡ is_atom parameters.now atom }
{
    if atom <= 32 {
        return 1 <= atom;
    }
    if PARAMETER_ATOMS <= atom && atom < PARAMETER_ATOMS_END {
        return is_scalar(parameters.param((atom - PARAMETER_ATOMS) as usize));
    }
    false
}

#[tactic(auto, unfolding(crate::specs::Reading::term_at))]
pub(crate) fn term_at<'a>(
    parameters: &Parameters,
    from: u16,
    bytes: &'a [u8],
) -> Result<(EqualityTerm, &'a [u8]), Fault>
    ensures { Gives (λ x. (x.0, x.1.now)) result (term_at parameters.now from bytes.now) }
{
    let (atom, rest) = byte_at(bytes)?;
    expect(
        from <= u16::from(atom) && is_atom(parameters, atom),
        CertError::Equality,
        rest,
    )?;
    let (coefficient, rest) = word_at(rest)?;
    expect(0 < coefficient, CertError::Equality, rest)?;
    Ok((EqualityTerm { atom, coefficient }, rest))
}

#[tactic(auto, unfolding(crate::specs::Certificate::is_full))]
pub(crate) fn is_full_word(low: u32, high: u32) -> bool
    ensures { result ≡ is_full 32 low high }
{
    low == 0 && high == u32::MAX
}

#[tactic(auto, unfolding(crate::specs::Certificate::is_width))]
fn is_width(width: u8) -> bool
    ensures { result ≡ is_width width }
{
    width == 8 || width == 16 || width == 32
}

#[tactic(auto, unfolding(crate::specs::Certificate::is_group))]
fn is_group(register: u8, registers: u8) -> bool
    ensures { result ≡ is_group register registers }
{
    (registers == 1 || registers == 2 || registers == 4 || registers == 8)
        && register % registers == 0
}

#[tactic(auto, unfolding(crate::specs::Certificate::is_count))]
fn is_count(vlen: Vlen, width: u8, registers: u8, count: u16) -> bool
    ensures { result ≡ is_count vlen width registers count }
{
    usize::from(count) * usize::from(width) <= usize::from(registers) * (8 * vlen.bytes())
}

/// The greatest number of 8, 16 or 32 bits.
#[tactic(auto, unfolding(crate::specs::Certificate::is_width))]
fn greatest(width: u8) -> u32
    requires { IsTrue (is_width width) }
    ensures { result + 1 ≡ 2 ^ width }
{
    if width == 8 {
        0xff
    } else if width == 16 {
        0xffff
    } else {
        0xffff_ffff
    }
}

#[tactic(auto, unfolding(crate::specs::Certificate::is_interval, crate::specs::Certificate::is_full))]
fn is_interval(width: u8, low: u32, high: u32) -> bool
    requires { IsTrue (is_width width) }
    ensures { result ≡ is_interval width low high }
{
    let greatest = greatest(width);
    low <= high && high <= greatest && !(low == 0 && high == greatest)
}

#[tactic(auto, unfolding(crate::specs::Reading::group_at))]
fn group_at(from: u16, bytes: &[u8]) -> Result<(FactGroup, &[u8]), Fault>
    ensures value { Gives (λ x. (x.0, x.1.now)) result (group_at from bytes.now) }
    ensures width { IfOk result (λ x. IsTrue (is_width x.0.width)) }
{
    let (register, rest) = byte_at(bytes)?;
    expect(
        from <= u16::from(register) && register <= 31,
        CertError::Fact,
        rest,
    )?;
    let (width, rest) = byte_at(rest)?;
    expect(is_width(width), CertError::Fact, rest)?;
    let (registers, rest) = byte_at(rest)?;
    expect(is_group(register, registers), CertError::Fact, rest)?;
    let rest = zero_at(CertError::Fact, rest)?;
    Ok((
        FactGroup {
            register,
            width,
            registers,
        },
        rest,
    ))
}

#[tactic(auto, unfolding(crate::specs::Reading::vector_at))]
pub(crate) fn vector_at(vlen: Vlen, from: u16, bytes: &[u8]) -> Result<(VectorFact, &[u8]), Fault>
    ensures { Gives (λ x. (x.0, x.1.now)) result (vector_at vlen from bytes.now) }
{
    let (group, rest) = group_at(from, bytes)?;
    let FactGroup {
        register,
        width,
        registers,
    } = group;
    let (count, rest) = half_at(rest)?;
    expect(
        is_count(vlen, width, registers, count),
        CertError::Fact,
        rest,
    )?;
    let rest = zeros_at(CertError::Fact, rest)?;
    let (low, rest) = word_at(rest)?;
    let (high, rest) = word_at(rest)?;
    expect(is_interval(width, low, high), CertError::Fact, rest)?;
    let fact = VectorFact {
        register,
        width,
        registers,
        count,
        low,
        high,
    };
    Ok((fact, rest))
}

/// Whether a block may begin at this start, where the one before it leaves `from` as the least.
pub(crate) fn is_start(from: u64, start: u32) -> bool
    ensures { result ≡ (nat_le from start && (start % 4 == 0)) }
{
    from <= u64::from(start) && start % 4 == 0
}

#[tactic(auto, unfolding(crate::specs::Certificate::is_budget))]
fn is_budget(factor: u32, register: u8) -> bool
    ensures { result ≡ is_budget factor register }
{
    if factor == 0 {
        register == 0
    } else {
        1 <= register && register <= 31
    }
}

#[tactic(auto, unfolding(crate::specs::Certificate::is_second))]
fn is_second(factor: u32, register: u8, second: u32, second_register: u8) -> bool
    ensures { result ≡ is_second factor register second second_register }
{
    if second == 0 {
        second_register == 0
    } else {
        0 < factor && register < second_register && second_register <= 31
    }
}

#[tactic(auto, unfolding(crate::specs::Reading::single_at))]
fn single_at(bytes: &[u8]) -> Result<(Budget, &[u8]), Fault>
    ensures { Gives (λ x. (x.0, x.1.now)) result (single_at bytes.now) }
{
    let (constant, rest) = word_at(bytes)?;
    let (factor, rest) = word_at(rest)?;
    let (register, rest) = byte_at(rest)?;
    expect(is_budget(factor, register), CertError::Budget, rest)?;
    let budget = Budget {
        constant,
        factor,
        register,
        second_factor: 0,
        second_register: 0,
    };
    Ok((budget, rest))
}

#[tactic(auto, unfolding(crate::specs::Reading::double_at))]
fn double_at(bytes: &[u8]) -> Result<(Budget, &[u8]), Fault>
    ensures { Gives (λ x. (x.0, x.1.now)) result (double_at bytes.now) }
{
    let (constant, rest) = word_at(bytes)?;
    let (factor, rest) = word_at(rest)?;
    let (second_factor, rest) = word_at(rest)?;
    expect(second_factor == 0 || 0 < factor, CertError::Budget, rest)?;
    let (register, rest) = byte_at(rest)?;
    expect(is_budget(factor, register), CertError::Budget, rest)?;
    let (second_register, rest) = byte_at(rest)?;
    expect(
        is_second(factor, register, second_factor, second_register),
        CertError::Budget,
        rest,
    )?;
    let budget = Budget {
        constant,
        factor,
        register,
        second_factor,
        second_register,
    };
    Ok((budget, rest))
}

#[tactic(auto, unfolding(crate::specs::Reading::budget_at))]
pub(crate) fn budget_at(version: Version, bytes: &[u8]) -> Result<(Budget, &[u8]), Fault>
    ensures { Gives (λ x. (x.0, x.1.now)) result (budget_at version bytes.now) }
{
    match version {
        Version::V1 => single_at(bytes),
        Version::V2 => double_at(bytes),
    }
}

#[tactic(auto, unfolding(crate::specs::Reading::is_vtype))]
fn is_vtype(known: u8, vtype: u8) -> bool
    ensures { result ≡ is_vtype known vtype }
{
    if known == 1 {
        Vtype::from_bits(u32::from(vtype)).is_some()
    } else {
        vtype == 0
    }
}

#[tactic(auto, unfolding(crate::specs::Reading::vtype_at))]
pub(crate) fn vtype_at(bytes: &[u8]) -> Result<(Option<u8>, &[u8]), Fault>
    ensures { Gives (λ x. (x.0, x.1.now)) result (vtype_at bytes.now) }
{
    let (known, rest) = byte_at(bytes)?;
    expect(known <= 1, CertError::Fact, rest)?;
    let (vtype, rest) = byte_at(rest)?;
    expect(is_vtype(known, vtype), CertError::Fact, rest)?;
    let vtype = if known == 1 { Some(vtype) } else { None };
    Ok((vtype, rest))
}

#[tactic(auto, unfolding(crate::specs::Reading::few_at))]
fn few_at(bytes: &[u8]) -> Result<(u8, &[u8]), Fault>
    ensures count { Gives (λ x. (x.0, x.1.now)) result (few_at bytes.now) }
    ensures few { IfOk result (λ x. x.0 ≤ 32) }
{
    let (count, rest) = byte_at(bytes)?;
    expect(count <= 32, CertError::TooMany, rest)?;
    Ok((count, rest))
}

/// How many orders there are: in version 1 none, and zeros stand there.
#[tactic(auto, unfolding(crate::specs::Reading::order_count_at))]
fn order_count_at(version: Version, bytes: &[u8]) -> Result<(u8, &[u8]), Fault>
    ensures count { Gives (λ x. (x.0, x.1.now)) result (order_count_at version bytes.now) }
    ensures few { IfOk result (λ x. x.0 ≤ 32) }
{
    match version {
        Version::V1 => {
            let rest = zero_at(CertError::TooMany, bytes)?;
            let rest = zero_at(CertError::TooMany, rest)?;
            Ok((0, rest))
        }
        Version::V2 => few_at(bytes),
    }
}

#[tactic(auto, unfolding(crate::specs::Reading::counts_at))]
pub(crate) fn counts_at(version: Version, bytes: &[u8]) -> Result<(Counts, &[u8]), Fault>
    ensures counts { Gives (λ x. (x.0, x.1.now)) result (counts_at version bytes.now) }
    ensures few { IfOk result (λ x. (x.0.registers ≤ 32) × (x.0.vectors ≤ 32) × (x.0.orders ≤ 32)) }
{
    let (registers, rest) = few_at(bytes)?;
    let (vectors, rest) = few_at(rest)?;
    let (orders, rest) = order_count_at(version, rest)?;
    let rest = zero_at(CertError::TooMany, rest)?;
    let counts = Counts {
        registers,
        vectors,
        orders,
    };
    Ok((counts, rest))
}

#[tactic(auto, unfolding(crate::specs::Reading::count_at))]
fn count_at(bytes: &[u8]) -> Result<(u16, &[u8]), Fault>
    ensures { Gives (λ x. (x.0, x.1.now)) result (count_at bytes.now) }
{
    let (count, rest) = half_at(bytes)?;
    expect(count <= 1024, CertError::TooMany, rest)?;
    let rest = zeros_at(CertError::TooMany, rest)?;
    Ok((count, rest))
}

#[tactic(auto, unfolding(crate::specs::Reading::front_at))]
pub(crate) fn front_at(bytes: &[u8]) -> Result<(Front, &[u8]), Fault>
    ensures { Gives (λ x. (x.0, x.1.now)) result (front_at bytes.now) }
{
    let ((version, vlen), rest) = header_at(bytes)?;
    let (params, rest) = parameters_at(rest)?;
    let parameters = Parameters::new(params).ok_or(fault_of(CertError::Parameter, rest))?;
    let (count, rest) = count_at(rest)?;
    let front = Front {
        version,
        vlen,
        parameters,
        count,
    };
    Ok((front, rest))
}

/// Whether no bytes stand here.
pub(crate) fn nothing_at(bytes: &[u8]) -> Result<(), Fault>
    ensures { Gives (λ x. x) result (nothing_at bytes.now) }
{
    match bytes {
        [] => Ok(()),
        [_, rest @ ..] => Err(fault_of(CertError::TrailingBytes, rest)),
    }
}

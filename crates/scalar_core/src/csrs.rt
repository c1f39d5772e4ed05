//! CSR instructions.

ghost use Rattle.std.specs.Prelude.{◌≡◌, ◌<◌, ◌^◌};
ghost use Rattle.scalar_core.specs.Csr.{csr_step, csr_value as csr_value_of, csr_written};
ghost use Rattle.scalar_core.specs.Csr.{does_write as does_write_of, operand_of, with_csr};
ghost use Rattle.scalar_core.specs.Csr.{is_zero_source as is_zero_source_of, written as written_of};

use crate::hart::Scalar;
use rv_decode::{CsrAction, CsrInsn, CsrName, CsrSource};
use vreg_groups::Vconfig;

/// What a CSR reads as.
#[tactic(auto, unfolding(crate::specs::Csr::csr_value))]
fn csr_value(csr: CsrName, vlenb: usize, config: &Vconfig, scalar: &Scalar) -> u32
    requires { vlenb < 2 ^ 32 }
    ensures { result ≡ csr_value_of csr vlenb config.now scalar.now }
{
    match csr {
        CsrName::Vxsat => scalar.vxsat(),
        CsrName::Vxrm => scalar.vxrm(),
        CsrName::Vcsr => scalar.vcsr(),
        CsrName::Vl => config.vl,
        CsrName::Vtype => config.vtype,
        CsrName::Vlenb => vlenb as u32,
    }
}

/// Writes a number to a CSR.
#[tactic(auto, unfolding(crate::specs::Csr::with_csr))]
fn write_csr(scalar: &mut Scalar, csr: CsrName, value: u32)
    ensures { scalar.new ≡ with_csr csr value scalar.old }
{
    match csr {
        CsrName::Vxsat => scalar.set_vxsat(value),
        CsrName::Vxrm => scalar.set_vxrm(value),
        CsrName::Vcsr => scalar.set_vcsr(value),
        CsrName::Vl | CsrName::Vtype | CsrName::Vlenb => {}
    }
}

/// The number in rs1, or the immediate.
#[tactic(auto, unfolding(crate::specs::Csr::operand_of))]
fn operand(source: &CsrSource, scalar: &Scalar) -> u32
    ensures { result ≡ operand_of source.now scalar.now }
{
    match *source {
        CsrSource::Register(register) => scalar.reg(register),
        CsrSource::Immediate(number) => number,
    }
}

/// Whether rs1 is x0, or the immediate 0.
#[tactic(auto, unfolding(crate::specs::Csr::is_zero_source))]
fn is_zero_source(source: &CsrSource) -> bool
    ensures { result ≡ is_zero_source_of source.now }
{
    match *source {
        CsrSource::Register(register) => register.number() == 0,
        CsrSource::Immediate(number) => number == 0,
    }
}

/// What the instruction makes of the CSR's old number.
#[tactic(auto, unfolding(crate::specs::Csr::written))]
fn written(action: CsrAction, old: u32, operand: u32) -> u32
    ensures { result ≡ written_of action old operand }
{
    match action {
        CsrAction::Write => operand,
        CsrAction::Set => old | operand,
        CsrAction::Clear => old & !operand,
    }
}

/// Whether the instruction writes its CSR.
#[tactic(auto, unfolding(crate::specs::Csr::does_write))]
fn does_write(action: CsrAction, source: &CsrSource) -> bool
    ensures { result ≡ does_write_of action source.now }
{
    match action {
        CsrAction::Write => true,
        CsrAction::Set | CsrAction::Clear => !is_zero_source(source),
    }
}

/// One step of a CSR instruction.
#[tactic(auto, unfolding(crate::specs::Csr::csr_step, crate::specs::Csr::csr_written))]
pub(crate) fn step_csr(scalar: &mut Scalar, insn: CsrInsn, config: &Vconfig, vlenb: usize)
    requires { vlenb < 2 ^ 32 }
    ensures { scalar.new ≡ csr_step insn vlenb config.now scalar.old }
{
    let CsrInsn {
        action,
        csr,
        source,
        rd,
    } = insn;
    let old = csr_value(csr, vlenb, config, scalar);
    let new = written(action, old, operand(&source, scalar));
    if does_write(action, &source) {
        write_csr(scalar, csr, new);
    }
    scalar.set_reg(rd, old);
    scalar.advance();
}

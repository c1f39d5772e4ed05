//! Listings of the scalar instructions, and of those on CSRs.

ghost use Rattle.std.specs.Prelude.{◌≡◌};
ghost use Rattle.rv_listing.specs.Scalar.{csr_text, scalar_text, target};
ghost use Rattle.rv_listing.specs.Sinks.{Told};

use crate::fields::{Field, put_fields};
use crate::names::{
    branch_name, csr_name, immediate_name, load_name, register_name, shift_name, store_name,
};
use crate::shapes::by_shape;
use crate::sink::{Failed, Sink};
use rv_decode::{CsrInsn, CsrSource, ScalarInsn};

/// Where a jump at this address leads to.
fn jump(address: u32, offset: i32) -> Field
    ensures { result ≡ Field.To (target address offset) }
{
    Field::To(address.wrapping_add_signed(offset))
}

/// Writes a scalar instruction at an address.
#[tactic(auto, unfolding(crate::specs::Scalar::scalar_text))]
pub(crate) fn put_scalar<S: Sink>(
    out: &mut S,
    insn: &ScalarInsn,
    address: u32,
) -> Result<(), Failed>
    ensures { Told result (S.contents out.old) (S.contents out.new)
        (S.failures out.old) (S.failures out.new) (scalar_text address insn.now) }
{
    by_shape!(insn;
        ScalarInsn::Lui(rd, imm) =>
            put_fields(out, "lui", "", &[Field::Rd(*rd), Field::Upper(*imm)]),
        ScalarInsn::Auipc(rd, imm) =>
            put_fields(out, "auipc", "", &[Field::Rd(*rd), Field::Upper(*imm)]),
        ScalarInsn::Jal(rd, offset) =>
            put_fields(out, "jal", "", &[Field::Rd(*rd), jump(address, *offset)]),
        ScalarInsn::Jalr(rd, rs1, offset) =>
            put_fields(out, "jalr", "",
                &[Field::Rd(*rd), Field::Rs1(*rs1), Field::Imm(*offset)]),
        ScalarInsn::Branch(condition, rs1, rs2, offset) =>
            put_fields(out, branch_name(*condition), "",
                &[Field::Rs1(*rs1), Field::Rs2(*rs2), jump(address, *offset)]),
        ScalarInsn::Load(kind, rd, rs1, offset) =>
            put_fields(out, load_name(*kind), "",
                &[Field::Rd(*rd), Field::Rs1(*rs1), Field::Imm(*offset)]),
        ScalarInsn::Store(size, rs1, rs2, offset) =>
            put_fields(out, store_name(*size), "",
                &[Field::Rs1(*rs1), Field::Rs2(*rs2), Field::Imm(*offset)]),
        ScalarInsn::Immediate(op, rd, rs1, imm) =>
            put_fields(out, immediate_name(*op), "",
                &[Field::Rd(*rd), Field::Rs1(*rs1), Field::Imm(*imm)]),
        ScalarInsn::ShiftImmediate(op, rd, rs1, amount) =>
            put_fields(out, shift_name(*op), "",
                &[Field::Rd(*rd), Field::Rs1(*rs1), Field::Amount(*amount)]),
        ScalarInsn::Register(op, rd, rs1, rs2) =>
            put_fields(out, register_name(*op), "",
                &[Field::Rd(*rd), Field::Rs1(*rs1), Field::Rs2(*rs2)]),
        ScalarInsn::Fence() => put_fields(out, "fence", "", &[]),
        ScalarInsn::Ecall() => put_fields(out, "ecall", "", &[]),
    )
}

/// Writes an instruction on a CSR.
#[tactic(auto, unfolding(crate::specs::Scalar::csr_text))]
pub(crate) fn put_csr<S: Sink>(out: &mut S, insn: &CsrInsn) -> Result<(), Failed>
    ensures { Told result (S.contents out.old) (S.contents out.new)
        (S.failures out.old) (S.failures out.new) (csr_text insn.now) }
{
    let CsrInsn {
        action,
        csr,
        source,
        rd,
    } = insn;
    match source {
        CsrSource::Register(rs1) => put_fields(
            out,
            csr_name(*action),
            "",
            &[Field::Rd(*rd), Field::Rs1(*rs1), Field::Csr(*csr)],
        ),
        CsrSource::Immediate(imm) => put_fields(
            out,
            csr_name(*action),
            "i",
            &[Field::Rd(*rd), Field::Amount(*imm), Field::Csr(*csr)],
        ),
    }
}

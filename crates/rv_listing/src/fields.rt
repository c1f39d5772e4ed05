//! The operand fields that a listing shows.

ghost use Rattle.rv_listing.specs.Fields.{field_text, fields_text, line_text, register_text};
ghost use Rattle.rv_listing.specs.Sinks.{Told};

use crate::names::csr_digits;
use crate::pieces::{Piece, put_all};
use crate::sink::{Failed, Sink};
use rv_decode::{CsrName, Reg};

/// An operand field, by its name.
#[derive(Clone, Copy)]
pub enum Field {
    Rd(Reg),
    Vd(Reg),
    Vs3(Reg),
    Rs1(Reg),
    Rs2(Reg),
    Vs2(Reg),
    Vs1(Reg),
    /// A length that is a number.
    Avl(u32),
    /// A signed immediate.
    Imm(i32),
    /// An immediate that is the upper bits of a word.
    Upper(u32),
    /// An unsigned immediate.
    Amount(u32),
    Csr(CsrName),
    /// Where a jump or branch leads to.
    To(u32),
    /// The bit vm, which is 0 where the mask governs.
    Vm(bool),
}

fn put_register<S: Sink>(out: &mut S, name: &str, register: Reg) -> Result<(), Failed>
    ensures { Told result (S.contents out.old) (S.contents out.new)
        (S.failures out.old) (S.failures out.new) (register_text name.now register) }
{
    put_all(
        out,
        &[
            Piece::Text(" "),
            Piece::Text(name),
            Piece::Text("="),
            Piece::Number(u64::from(register.number())),
        ],
    )
}

/// Writes a field.
fn put_field<S: Sink>(out: &mut S, field: &Field) -> Result<(), Failed>
    ensures { Told result (S.contents out.old) (S.contents out.new)
        (S.failures out.old) (S.failures out.new) (field_text field.now) }
{
    match field {
        Field::Rd(register) => put_register(out, "rd", *register),
        Field::Vd(register) => put_register(out, "vd", *register),
        Field::Vs3(register) => put_register(out, "vs3", *register),
        Field::Rs1(register) => put_register(out, "rs1", *register),
        Field::Rs2(register) => put_register(out, "rs2", *register),
        Field::Vs2(register) => put_register(out, "vs2", *register),
        Field::Vs1(register) => put_register(out, "vs1", *register),
        Field::Avl(length) => put_all(
            out,
            &[Piece::Text(" avl="), Piece::Number(u64::from(*length))],
        ),
        Field::Imm(imm) => put_all(out, &[Piece::Text(" imm="), Piece::Signed(*imm)]),
        Field::Upper(imm) => put_all(out, &[Piece::Text(" imm="), Piece::Word(*imm)]),
        Field::Amount(imm) => put_all(out, &[Piece::Text(" imm="), Piece::Number(u64::from(*imm))]),
        Field::Csr(csr) => put_all(out, &[Piece::Text(" csr="), Piece::Text(csr_digits(*csr))]),
        Field::To(target) => put_all(out, &[Piece::Text(" to="), Piece::Word(*target)]),
        Field::Vm(true) => put_all(out, &[Piece::Text(" vm=1")]),
        Field::Vm(false) => put_all(out, &[Piece::Text(" vm=0")]),
    }
}

/// Writes a mnemonic and fields.
pub(crate) fn put_fields<S: Sink>(
    out: &mut S,
    name: &str,
    form: &str,
    fields: &[Field],
) -> Result<(), Failed>
    ensures { Told result (S.contents out.old) (S.contents out.new)
        (S.failures out.old) (S.failures out.new) (line_text name.now form.now fields.now) }
{
    put_all(out, &[Piece::Text(name), Piece::Text(form)])?;
    put_rest(out, fields)
}

fn put_rest<S: Sink>(out: &mut S, fields: &[Field]) -> Result<(), Failed>
    ensures { Told result (S.contents out.old) (S.contents out.new)
        (S.failures out.old) (S.failures out.new) (fields_text fields.now) }
{
    for field in fields {
        put_field(out, field)?;
    }
    Ok(())
}

//! Writing a certificate's bytes.
ghost use Rattle.std.specs.Prelude.{◌≡◌, ◌<◌, ◌≤◌, ◌^◌, ◌++◌, length, OnOk, IfOk};
ghost use Rattle.std.specs.List.{flat_map};
ghost use Rattle.cert_note.specs.Certificate.{view};
ghost use Rattle.cert_note.specs.Spelling.{counts, version_code, header, parameter_of};
ghost use Rattle.cert_note.specs.Spelling.{mode_code, spelled_equality, spelled_budget};
ghost use Rattle.cert_note.specs.Spelling.{spelled_vtype, spelled_block, spelling};

use crate::values::{
    Block, Budget, Certificate, Contents, Counts, Equality, EqualityTerm, OrderFact, RegisterFact,
    VectorFact, Version,
};
use elf_image::{put_half, put_word};
use region_mem::{Mode, Param};
use std::alloc::{AllocError, Allocator};
use vreg_groups::Vlen;

/// What a certificate lists: its items are spelled one after the other.
trait Listed {
    ghost use Rattle.std.specs.Prelude.{List, ℕ};

    ghost spelled: { Self → List ℕ };

    /// Writes the item.
    fn put<A: Allocator>(&self, out: &mut Vec<u8, A>) -> Result<(), AllocError>
        ensures { OnOk result (out.new.items ≡ out.old.items ++ spelled self.now) };
}

/// Writes items one after the other.
fn put_each<T: Listed, A: Allocator>(out: &mut Vec<u8, A>, items: &[T]) -> Result<(), AllocError>
    ensures { OnOk result (out.new.items ≡ out.old.items ++ flat_map T.spelled items.now) }
{
    for item in items {
        item.put(out)?;
    }
    Ok(())
}

fn version_code(version: Version) -> u16
    ensures { result ≡ version_code version }
{
    match version {
        Version::V1 => 1,
        Version::V2 => 2,
    }
}

#[tactic(auto, unfolding(crate::specs::Spelling::header))]
fn put_header<A: Allocator>(
    out: &mut Vec<u8, A>,
    version: Version,
    vlen: Vlen,
) -> Result<(), AllocError>
    ensures { OnOk result (out.new.items ≡ out.old.items ++ header version vlen) }
{
    put_half(out, version_code(version))?;
    match vlen {
        Vlen::V128 => out.extend_from_slice(&[1, 0])?,
        Vlen::V256 => out.extend_from_slice(&[2, 0])?,
        Vlen::V512 => out.extend_from_slice(&[3, 0])?,
    }
    Ok(())
}

impl Listed for EqualityTerm {
    ghost use Rattle.cert_note.specs.Spelling.{spelled_term};

    ghost spelled = { spelled_term };

    #[tactic(auto, unfolding(crate::specs::Spelling::spelled_term))]
    fn put<A: Allocator>(&self, out: &mut Vec<u8, A>) -> Result<(), AllocError> {
        out.push(self.atom)?;
        put_word(out, self.coefficient)
    }
}

#[tactic(auto, unfolding(crate::specs::Spelling::spelled_budget))]
fn put_budget<A: Allocator>(
    out: &mut Vec<u8, A>,
    version: Version,
    budget: Budget,
) -> Result<(), AllocError>
    ensures { OnOk result (out.new.items ≡ out.old.items ++ spelled_budget version budget) }
{
    put_word(out, budget.constant)?;
    put_word(out, budget.factor)?;
    match version {
        Version::V1 => out.push(budget.register)?,
        Version::V2 => {
            put_word(out, budget.second_factor)?;
            out.extend_from_slice(&[budget.register, budget.second_register])?;
        }
    }
    Ok(())
}

#[tactic(auto, unfolding(crate::specs::Spelling::parameter_of))]
fn put_numbers<A: Allocator>(
    out: &mut Vec<u8, A>,
    kind: u8,
    mode: u8,
    a: u32,
    b: u32,
) -> Result<(), AllocError>
    ensures { OnOk result (out.new.items ≡ out.old.items ++ parameter_of kind mode a b) }
{
    out.extend_from_slice(&[kind, mode])?;
    put_half(out, 0)?;
    put_word(out, a)?;
    put_word(out, b)?;
    Ok(())
}

fn mode_code(mode: Mode) -> u8
    ensures { result ≡ mode_code mode }
{
    match mode {
        Mode::Read => 1,
        Mode::ReadWrite => 3,
    }
}

impl Listed for Param {
    ghost use Rattle.cert_note.specs.Spelling.{spelled_parameter};

    ghost spelled = { spelled_parameter };

    #[tactic(auto, unfolding(crate::specs::Spelling::spelled_parameter))]
    fn put<A: Allocator>(&self, out: &mut Vec<u8, A>) -> Result<(), AllocError> {
        match *self {
            Param::None => put_numbers(out, 0, 0, 0, 0),
            Param::Scalar { lo, hi } => put_numbers(out, 1, 0, lo, hi),
            Param::Buffer { mode, size } => put_numbers(out, 2, mode_code(mode), size, 0),
        }
    }
}

#[tactic(auto, unfolding(crate::specs::Spelling::spelled_equality))]
fn put_equality<A: Allocator>(
    out: &mut Vec<u8, A>,
    equality: &Option<Equality>,
) -> Result<(), AllocError>
    ensures { OnOk result (out.new.items ≡ out.old.items ++ spelled_equality equality.now) }
{
    match equality {
        None => out.push(255)?,
        Some(equality) => {
            out.push(equality.terms.len() as u8)?;
            put_word(out, equality.constant)?;
            put_each(out, equality.terms.as_slice())?;
        }
    }
    Ok(())
}

impl Listed for RegisterFact {
    ghost use Rattle.cert_note.specs.Spelling.{spelled_fact};

    ghost spelled = { spelled_fact };

    #[tactic(auto, unfolding(crate::specs::Spelling::spelled_fact))]
    fn put<A: Allocator>(&self, out: &mut Vec<u8, A>) -> Result<(), AllocError> {
        out.push(self.number)?;
        put_word(out, self.low)?;
        put_word(out, self.high)?;
        put_equality(out, &self.equality)
    }
}

impl Listed for VectorFact {
    ghost use Rattle.cert_note.specs.Spelling.{spelled_vector};

    ghost spelled = { spelled_vector };

    #[tactic(auto, unfolding(crate::specs::Spelling::spelled_vector))]
    fn put<A: Allocator>(&self, out: &mut Vec<u8, A>) -> Result<(), AllocError> {
        out.extend_from_slice(&[self.register, self.width, self.registers, 0])?;
        put_half(out, self.count)?;
        put_half(out, 0)?;
        put_word(out, self.low)?;
        put_word(out, self.high)
    }
}

impl Listed for OrderFact {
    ghost use Rattle.cert_note.specs.Spelling.{spelled_order};

    ghost spelled = { spelled_order };

    #[tactic(auto, unfolding(crate::specs::Spelling::spelled_order))]
    fn put<A: Allocator>(&self, out: &mut Vec<u8, A>) -> Result<(), AllocError> {
        out.extend_from_slice(&[self.greater, self.lesser])
    }
}

#[tactic(auto, unfolding(crate::specs::Spelling::spelled_vtype))]
fn put_vtype<A: Allocator>(out: &mut Vec<u8, A>, vtype: Option<u8>) -> Result<(), AllocError>
    ensures { OnOk result (out.new.items ≡ out.old.items ++ spelled_vtype vtype) }
{
    match vtype {
        None => out.extend_from_slice(&[0, 0])?,
        Some(vtype) => out.extend_from_slice(&[1, vtype])?,
    }
    Ok(())
}

#[tactic(auto, unfolding(crate::specs::Spelling::counts))]
fn put_counts<A: Allocator>(
    out: &mut Vec<u8, A>,
    version: Version,
    number: Counts,
) -> Result<(), AllocError>
    ensures { OnOk result (out.new.items ≡ out.old.items
        ++ counts version number.registers number.vectors number.orders) }
{
    match version {
        Version::V1 => out.extend_from_slice(&[number.registers, number.vectors, 0, 0, 0])?,
        Version::V2 => {
            out.extend_from_slice(&[number.registers, number.vectors, number.orders, 0])?
        }
    }
    Ok(())
}

#[tactic(auto, unfolding(crate::specs::Spelling::spelled_block))]
fn put_block<A: Allocator>(
    out: &mut Vec<u8, A>,
    version: Version,
    block: &Block,
) -> Result<(), AllocError>
    ensures { OnOk result (out.new.items ≡ out.old.items ++ spelled_block version block.now) }
{
    put_word(out, block.start)?;
    put_budget(out, version, block.budget)?;
    put_vtype(out, block.vtype)?;
    let number = Counts {
        registers: block.registers.len() as u8,
        vectors: block.vectors.len() as u8,
        orders: block.orders.len() as u8,
    };
    put_counts(out, version, number)?;
    put_each(out, block.registers.as_slice())?;
    put_each(out, block.vectors.as_slice())?;
    put_each(out, block.orders.as_slice())
}

fn put_blocks<A: Allocator>(
    out: &mut Vec<u8, A>,
    version: Version,
    blocks: &[Block],
) -> Result<(), AllocError>
    ensures { OnOk result (out.new.items ≡ out.old.items
        ++ flat_map (spelled_block version) blocks.now) }
{
    for block in blocks {
        put_block(out, version, block)?;
    }
    Ok(())
}

#[tactic(auto, unfolding(crate::specs::Spelling::spelling))]
fn spelled<A: Allocator, B: Allocator>(
    alloc: A,
    certificate: &Contents<B>,
) -> Result<Vec<u8, A>, AllocError>
    requires { length certificate.now.blocks.items ≤ 1024 }
    ensures { IfOk result (λ v. v.items ≡ spelling (view certificate.now)) }
{
    let mut out = Vec::new(alloc);
    put_header(&mut out, certificate.version, certificate.vlen)?;
    put_each(&mut out, &certificate.parameters.to_array())?;
    put_half(&mut out, certificate.blocks.len() as u16)?;
    put_half(&mut out, 0)?;
    put_blocks(&mut out, certificate.version, certificate.blocks.as_slice())?;
    Ok(out)
}

/// The one spelling of a certificate: the bytes that `read` takes for it, and no others. `alloc` gives the memory of
/// the bytes; the certificate may lie in that of another allocator, and stays as it is. The layout of the bytes stands
/// in docs/CERTIFICATES.md.
///
/// # Errors
/// An error comes only where an allocation was refused.
pub fn write<A: Allocator, B: Allocator>(
    alloc: A,
    certificate: &Certificate<B>,
) -> Result<Vec<u8, A>, AllocError>
    ensures { IfOk result (λ v. v.items ≡ spelling certificate.now) }
{
    spelled(alloc, certificate.contents())
}

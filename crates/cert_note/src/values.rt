//! What a certificate states.
ghost use Rattle.std.specs.Prelude.{◌≡◌};
ghost use Rattle.cert_note.specs.declared.values.TheConstants.{PARAMETER_ATOMS};
ghost use Rattle.cert_note.specs.declared.values.TheConstants.{PARAMETER_ATOMS_END};

use arrayvec::ArrayVec;
use region_mem::Parameters;
use std::alloc::{Allocator, Global};
use std::fmt;
use std::marker::Model;
use vreg_groups::Vlen;

/// The atom of the first parameter.
pub const PARAMETER_ATOMS: u8 = 33;

/// The atoms of parameters lie below this.
pub const PARAMETER_ATOMS_END: u8 = 41;

/// Law: which atoms stand for parameters, in numbers.
pub fn atoms_in_numbers()
    ensures first { PARAMETER_ATOMS ≡ 33 }
    ensures end { PARAMETER_ATOMS_END ≡ 41 }
{}

/// A multiple of an atom, which is a value that an equality may speak of.
#[derive(Clone, Copy, Default, PartialEq, Eq)]
pub struct EqualityTerm {
    /// Where the block begins, the value of a register (1 to 31: x1 to x31) or of vl (32); or the value at the start of
    /// the run of the parameter at place j, counted from 0 ([`PARAMETER_ATOMS`] + j), which has to be a scalar.
    pub atom: u8,
    /// What the atom is multiplied by, modulo 2^32: 2^32 - 4 stands for -4. It is not 0 in a certificate.
    pub coefficient: u32,
}

/// A sum: a constant and multiples of atoms, added modulo 2^32.
#[derive(Drop)]
pub struct Equality {
    /// What the sum is where there are no terms.
    pub constant: u32,
    /// In a certificate by rising atom, and of no register and no vl that has an equality in the same block.
    pub terms: ArrayVec<EqualityTerm, 8>,
}

/// A register, or vl, lies between two numbers where a block begins, and is equal to a sum, if one is stated.
#[derive(Default, Drop)]
pub struct RegisterFact {
    /// A register (1 to 31: x1 to x31) or vl (32).
    pub number: u8,
    /// The least value that it may have, unsigned.
    pub low: u32,
    /// The greatest value that it may have, itself included, unsigned. In a certificate it is not below `low`.
    pub high: u32,
    /// The sum that it is equal to modulo 2^32. In a certificate there is one wherever the interval is 0 to 2^32 - 1,
    /// which by itself says nothing.
    pub equality: Option<Equality>,
}

/// The first elements of a group of vector registers lie between two numbers, both included, where a block begins.
#[derive(Clone, Copy, Default, PartialEq, Eq)]
pub struct VectorFact {
    /// The group's first register, 0 to 31. In a certificate it is a multiple of `registers`.
    pub register: u8,
    /// The width of an element in bits. In a certificate it is 8, 16 or 32.
    pub width: u8,
    /// How many registers the group has. In a certificate they are 1, 2, 4 or 8.
    pub registers: u8,
    /// How many elements the fact speaks of, from the first on. 0 stands for vl of them, as far as the group has them.
    /// In a certificate they are at most the elements of the group.
    pub count: u16,
    /// The least value that they may have, unsigned.
    pub low: u32,
    /// The greatest value that they may have, itself included, unsigned. In a certificate it is not below `low` and is
    /// below 2^`width`, and the interval is not all of 0 to 2^`width` - 1.
    pub high: u32,
}

/// The form of a certificate's bytes, and what it can say. Version 2 says all that version 1 does, and also budgets of
/// two registers and orders.
#[derive(Clone, Copy, PartialEq, Eq)]
pub enum Version {
    /// Version 1: a budget has one register, and no order is stated.
    V1,
    /// Version 2: a budget may have a second register, and a block may state orders.
    V2,
}

/// How long a run may still be: where a block begins, at most `constant + factor * x[register] + second_factor *
/// x[second_register]` instructions are executed from there to the end of the run. These are whole numbers: the sum does
/// not wrap, and the registers are unsigned.
#[derive(Clone, Copy, PartialEq, Eq)]
pub struct Budget {
    /// The number of instructions that does not depend on a register.
    pub constant: u32,
    /// How many instructions there are for each one in the register's value.
    pub factor: u32,
    /// The register, as its value is where the block begins. In a certificate it is 0 where `factor` is 0, and else 1
    /// to 31 (x1 to x31).
    pub register: u8,
    /// How many instructions there are for each one in the second register's value. In a certificate it is 0 where
    /// `factor` is 0, and in all of version 1.
    pub second_factor: u32,
    /// The second register, as its value is where the block begins. In a certificate it is 0 where `second_factor` is
    /// 0, and else above `register` and at most 31.
    pub second_register: u8,
}

impl fmt::Display for Budget {
    ghost use Rattle.std.specs.Prelude.{Some};
    ghost use Rattle.cert_note.specs.Values.{budget_text};

    ghost output = { λ budget. Some (budget_text budget) };

    fn fmt<W: fmt::Write>(&self, f: &mut fmt::Formatter<W>) -> fmt::Result {
        let Budget {
            constant,
            factor,
            register,
            second_factor,
            second_register,
        } = *self;
        write!(f, "{constant} + {factor} * x{register}")?;
        if second_factor == 0 {
            return Ok(());
        }
        write!(f, " + {second_factor} * x{second_register}")
    }
}

/// The value of one register, or of vl, is at most that of another where a block begins, both unsigned.
#[derive(Clone, Copy, Default, PartialEq, Eq)]
pub struct OrderFact {
    /// The register (1 to 31: x1 to x31), or vl (32), whose value is not the lesser one. In a certificate it has no
    /// equality in the same block.
    pub greater: u8,
    /// The register, or vl, whose value is at most that of `greater`. In a certificate it is another one, and has no
    /// equality in the same block.
    pub lesser: u8,
}

/// What holds wherever a block of the code begins: how long a run may still be, the vector type where that is known,
/// and facts.
#[derive(Drop)]
pub struct Block {
    /// The address of the block's first instruction. In a certificate it is a multiple of 4.
    pub start: u32,
    /// How long a run may still be.
    pub budget: Budget,
    /// Bits 7 to 0 of vtype, if they are known. In a certificate they are of a vector type that is supported: elements
    /// of 8, 16 or 32 bits in groups of 1, 2, 4 or 8 registers or of a half or a quarter of one, the element at most 16
    /// bits in a half and 8 bits in a quarter; with any policy for the elements that are not written.
    pub vtype: Option<u8>,
    /// Facts on registers and vl, in a certificate by rising number.
    pub registers: ArrayVec<RegisterFact, 32>,
    /// Facts on vector registers, in a certificate by rising register, of groups that share none.
    pub vectors: ArrayVec<VectorFact, 32>,
    /// Orders of two registers, in a certificate by rising `greater`. Version 1 has none.
    pub orders: ArrayVec<OrderFact, 32>,
}

/// What a certificate states of an image, whether it meets the conditions on certificates or not. `A` is the allocator
/// of its blocks.
#[derive(Drop)]
pub struct Contents<A: Allocator = Global> {
    /// The form of its bytes.
    pub version: Version,
    /// The length of a vector register.
    pub vlen: Vlen,
    /// What the image's code takes, by place.
    pub parameters: Parameters,
    /// What holds where each block begins. In a certificate they are at most 1,024, by rising start.
    pub blocks: Vec<Block, A>,
}

/// How many facts a block has: on registers, on vector registers, and of orders.
#[derive(Clone, Copy)]
pub struct Counts {
    pub registers: u8,
    pub vectors: u8,
    pub orders: u8,
}

/// A group of vector registers, and the width of its elements in bits.
#[derive(Clone, Copy)]
pub struct FactGroup {
    pub register: u8,
    pub width: u8,
    pub registers: u8,
}

/// What stands before the blocks of a certificate.
#[derive(Drop)]
pub struct Front {
    pub version: Version,
    pub vlen: Vlen,
    pub parameters: Parameters,
    pub count: u16,
}

/// A certificate: contents that meet all conditions on certificates, which the fields of [`Contents`] and of its parts
/// name. Contracts see it as its contents, without where they lie in memory. `A` is the allocator of its blocks.
#[derive(Drop)]
pub struct Certificate<A: Allocator = Global> {
    contents: Contents<A>,
}

impl<A: Allocator> Model for Certificate<A> {
    ghost use Rattle.cert_note.specs.Certificate.{CertificateView, IsCertificate, view as view_of};

    ghost Value = { CertificateView };

    ghost view = { λ c. view_of c.contents };

    ghost invariant = { λ c. IsCertificate (view_of c.contents) };
}

impl<A: Allocator> Certificate<A> {
    ghost use Rattle.std.specs.Prelude.{◌≡◌};
    ghost use Rattle.cert_note.specs.Certificate.{IsCertificate, view};

    /// The certificate with these contents, which have to meet the conditions on certificates. It takes no memory: the
    /// contents are moved in.
    pub fn new(contents: Contents<A>) -> Certificate<A>
        requires { IsCertificate (view contents) }
        ensures { result ≡ view contents }
    {
        Certificate { contents }
    }

    /// What the certificate states. It meets the conditions on certificates.
    pub fn contents(&self) -> &Contents<A>
        ensures value { view result.now ≡ self.now }
        ensures certificate { IsCertificate self.now }
    {
        &self.contents
    }
}

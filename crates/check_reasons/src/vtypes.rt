//! What vtype holds, in words.
ghost use Rattle.std.specs.Prelude.{◌≡◌};
ghost use Rattle.check_reasons.specs.Vtypes.{held_of, kept_vtype, lmul_text, mask_text};
ghost use Rattle.check_reasons.specs.Vtypes.{tail_text, vtype_in};
ghost use Rattle.vreg_groups.specs.VectorType.{vtype_of};

use std::fmt;
use vreg_groups::{Lmul, Vtype};

/// The vector type that vtype holds, as far as it is known.
#[derive(Clone, Copy, PartialEq, Eq)]
pub enum HeldVtype {
    /// It is not known.
    Unknown,
    /// vill is set: there is no vector type.
    Vill,
    /// Bits 7 to 0 of vtype, where the bits above are clear.
    Type(u8),
}

impl HeldVtype {
    /// What the register vtype holds. A vector type that is not supported counts as vill.
    #[tactic(auto, unfolding(vreg_groups::specs::VectorType::vtype_of))]
    pub fn from_bits(bits: u32) -> HeldVtype
        ensures meaning { result ≡ held_of bits }
        ensures vector_type { vtype_in result ≡ vtype_of bits }
    {
        match Vtype::from_bits(bits) {
            None => HeldVtype::Vill,
            Some(_) => HeldVtype::Type(bits as u8),
        }
    }

    /// The vector type, where one is known and supported.
    pub fn vector_type(self) -> Option<Vtype>
        ensures { result ≡ vtype_in self }
    {
        match self {
            HeldVtype::Unknown | HeldVtype::Vill => None,
            HeldVtype::Type(bits) => Vtype::from_bits(u32::from(bits)),
        }
    }
}

/// What a state of the check keeps of vtype: bits 7 to 0, if they are known.
pub(crate) fn kept_vtype(bits: Option<u8>) -> HeldVtype
    ensures { result ≡ kept_vtype bits }
{
    match bits {
        None => HeldVtype::Unknown,
        Some(bits) => HeldVtype::Type(bits),
    }
}

/// LMUL, as assembly has it.
fn lmul_name(lmul: Lmul) -> &'static str
    ensures { result.now ≡ lmul_text lmul }
{
    match lmul {
        Lmul::Quarter => "mf4",
        Lmul::Half => "mf2",
        Lmul::One => "m1",
        Lmul::Two => "m2",
        Lmul::Four => "m4",
        Lmul::Eight => "m8",
    }
}

/// The policy of tail elements.
fn tail_name(vta: bool) -> &'static str
    ensures { result.now ≡ tail_text vta }
{
    if vta { "ta" } else { "tu" }
}

/// The policy of elements that the mask leaves out.
fn mask_name(vma: bool) -> &'static str
    ensures { result.now ≡ mask_text vma }
{
    if vma { "ma" } else { "mu" }
}

/// A vector type: SEW, LMUL and both policies, as assembly has them.
#[derive(Clone, Copy)]
struct Fields(Vtype);

impl fmt::Display for Fields {
    ghost use Rattle.std.specs.Prelude.{Some};
    ghost use Rattle.check_reasons.specs.Vtypes.{fields_text};

    ghost output = { λ fields. Some (fields_text fields.0) };

    #[tactic(auto, unfolding(crate::specs::Vtypes::fields_text))]
    fn fmt<W: fmt::Write>(&self, f: &mut fmt::Formatter<W>) -> fmt::Result {
        let vtype = self.0;
        let sew = vtype.sew.bits();
        let lmul = lmul_name(vtype.lmul);
        let tail = tail_name(vtype.vta);
        let mask = mask_name(vtype.vma);
        write!(f, "e{sew}, {lmul}, {tail}, {mask}")
    }
}

/// Bits 7 to 0 of vtype, which a block states.
#[derive(Clone, Copy)]
pub(crate) struct VtypeText(pub(crate) u8);

impl fmt::Display for VtypeText {
    ghost use Rattle.std.specs.Prelude.{Some};
    ghost use Rattle.check_reasons.specs.Vtypes.{vtype_text};

    ghost output = { λ told. Some (vtype_text told.0) };

    #[tactic(auto, unfolding(crate::specs::Vtypes::vtype_text))]
    fn fmt<W: fmt::Write>(&self, f: &mut fmt::Formatter<W>) -> fmt::Result {
        match Vtype::from_bits(u32::from(self.0)) {
            None => f.write_str("one that is not supported"),
            Some(vtype) => {
                let fields = Fields(vtype);
                write!(f, "{fields}")
            }
        }
    }
}

/// A vector type that is known, if it is supported.
#[derive(Clone, Copy)]
struct KnownType(Option<Vtype>);

impl fmt::Display for KnownType {
    ghost use Rattle.std.specs.Prelude.{Some};
    ghost use Rattle.check_reasons.specs.Vtypes.{type_text};

    ghost output = { λ known. Some (type_text known.0) };

    fn fmt<W: fmt::Write>(&self, f: &mut fmt::Formatter<W>) -> fmt::Result {
        match self.0 {
            None => f.write_str("a vector type that is not supported"),
            Some(vtype) => {
                let fields = Fields(vtype);
                write!(f, "a vector type of {fields}")
            }
        }
    }
}

impl fmt::Display for HeldVtype {
    ghost use Rattle.std.specs.Prelude.{Some};
    ghost use Rattle.check_reasons.specs.Vtypes.{held_text};

    ghost output = { λ held. Some (held_text held) };

    #[tactic(auto, unfolding(crate::specs::Vtypes::held_text))]
    fn fmt<W: fmt::Write>(&self, f: &mut fmt::Formatter<W>) -> fmt::Result {
        match self {
            HeldVtype::Unknown => f.write_str("no vector type"),
            HeldVtype::Vill => f.write_str("vill is set: there is no vector type"),
            HeldVtype::Type(bits) => {
                let known = KnownType(Vtype::from_bits(u32::from(*bits)));
                write!(f, "{known}")
            }
        }
    }
}

//! A word that is not legal under the vector type that is held.
ghost use Rattle.std.specs.Prelude.{◌≡◌, is_some, not, option_map};
ghost use Rattle.rv_decode.specs.Needs.{needs_of};
ghost use Rattle.vreg_groups.specs.Legality.{are_operands_legal, count_of, element_bits};
ghost use Rattle.check_reasons.specs.Illegal.{group_of, illegal_in, is_access, legal_lines};
ghost use Rattle.check_reasons.specs.Illegal.{mask_line};
ghost use Rattle.check_reasons.specs.Vtypes.{vtype_in};

use crate::rules::{Rule, Wish, rule_in, third_name};
use crate::vtypes::HeldVtype;
use rv_decode::{Extent, Insn, Operand, Reg, needs, vector_arithmetic};
use std::fmt;
use vreg_groups::{Vtype, whole_count};

/// The registers that an operand covers.
#[derive(Clone, Copy)]
pub struct Group {
    pub first: Reg,
    pub registers: usize,
    /// The width of its elements, where the vector type is known.
    pub bits: Option<u8>,
}

/// A word that is not legal.
#[derive(Clone, Copy)]
pub struct Illegal {
    pub vtype: HeldVtype,
    pub destination: Option<Group>,
    pub vs2: Option<Group>,
    /// Of a store the data, which the standard calls vs3.
    pub vs1: Option<Group>,
    /// Whether it reads v0 as a mask, a carry or a selecting operand.
    pub is_masked: bool,
    /// Whether it is a load or store.
    pub is_access: bool,
    /// The first rule that its operands break, if they break one.
    pub rule: Option<Rule>,
}

/// How many registers an operand covers.
#[tactic(auto, unfolding(vreg_groups::specs::Legality::count_of))]
fn count_in(vtype: Option<Vtype>, extent: Extent) -> usize
    ensures { result ≡ count_of vtype extent }
{
    match extent {
        Extent::Group(eew) => match vtype {
            None => 1,
            Some(vtype) => vtype.group_count(eew),
        },
        Extent::Single(_) | Extent::Mask => 1,
        Extent::Whole(count) => whole_count(count),
    }
}

/// The width of an operand's elements.
#[tactic(auto, unfolding(vreg_groups::specs::Legality::element_bits))]
fn bits_in(vtype: Vtype, extent: Extent) -> u8
    ensures { result ≡ element_bits vtype extent }
{
    match extent {
        Extent::Group(eew) | Extent::Single(eew) => vtype.eew_bits(eew),
        Extent::Mask => 1,
        Extent::Whole(_) => 8,
    }
}

/// The registers of an operand, if there is one.
fn group_in(vtype: Option<Vtype>, operand: Option<Operand>) -> Option<Group>
    ensures { result ≡ option_map (group_of vtype) operand }
{
    let operand = operand?;
    let bits = match vtype {
        None => None,
        Some(vtype) => Some(bits_in(vtype, operand.extent)),
    };
    Some(Group {
        first: operand.first,
        registers: count_in(vtype, operand.extent),
        bits,
    })
}

/// Whether an instruction is a vector load or store.
fn is_access(insn: &Insn) -> bool
    ensures { result ≡ is_access insn.now }
{
    match *insn {
        Insn::VMem(_) => true,
        Insn::Scalar(_) | Insn::Csr(_) | Insn::VSet(_) | vector_arithmetic!() => false,
    }
}

/// An instruction's operands in vector registers under what vtype holds, and the rule that they break.
pub fn operands_in(vtype: HeldVtype, insn: &Insn) -> Illegal
    ensures meaning { result ≡ illegal_in vtype insn.now }
    // A rule is named exactly where the instruction is not legal.
    ensures named { is_some result.rule
        ≡ not (are_operands_legal (vtype_in vtype) (needs_of insn.now)) }
{
    let known = vtype.vector_type();
    let operands = needs(insn);
    Illegal {
        vtype,
        destination: group_in(known, operands.destination),
        vs2: group_in(known, operands.vs2),
        vs1: group_in(known, operands.vs1),
        is_masked: operands.is_masked,
        is_access: is_access(insn),
        rule: rule_in(known, &operands),
    }
}

/// A number of registers.
#[derive(Clone, Copy)]
struct Registers(usize);

impl fmt::Display for Registers {
    ghost use Rattle.std.specs.Prelude.{Some};
    ghost use Rattle.check_reasons.specs.Illegal.{registers_text};

    ghost output = { λ registers. Some (registers_text registers.0) };

    #[tactic(auto, unfolding(crate::specs::Illegal::registers_text))]
    fn fmt<W: fmt::Write>(&self, f: &mut fmt::Formatter<W>) -> fmt::Result {
        let registers = self.0;
        if registers == 1 {
            f.write_str("1 register")
        } else {
            write!(f, "{registers} registers")
        }
    }
}

/// A number of bits.
#[derive(Clone, Copy)]
struct Width(u8);

impl fmt::Display for Width {
    ghost use Rattle.std.specs.Prelude.{Some};
    ghost use Rattle.check_reasons.specs.Illegal.{width_text};

    ghost output = { λ width. Some (width_text width.0) };

    #[tactic(auto, unfolding(crate::specs::Illegal::width_text))]
    fn fmt<W: fmt::Write>(&self, f: &mut fmt::Formatter<W>) -> fmt::Result {
        let bits = self.0;
        if bits == 1 {
            f.write_str("1 bit")
        } else {
            write!(f, "{bits} bits")
        }
    }
}

/// The width of a group's elements, where it is known.
#[derive(Clone, Copy)]
struct ElementsOf(Option<u8>);

impl fmt::Display for ElementsOf {
    ghost use Rattle.std.specs.Prelude.{Some};
    ghost use Rattle.check_reasons.specs.Illegal.{elements_text};

    ghost output = { λ elements. Some (elements_text elements.0) };

    fn fmt<W: fmt::Write>(&self, f: &mut fmt::Formatter<W>) -> fmt::Result {
        match self.0 {
            None => Ok(()),
            Some(bits) => {
                let width = Width(bits);
                write!(f, ", elements of {width}")
            }
        }
    }
}

/// The registers of an operand, as a line under its name.
#[derive(Clone, Copy)]
struct GroupLine<'a>(&'a str, Option<Group>);

impl fmt::Display for GroupLine<'_> {
    ghost use Rattle.std.specs.Prelude.{Some};
    ghost use Rattle.check_reasons.specs.Illegal.{group_line};

    ghost output = { λ line. Some (group_line line.0.now line.1) };

    fn fmt<W: fmt::Write>(&self, f: &mut fmt::Formatter<W>) -> fmt::Result {
        let name = self.0;
        match self.1 {
            None => Ok(()),
            Some(group) => {
                let registers = Registers(group.registers);
                let first = group.first.number();
                let elements = ElementsOf(group.bits);
                writeln!(f, "  {name}: {registers} from v{first} on{elements}")
            }
        }
    }
}

/// Whether an instruction is masked, as a line.
fn mask_line(is_masked: bool) -> &'static str
    ensures { result.now ≡ mask_line is_masked }
{
    if is_masked { "  masked by v0\n" } else { "" }
}

/// What is wanted of operands, as lines.
fn legal_lines() -> &'static str
    ensures { result.now ≡ legal_lines }
{
    "  wanted: elements of 8 to 32 bits, in at most 8 registers from a multiple of their number on
  wanted: vd apart from sources of another width, and from a mask
"
}

/// What is wanted of the operands of a load or store, or of another instruction: what the rule wants that they break.
#[derive(Clone, Copy)]
struct WantedLines(Option<Rule>, bool);

impl fmt::Display for WantedLines {
    ghost use Rattle.std.specs.Prelude.{Some};
    ghost use Rattle.check_reasons.specs.Illegal.{wanted_lines};

    ghost output = { λ wanted. Some (wanted_lines wanted.0 wanted.1) };

    fn fmt<W: fmt::Write>(&self, f: &mut fmt::Formatter<W>) -> fmt::Result {
        let WantedLines(rule, is_access) = *self;
        match rule {
            None => f.write_str(legal_lines()),
            Some(rule) => {
                let wish = Wish(rule, is_access);
                writeln!(f, "  wanted: {wish}")
            }
        }
    }
}

impl fmt::Display for Illegal {
    ghost use Rattle.std.specs.Prelude.{Some};
    ghost use Rattle.check_reasons.specs.Illegal.{illegal_text};

    ghost output = { λ illegal. Some (illegal_text illegal) };

    #[tactic(auto, unfolding(crate::specs::Illegal::illegal_text))]
    fn fmt<W: fmt::Write>(&self, f: &mut fmt::Formatter<W>) -> fmt::Result {
        let vtype = self.vtype;
        let destination = GroupLine("vd", self.destination);
        let vs2 = GroupLine("vs2", self.vs2);
        let vs1 = GroupLine(third_name(self.is_access), self.vs1);
        let mask = mask_line(self.is_masked);
        let wanted = WantedLines(self.rule, self.is_access);
        write!(f, "  known: {vtype}\n{destination}{vs2}{vs1}{mask}{wanted}")
    }
}

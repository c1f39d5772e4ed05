//! The rule on operands in vector registers that an instruction breaks.
ghost use Rattle.std.specs.Prelude.{◌≡◌, Some, None, is_some, not, true, false};
ghost use Rattle.vreg_groups.specs.Legality.{is_group_legal, is_mask_legal, is_operand_legal};
ghost use Rattle.vreg_groups.specs.Legality.{is_present_legal, is_source_legal};
ghost use Rattle.check_reasons.specs.Rules.{AreLegalAlone, first_alone, group_rule, operand_rule};
ghost use Rattle.check_reasons.specs.Rules.{present_rule, role_text, rule_of, shared_rule};
ghost use Rattle.check_reasons.specs.Rules.{third_name};

use rv_decode::{Eew, Extent, Operand, Operands, Reg, Sharing};
use std::fmt;
use vreg_groups::{Vtype, are_operands_legal, whole_count};

/// What an operand in vector registers is to its instruction.
#[derive(Clone, Copy, PartialEq, Eq)]
pub enum Role {
    Destination,
    Vs2,
    /// Of a store the data, which the standard calls vs3.
    Vs1,
}

/// A rule on operands in vector registers that an instruction breaks.
#[derive(Clone, Copy, PartialEq, Eq)]
pub enum Rule {
    /// A vector type is needed, and there is none.
    VectorType,
    /// The elements of an operand have 8 to 32 bits. These have another width.
    Width {
        role: Role,
        bits: u8,
    },
    /// An operand has at most 8 registers. This one has more.
    Size {
        role: Role,
        registers: usize,
    },
    /// An operand's first register is at a multiple of how many it has. This one is not.
    Multiple {
        role: Role,
        first: Reg,
        registers: usize,
    },
    /// The destination overlaps a source only as their widths let it. Here it overlaps this one otherwise.
    Overlap(Role),
    /// The destination of a masked instruction is apart from v0. Here it holds v0.
    Mask,
}

/// Whether an operand is legal by itself.
#[tactic(auto, unfolding(vreg_groups::specs::Legality::are_operands_legal, vreg_groups::specs::Legality::is_destination_legal))]
fn is_legal_alone(vtype: Option<Vtype>, operand: Option<Operand>) -> bool
    ensures { result ≡ is_present_legal vtype operand }
{
    let operands = Operands {
        destination: None,
        vs2: operand,
        vs1: None,
        is_masked: false,
        sharing: Sharing::ByWidth,
    };
    are_operands_legal(vtype, &operands)
}

/// Whether a destination and a source may have their registers, where each is legal by itself.
#[tactic(auto, unfolding(vreg_groups::specs::Legality::are_operands_legal, vreg_groups::specs::Legality::is_destination_legal))]
fn may_share(
    vtype: Option<Vtype>,
    sharing: Sharing,
    destination: &Operand,
    source: Option<Operand>,
) -> bool
    requires destination { is_present_legal vtype (Some destination.now) ≡ true }
    requires source { is_present_legal vtype source ≡ true }
    ensures { result ≡ is_source_legal vtype sharing destination.now source }
{
    let operands = Operands {
        destination: Some(*destination),
        vs2: source,
        vs1: None,
        is_masked: false,
        sharing,
    };
    are_operands_legal(vtype, &operands)
}

/// Whether a destination that is legal by itself is apart from the mask as it has to be.
#[tactic(auto, unfolding(vreg_groups::specs::Legality::are_operands_legal, vreg_groups::specs::Legality::is_destination_legal))]
fn keeps_mask(
    vtype: Option<Vtype>,
    is_masked: bool,
    sharing: Sharing,
    destination: &Operand,
) -> bool
    requires { is_present_legal vtype (Some destination.now) ≡ true }
    ensures { result ≡ is_mask_legal vtype is_masked sharing destination.now }
{
    let operands = Operands {
        destination: Some(*destination),
        vs2: None,
        vs1: None,
        is_masked,
        sharing,
    };
    are_operands_legal(vtype, &operands)
}

/// Whether an operand of this extent would be legal in v0, which is at a multiple of every number of registers.
fn is_legal_at_v0(vtype: Vtype, extent: Extent) -> bool
    ensures { result ≡ is_operand_legal (Some vtype) extent 0 }
{
    let operand = Operand {
        first: Reg::new(0),
        extent,
    };
    is_legal_alone(Some(vtype), Some(operand))
}

/// The rule that a group breaks which is not legal.
#[tactic(auto, unfolding(crate::specs::Rules::group_rule))]
fn group_rule(vtype: Vtype, role: Role, first: Reg, eew: Eew) -> Rule
    requires { is_group_legal vtype eew first ≡ false }
    ensures { Some result ≡ group_rule vtype role first eew }
{
    let registers = vtype.group_count(eew);
    if !is_legal_at_v0(vtype, Extent::Single(eew)) {
        Rule::Width {
            role,
            bits: vtype.eew_bits(eew),
        }
    } else if !is_legal_at_v0(vtype, Extent::Group(eew)) {
        Rule::Size { role, registers }
    } else {
        Rule::Multiple {
            role,
            first,
            registers,
        }
    }
}

/// The rule that an operand breaks by itself which is not legal.
#[tactic(auto, using(crate::proofs::RuleLemmas::whole_broken), unfolding(crate::specs::Rules::operand_rule, vreg_groups::specs::Legality::is_operand_legal))]
fn operand_rule(vtype: Option<Vtype>, role: Role, operand: Operand) -> Rule
    requires { is_operand_legal vtype operand.extent operand.first ≡ false }
    ensures { Some result ≡ operand_rule vtype role operand.first operand.extent }
{
    let Operand { first, extent } = operand;
    match extent {
        Extent::Whole(count) => Rule::Multiple {
            role,
            first,
            registers: whole_count(count),
        },
        Extent::Group(eew) => match vtype {
            None => Rule::VectorType,
            Some(vtype) => group_rule(vtype, role, first, eew),
        },
        Extent::Single(eew) => match vtype {
            None => Rule::VectorType,
            Some(vtype) => Rule::Width {
                role,
                bits: vtype.eew_bits(eew),
            },
        },
        Extent::Mask => Rule::VectorType,
    }
}

/// The rule that an operand breaks by itself, if there is such an operand and it breaks one.
fn present_rule(vtype: Option<Vtype>, role: Role, operand: Option<Operand>) -> Option<Rule>
    ensures meaning { result ≡ present_rule vtype role operand }
    ensures named { is_some result ≡ not (is_present_legal vtype operand) }
{
    if is_legal_alone(vtype, operand) {
        return None;
    }
    Some(operand_rule(vtype, role, operand?))
}

/// The first rule that an operand breaks by itself.
#[tactic(auto, unfolding(crate::specs::Rules::first_alone))]
fn first_alone(vtype: Option<Vtype>, operands: &Operands) -> Option<Rule>
    ensures meaning { result ≡ first_alone vtype operands.now }
    ensures legal { result ≡ None → AreLegalAlone vtype operands.now }
{
    let destination = present_rule(vtype, Role::Destination, operands.destination);
    if destination.is_some() {
        return destination;
    }
    let vs2 = present_rule(vtype, Role::Vs2, operands.vs2);
    if vs2.is_some() {
        return vs2;
    }
    present_rule(vtype, Role::Vs1, operands.vs1)
}

/// The first rule that a destination breaks beside the sources and the mask, where each operand is legal by itself.
#[tactic(auto, unfolding(crate::specs::Rules::shared_rule))]
fn shared_rule(vtype: Option<Vtype>, operands: &Operands, destination: &Operand) -> Option<Rule>
    requires alone { AreLegalAlone vtype operands.now }
    requires destination { is_present_legal vtype (Some destination.now) ≡ true }
    ensures { result ≡ shared_rule vtype operands.now destination.now }
{
    let sharing = operands.sharing;
    if !may_share(vtype, sharing, destination, operands.vs2) {
        Some(Rule::Overlap(Role::Vs2))
    } else if !may_share(vtype, sharing, destination, operands.vs1) {
        Some(Rule::Overlap(Role::Vs1))
    } else if !keeps_mask(vtype, operands.is_masked, sharing, destination) {
        Some(Rule::Mask)
    } else {
        None
    }
}

/// The first rule that operands break under a vector type, `None` with vill set: by themselves, then the destination beside the
/// sources and the mask.
#[tactic(auto, unfolding(crate::specs::Rules::rule_of))]
pub(crate) fn rule_in(vtype: Option<Vtype>, operands: &Operands) -> Option<Rule>
    ensures { result ≡ rule_of vtype operands.now }
{
    let alone = first_alone(vtype, operands);
    if alone.is_some() {
        return alone;
    }
    match &operands.destination {
        None => None,
        Some(destination) => shared_rule(vtype, operands, destination),
    }
}

/// The name of the third operand.
pub(crate) fn third_name(is_access: bool) -> &'static str
    ensures { result.now ≡ third_name is_access }
{
    if is_access { "vs3" } else { "vs1" }
}

/// The name of an operand of a load or store, or of another instruction.
fn role_name(role: Role, is_access: bool) -> &'static str
    ensures { result.now ≡ role_text role is_access }
{
    match role {
        Role::Destination => "vd",
        Role::Vs2 => "vs2",
        Role::Vs1 => third_name(is_access),
    }
}

/// Where an operand of this name is wanted, which begins at this register.
#[derive(Clone, Copy)]
struct Multiple<'a>(&'a str, Reg, usize);

impl fmt::Display for Multiple<'_> {
    ghost use Rattle.std.specs.Prelude.{Some};
    ghost use Rattle.check_reasons.specs.Rules.{multiple_text};

    ghost output = { λ place. Some (multiple_text place.0.now place.1 place.2) };

    fn fmt<W: fmt::Write>(&self, f: &mut fmt::Formatter<W>) -> fmt::Result {
        let Multiple(name, first, registers) = *self;
        let first = first.number();
        write!(
            f,
            "{name} at a multiple of its {registers} registers, not at v{first}"
        )
    }
}

/// What a rule wants of the operands of a load or store, or of another instruction.
#[derive(Clone, Copy)]
pub(crate) struct Wish(pub(crate) Rule, pub(crate) bool);

impl fmt::Display for Wish {
    ghost use Rattle.std.specs.Prelude.{Some};
    ghost use Rattle.check_reasons.specs.Rules.{wish_text};

    ghost output = { λ wish. Some (wish_text wish.0 wish.1) };

    #[tactic(auto, unfolding(crate::specs::Rules::wish_text))]
    fn fmt<W: fmt::Write>(&self, f: &mut fmt::Formatter<W>) -> fmt::Result {
        let Wish(rule, is_access) = *self;
        match rule {
            Rule::VectorType => f.write_str("a vector type"),
            Rule::Width { role, bits } => {
                let name = role_name(role, is_access);
                write!(f, "elements of 8 to 32 bits in {name}, which has {bits}")
            }
            Rule::Size { role, registers } => {
                let name = role_name(role, is_access);
                write!(f, "at most 8 registers in {name}, which has {registers}")
            }
            Rule::Multiple {
                role,
                first,
                registers,
            } => {
                let place = Multiple(role_name(role, is_access), first, registers);
                write!(f, "{place}")
            }
            Rule::Overlap(role) => {
                let name = role_name(role, is_access);
                write!(f, "vd apart from {name}")
            }
            Rule::Mask => f.write_str("vd apart from the mask v0"),
        }
    }
}

//! Accesses that the check refused, and the zones of memory of a run.
ghost use Rattle.std.specs.Prelude.{◌≡◌, ◌+◌, ◌≤◌, ◌<◌, ◌++◌};
ghost use Rattle.arrayvec.specs.ArrayVec.{array_vec_len};
ghost use Rattle.scalar_core.specs.Step.{size_of_load, size_of_store};
ghost use Rattle.abs_transfer.specs.Scalar.{address_range as address_range_of};
ghost use Rattle.check_reasons.specs.Access.{access_wanted, apart_in, buffer_place};
ghost use Rattle.check_reasons.specs.Access.{buffer_places as buffer_places_of};
ghost use Rattle.check_reasons.specs.Access.{elements_in as elements_in_of, is_buffer};
ghost use Rattle.check_reasons.specs.Access.{is_varied, is_varying, no_reach};
ghost use Rattle.check_reasons.specs.Access.{is_store, operand_of};
ghost use Rattle.check_reasons.specs.Access.{reach_from as reach_from_of};
ghost use Rattle.check_reasons.specs.Access.{reach_in as reach_in_of, rights_text, scalar_operand};
ghost use Rattle.check_reasons.specs.Access.{scalar_reach as scalar_reach_of};

use crate::groups::{Vector, group_at};
use crate::spans::{Span, VlLine};
use abs_state::{Abstract, Numbers, Reach, Zone, address_range};
use arrayvec::ArrayVec;
use cert_note::VectorFact;
use explanations::Address;
use linear_facts::Range;
use region_mem::{Param, Parameters};
use rv_decode::{
    Addressing, Direction, Insn, LoadKind, Reg, ScalarInsn, Width, integer_computation,
    vector_arithmetic,
};
use std::alloc::Allocator;
use std::fmt;

/// The register to which a load or store adds its offset, the offset, and how many bytes are accessed, of a vector
/// instruction 0.
#[derive(Clone, Copy, PartialEq, Eq)]
pub struct Operand {
    pub is_store: bool,
    pub base: Reg,
    pub offset: i32,
    pub size: u8,
}

/// An access that is not proved.
#[derive(Drop)]
pub struct Access {
    pub operand: Operand,
    /// What is known of the base register.
    pub interval: Range,
    /// The elements of a vector instruction.
    pub elements: Option<Elements>,
    /// Where its bytes may lie, if that is known.
    pub reach: Option<Reach>,
    /// The zones of memory of a run: the image's segments, the stack, and the buffers.
    pub zones: ArrayVec<Zone, 25>,
    /// How many segments the image has.
    pub segments: usize,
    /// The places of the parameters that ask for buffers.
    pub buffers: ArrayVec<u8, 8>,
}

/// How far the elements of a vector access lie apart.
#[derive(Clone, Copy)]
pub enum Apart {
    /// They lie one after another.
    Close,
    /// By what a register has, and what is known of it.
    Stride {
        register: Reg,
        range: Range,
    },
    /// As the elements of a group say that begins at a vector register, and what is known of it.
    Indices {
        register: Reg,
        known: Option<VectorFact>,
    },
}

/// What is known of the elements of a vector access.
#[derive(Clone, Copy)]
pub struct Elements {
    pub vl: Range,
    pub apart: Apart,
}

#[tactic(auto, unfolding(scalar_core::specs::Step::size_of_load))]
fn load_size(kind: LoadKind) -> u8
    ensures { result ≡ size_of_load kind }
{
    kind.width().bytes()
}

#[tactic(auto, unfolding(scalar_core::specs::Step::size_of_store))]
fn store_size(width: Width) -> u8
    ensures { result ≡ size_of_store width }
{
    width.bytes()
}

/// The operand of a scalar instruction, if it is a load or store.
fn scalar_operand(insn: ScalarInsn) -> Option<Operand>
    ensures { result ≡ scalar_operand insn }
{
    match insn {
        ScalarInsn::Load {
            kind,
            rs1,
            offset,
            ..
        } => Some(Operand {
            is_store: false,
            base: rs1,
            offset,
            size: load_size(kind),
        }),
        ScalarInsn::Store {
            size,
            rs1,
            offset,
            ..
        } => Some(Operand {
            is_store: true,
            base: rs1,
            offset,
            size: store_size(size),
        }),
        ScalarInsn::Jal { .. }
        | ScalarInsn::Jalr { .. }
        | ScalarInsn::Branch { .. }
        | ScalarInsn::Fence
        | ScalarInsn::Ecall
        | integer_computation!() => None,
    }
}

/// Whether a vector access is a store.
fn is_store(direction: Direction) -> bool
    ensures { result ≡ is_store direction }
{
    match direction {
        Direction::Load => false,
        Direction::Store => true,
    }
}

/// The operand of an instruction, if it is a load or store.
pub(crate) fn operand_of(insn: &Insn) -> Option<Operand>
    ensures { result ≡ operand_of insn.now }
{
    match *insn {
        Insn::Scalar(insn) => scalar_operand(insn),
        Insn::VMem(insn) => Some(Operand {
            is_store: is_store(insn.direction),
            base: insn.rs1,
            offset: 0,
            size: 0,
        }),
        Insn::Csr(_) | Insn::VSet(_) | vector_arithmetic!() => None,
    }
}

/// Where `size` bytes may lie, with the address of the first one in `range`.
fn reach_from(range: Range, size: u8) -> Reach
    ensures { result ≡ reach_from_of range size }
{
    Reach {
        first: u64::from(range.lo),
        end: u64::from(range.hi) + u64::from(size),
    }
}

/// Where the bytes of a load or store may lie.
#[tactic(auto, unfolding(crate::specs::Access::scalar_reach))]
fn scalar_reach<A: Allocator>(numbers: &Numbers<A>, insn: ScalarInsn) -> Option<Reach>
    ensures { result ≡ scalar_reach_of numbers.now insn }
{
    let operand = scalar_operand(insn)?;
    let range = address_range(numbers, operand.base, operand.offset);
    Some(reach_from(range, operand.size))
}

/// Where the bytes of an instruction's access may lie, with what is known before it.
#[tactic(auto, unfolding(crate::specs::Access::reach_in))]
pub(crate) fn reach_in<A: Allocator>(state: &Abstract<A>, insn: &Insn) -> Option<Reach>
    ensures { result ≡ reach_in_of insn.now state.now }
{
    match insn {
        Insn::Scalar(insn) => scalar_reach(state.numbers(), *insn),
        Insn::VMem(insn) => state.reach(insn),
        Insn::Csr(_) | Insn::VSet(_) | vector_arithmetic!() => None,
    }
}

/// How far the elements of a vector access lie apart, with what is known before it.
fn apart_in<A: Allocator>(state: &Abstract<A>, place: Addressing) -> Apart
    ensures { result ≡ apart_in state.now place }
{
    match place {
        Addressing::Unit { .. } | Addressing::Mask | Addressing::Whole { .. } => Apart::Close,
        Addressing::Strided { rs2, .. } => Apart::Stride {
            register: rs2,
            range: state.numbers().range_at(usize::from(rs2.number())),
        },
        Addressing::Indexed { vs2, .. } => Apart::Indices {
            register: vs2,
            known: group_at(vs2.number(), state.groups()),
        },
    }
}

/// The elements of a vector access, with what is known before it.
#[tactic(auto, unfolding(crate::specs::Access::elements_in))]
pub(crate) fn elements_in<A: Allocator>(state: &Abstract<A>, insn: &Insn) -> Option<Elements>
    ensures { result ≡ elements_in_of insn.now state.now }
{
    match insn {
        Insn::VMem(insn) => Some(Elements {
            vl: state.numbers().range_at(abs_domain::VL),
            apart: apart_in(state, insn.place),
        }),
        Insn::Scalar(_) | Insn::Csr(_) | Insn::VSet(_) | vector_arithmetic!() => None,
    }
}

/// Whether a parameter asks for a buffer.
fn is_buffer(param: Param) -> bool
    ensures { result ≡ is_buffer param }
{
    match param {
        Param::None | Param::Scalar { .. } => false,
        Param::Buffer { .. } => true,
    }
}

/// Appends the place of a parameter, if it asks for a buffer.
#[tactic(auto, unfolding(crate::specs::Access::buffer_place))]
fn add_place(places: &mut ArrayVec<u8, 8>, place: u8, param: Param)
    requires { array_vec_len places.old < 8 }
    ensures items { places.new.items ≡ places.old.items ++ buffer_place place param }
    ensures len { array_vec_len places.new ≤ array_vec_len places.old + 1 }
{
    if is_buffer(param) {
        places.push(place);
    }
}

/// The places of the parameters that ask for buffers.
pub(crate) fn buffer_places(parameters: &Parameters) -> ArrayVec<u8, 8>
    ensures { result.items ≡ buffer_places_of 0 parameters.now }
{
    let mut places = ArrayVec::new();
    let params = parameters.to_array();
    for (place, param) in params.iter().enumerate() {
        add_place(&mut places, place as u8, *param);
    }
    places
}

/// What may be done in a zone.
fn rights(zone: Zone) -> &'static str
    ensures { result.now ≡ rights_text zone }
{
    match (zone.read, zone.write) {
        (true, true) => "read and write",
        (true, false) => "read",
        (false, true) => "write",
        (false, false) => "neither read nor write",
    }
}

/// The name of a zone by its number: the segments come first, then the stack, and then the buffers of some places.
#[derive(Clone, Copy)]
struct ZoneName<'a> {
    segments: usize,
    buffers: &'a [u8],
    number: usize,
}

impl fmt::Display for ZoneName<'_> {
    ghost use Rattle.std.specs.Prelude.{Some};
    ghost use Rattle.check_reasons.specs.Access.{zone_name};

    ghost output = { λ name. Some (zone_name name.segments name.buffers.now name.number) };

    #[tactic(auto, unfolding(crate::specs::Access::zone_name))]
    fn fmt<W: fmt::Write>(&self, f: &mut fmt::Formatter<W>) -> fmt::Result {
        let ZoneName {
            segments,
            buffers,
            number,
        } = *self;
        if number < segments {
            write!(f, "segment {number}")
        } else if number == segments {
            f.write_str("stack")
        } else {
            let place = match buffers.get(number - segments - 1) {
                Some(place) => *place,
                None => 0,
            };
            write!(f, "a{place}")
        }
    }
}

/// A zone, as a line: its name, its first address, its end, and its rights.
#[derive(Clone, Copy)]
struct ZoneLine<'a> {
    name: ZoneName<'a>,
    zone: Zone,
}

impl fmt::Display for ZoneLine<'_> {
    ghost use Rattle.std.specs.Prelude.{Some};
    ghost use Rattle.check_reasons.specs.Access.{zone_line};

    ghost output = { λ line. Some (zone_line line.name.segments line.name.buffers.now
        line.name.number line.zone) };

    fn fmt<W: fmt::Write>(&self, f: &mut fmt::Formatter<W>) -> fmt::Result {
        let name = self.name;
        let first = Address(self.zone.first);
        let end = Address(self.zone.end);
        let rights = rights(self.zone);
        writeln!(f, "    {name}, from {first} and below {end}: {rights}")
    }
}

/// The zones, a line each.
#[derive(Clone, Copy)]
struct ZoneLines<'a> {
    segments: usize,
    buffers: &'a [u8],
    zones: &'a [Zone],
}

impl fmt::Display for ZoneLines<'_> {
    ghost use Rattle.std.specs.Prelude.{Some};
    ghost use Rattle.check_reasons.specs.Access.{zone_lines};

    ghost output = { λ lines. Some (zone_lines lines.segments lines.buffers.now lines.zones.now) };

    fn fmt<W: fmt::Write>(&self, f: &mut fmt::Formatter<W>) -> fmt::Result {
        let ZoneLines {
            segments,
            buffers,
            zones,
        } = *self;
        for (number, zone) in zones.iter().enumerate() {
            let name = ZoneName {
                segments,
                buffers,
                number,
            };
            let line = ZoneLine { name, zone: *zone };
            write!(f, "{line}")?;
        }
        Ok(())
    }
}

/// How far the elements of a vector access lie apart, as a line.
#[derive(Clone, Copy)]
struct ApartLine(Apart);

impl fmt::Display for ApartLine {
    ghost use Rattle.std.specs.Prelude.{Some};
    ghost use Rattle.check_reasons.specs.Access.{apart_line};

    ghost output = { λ line. Some (apart_line line.0) };

    fn fmt<W: fmt::Write>(&self, f: &mut fmt::Formatter<W>) -> fmt::Result {
        match self.0 {
            Apart::Close => Ok(()),
            Apart::Stride { register, range } => {
                let register = register.number();
                let range = Span(range);
                writeln!(f, "  known: the stride, x{register}, in {range}")
            }
            Apart::Indices { register, known } => match known {
                None => {
                    let register = register.number();
                    writeln!(f, "  known: nothing of the indices, v{register}")
                }
                Some(fact) => {
                    let fact = Vector(fact);
                    writeln!(f, "  known: the indices, {fact}")
                }
            },
        }
    }
}

/// What is known of the elements of a vector access.
#[derive(Clone, Copy)]
struct ElementsLines(Option<Elements>);

impl fmt::Display for ElementsLines {
    ghost use Rattle.std.specs.Prelude.{Some};
    ghost use Rattle.check_reasons.specs.Access.{elements_lines};

    ghost output = { λ lines. Some (elements_lines lines.0) };

    fn fmt<W: fmt::Write>(&self, f: &mut fmt::Formatter<W>) -> fmt::Result {
        match self.0 {
            None => Ok(()),
            Some(elements) => {
                let vl = VlLine(elements.vl);
                let apart = ApartLine(elements.apart);
                write!(f, "{vl}{apart}")
            }
        }
    }
}

/// Whether elements lie apart by what is not one number.
fn is_varied(apart: Apart) -> bool
    ensures { result ≡ is_varied apart }
{
    match apart {
        Apart::Stride { range, .. } => range.lo != range.hi,
        Apart::Close | Apart::Indices { .. } => false,
    }
}

/// Whether the elements of a vector access lie apart by what is not one number.
fn is_varying(elements: Option<Elements>) -> bool
    ensures { result ≡ is_varying elements }
{
    match elements {
        None => false,
        Some(elements) => is_varied(elements.apart),
    }
}

/// Why the bytes of an access have no bounds.
fn no_reach(is_varying: bool) -> &'static str
    ensures { result.now ≡ no_reach is_varying }
{
    if is_varying {
        "the stride is not one number"
    } else {
        "they may reach below 0"
    }
}

/// Where the bytes of an access may lie, as a line: the first one and the last one, or what of its elements leaves that open.
#[derive(Clone, Copy)]
struct ReachLine(Option<Reach>, Option<Elements>);

impl fmt::Display for ReachLine {
    ghost use Rattle.std.specs.Prelude.{Some};
    ghost use Rattle.check_reasons.specs.Access.{reach_line};

    ghost output = { λ line. Some (reach_line line.0 line.1) };

    fn fmt<W: fmt::Write>(&self, f: &mut fmt::Formatter<W>) -> fmt::Result {
        match self.0 {
            None => {
                let cause = no_reach(is_varying(self.1));
                writeln!(f, "  known: no bounds of its bytes: {cause}")
            }
            Some(reach) => {
                let first = Address(reach.first);
                let last = Address(reach.end.saturating_sub(1));
                writeln!(f, "  known: its bytes in {first}..={last}")
            }
        }
    }
}

/// How many bytes are accessed, and how far from the base on; nothing of a vector instruction.
#[derive(Clone, Copy)]
struct SizeLines(Operand);

impl fmt::Display for SizeLines {
    ghost use Rattle.std.specs.Prelude.{Some};
    ghost use Rattle.check_reasons.specs.Access.{size_lines};

    ghost output = { λ lines. Some (size_lines lines.0.offset lines.0.size) };

    #[tactic(auto, unfolding(crate::specs::Access::size_lines, crate::specs::Access::offset_text))]
    fn fmt<W: fmt::Write>(&self, f: &mut fmt::Formatter<W>) -> fmt::Result {
        let Operand { offset, size, .. } = self.0;
        if size == 0 {
            return Ok(());
        }
        writeln!(f, "  bytes of the access: {size}")?;
        writeln!(f, "  offset from the base: {offset}")
    }
}

/// What is wanted, as a line.
fn access_wanted(operand: Operand) -> &'static str
    ensures { result.now ≡ access_wanted operand }
{
    if operand.is_store {
        "  wanted: all bytes in one of these zones that may be written\n"
    } else {
        "  wanted: all bytes in one of these zones that may be read\n"
    }
}

impl fmt::Display for Access {
    ghost use Rattle.std.specs.Prelude.{Some};
    ghost use Rattle.check_reasons.specs.Access.{access_text};

    ghost output = { λ access. Some (access_text access) };

    #[tactic(auto, unfolding(crate::specs::Access::access_text, crate::specs::Access::wanted_lines))]
    fn fmt<W: fmt::Write>(&self, f: &mut fmt::Formatter<W>) -> fmt::Result {
        let base = self.operand.base.number();
        let interval = Span(self.interval);
        let size = SizeLines(self.operand);
        let elements = ElementsLines(self.elements);
        let reach = ReachLine(self.reach, self.elements);
        let wanted = access_wanted(self.operand);
        let zones = ZoneLines {
            segments: self.segments,
            buffers: self.buffers.as_slice(),
            zones: self.zones.as_slice(),
        };
        writeln!(f, "  known: x{base} in {interval}")?;
        write!(f, "{size}{elements}{reach}{wanted}{zones}")
    }
}

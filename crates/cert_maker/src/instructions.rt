//! What each word of a loop has to be.
ghost use Rattle.std.specs.Prelude.{◌≡◌, ◌≤◌, ◌<◌, ◌+◌, ◌-◌, false, slice_set};
ghost use Rattle.std.specs.List.{list_any};
ghost use Rattle.rv_decode.specs.declared.instructions.Insn.{Insn};
ghost use Rattle.rv_decode.specs.Instructions.{bytes_of_width};
ghost use Rattle.cert_maker.specs.Loops.{back_by as back_by_of, count_by as count_by_of};
ghost use Rattle.cert_maker.specs.Loops.{is_access as is_access_of};
ghost use Rattle.cert_maker.specs.Loops.{is_arithmetic as is_arithmetic_of};
ghost use Rattle.cert_maker.specs.Loops.{is_buffer_for as is_buffer_for_of};
ghost use Rattle.cert_maker.specs.Loops.{is_double as is_double_of, is_flagged as is_flagged_of};
ghost use Rattle.cert_maker.specs.Loops.{is_free as is_free_of};
ghost use Rattle.cert_maker.specs.Loops.{is_plain as is_plain_of};
ghost use Rattle.cert_maker.specs.Loops.{is_vector_class as is_vector_class_of};
ghost use Rattle.cert_maker.specs.Loops.{length_by as length_by_of, may_be as may_be_of};
ghost use Rattle.cert_maker.specs.Loops.{most_of as most_of_of, moved_by as moved_by_of};
ghost use Rattle.cert_maker.specs.Loops.{next_of as next_of_of, parameter_in as parameter_in_of};
ghost use Rattle.cert_maker.specs.Loops.{reads_double as reads_double_of, shift_of as shift_of_of};
ghost use Rattle.cert_maker.specs.Loops.{step_by as step_by_of, with_pointer as with_pointer_of};
ghost use Rattle.cert_maker.specs.Loops.{works_on as works_on_of};
ghost use Rattle.cert_maker.specs.Loops.{writes_elements as writes_elements_of};

use crate::loops::{Head, Loop, Reading};
use region_mem::{Mode, Param, Parameters};
use rv_decode::{
    Addressing, Condition, Direction, Eew, Extent, Insn, Operand, Reg, RegisterOp, ScalarInsn,
    ShiftOp, VMem, VSet, Width, needs, vector_arithmetic,
};
use vreg_groups::{Vconfig, Vtype, legal};

/// The parameter that an argument register holds.
#[tactic(auto, unfolding(crate::specs::Loops::parameter_in))]
fn parameter_in(parameters: &Parameters, register: Reg) -> Option<Param>
    ensures { result ≡ parameter_in_of parameters.now register }
{
    let number = register.number();
    if number >= 10 && number < 18 {
        Some(parameters.param(usize::from(number - 10)))
    } else {
        None
    }
}

/// The upper end of a scalar.
#[tactic(auto, unfolding(crate::specs::Loops::most_of))]
fn most_of(param: Param) -> Option<u32>
    ensures { result ≡ most_of_of param }
{
    match param {
        Param::Scalar { hi, .. } => Some(hi),
        Param::None | Param::Buffer { .. } => None,
    }
}

/// The register is one of the flagged ones.
#[tactic(auto, unfolding(crate::specs::Loops::is_flagged))]
pub(crate) fn is_flagged(register: Reg, flags: &[bool; 8]) -> bool
    ensures { result ≡ is_flagged_of register flags.now }
{
    let number = register.number();
    if number >= 10 && number < 18 {
        flags[usize::from(number - 10)]
    } else {
        false
    }
}

/// The word at the entry: `beqz n,end`.
#[tactic(auto, unfolding(crate::specs::Loops::count_by))]
pub(crate) fn count_by(parameters: &Parameters, pc: u32, insn: &Insn) -> Option<Head>
    ensures { result ≡ count_by_of parameters.now pc insn.now }
{
    let Insn::Scalar(
        ScalarInsn::Branch {
            condition: Condition::Eq,
            rs1,
            rs2,
            offset,
        },
    ) = insn
    else {
        return None;
    };
    if rs2.number() == 0 {
        let param = parameter_in(parameters, *rs1)?;
        let most = most_of(param)?;
        Some(Head {
            count: *rs1,
            most,
            end: pc.wrapping_add(offset.cast_unsigned()),
        })
    } else {
        None
    }
}

/// The second word: `vsetvli t,n`.
#[tactic(auto, unfolding(crate::specs::Loops::length_by))]
pub(crate) fn length_by(head: &Head, insn: &Insn) -> Option<Loop>
    ensures { result ≡ length_by_of head.now insn.now }
{
    let Insn::VSet(VSet::Vsetvli { rd, rs1, vtype }) = insn else {
        return None;
    };
    let number = rd.number();
    let count = head.count.number();
    if rs1.number() == count && number != 0 && number != 1 && number != count {
        let vector_type = Vtype::from_bits(*vtype)?;
        Some(Loop {
            count: head.count,
            most: head.most,
            length: *rd,
            vtype: *vtype,
            sew: vector_type.sew,
            pointers: [false; 8],
            end: head.end,
        })
    } else {
        None
    }
}

/// The flags without that of an argument register.
fn without(flags: &[bool; 8], register: Reg) -> [bool; 8]
    requires above { 10 ≤ register }
    requires below { register < 18 }
    ensures { result ≡ slice_set flags.now (register - 10) false }
{
    let mut flags = *flags;
    flags[usize::from(register.number() - 10)] = false;
    flags
}

/// One of the flags is set.
fn any(flags: &[bool; 8]) -> bool
    ensures { result ≡ list_any (λ flag. flag) flags.now }
{
    flags.iter().any(|flag| *flag)
}

/// `add p,p,step` or `sub n,n,t`.
#[tactic(auto, unfolding(crate::specs::Loops::moved_by, crate::specs::Loops::is_flagged))]
fn moved_by(of: &Loop, step: Reg, left: &[bool; 8], insn: &Insn) -> Option<Reading>
    ensures { result ≡ moved_by_of of.now step left.now insn.now }
{
    let Insn::Scalar(ScalarInsn::Register { op, rd, rs1, rs2 }) = insn else {
        return None;
    };
    match op {
        RegisterOp::Add => {
            if is_flagged(*rd, left)
                && rs1.number() == rd.number()
                && rs2.number() == step.number()
            {
                Some(Reading::Moves {
                    of: *of,
                    step,
                    left: without(left, *rd),
                })
            } else {
                None
            }
        }
        RegisterOp::Sub => {
            if !any(left)
                && rd.number() == of.count.number()
                && rs1.number() == of.count.number()
                && rs2.number() == of.length.number()
            {
                Some(Reading::Back(*of))
            } else {
                None
            }
        }
        _ => None,
    }
}

/// log2 of the bytes of an element, where they are several.
#[tactic(auto, unfolding(crate::specs::Loops::shift_of))]
fn shift_of(sew: Width) -> Option<u32>
    ensures { result ≡ shift_of_of sew }
{
    match sew {
        Width::W8 => None,
        Width::W16 => Some(1),
        Width::W32 => Some(2),
    }
}

/// A register for a number of the loop's own.
fn is_free(register: Reg, of: &Loop) -> bool
    ensures { result ≡ is_free_of register of.now }
{
    register.number() != 0
        && register.number() != 1
        && register.number() != of.count.number()
        && !is_flagged(register, &of.pointers)
}

/// `slli t1,t,log2(SEW/8)`, or at one byte the first move.
#[tactic(auto, unfolding(crate::specs::Loops::step_by))]
fn step_by(of: &Loop, shift: Option<u32>, insn: &Insn) -> Option<Reading>
    ensures { result ≡ step_by_of of.now shift insn.now }
{
    let Some(wanted) = shift else {
        return moved_by(of, of.length, &of.pointers, insn);
    };
    let Insn::Scalar(
        ScalarInsn::ShiftImmediate {
            op: ShiftOp::Slli,
            rd,
            rs1,
            amount,
        },
    ) = insn
    else {
        return None;
    };
    if rs1.number() == of.length.number()
        && *amount == wanted
        && is_free(*rd, of)
        && rd.number() != of.length.number()
    {
        Some(Reading::Moves {
            of: *of,
            step: *rd,
            left: of.pointers,
        })
    } else {
        None
    }
}

/// `bnez n` to the loop's first word.
#[tactic(auto, unfolding(crate::specs::Loops::back_by))]
fn back_by(of: &Loop, start: u32, pc: u32, insn: &Insn) -> Option<Reading>
    requires { pc + 4 ≤ 0xC000_0000 }
    ensures { result ≡ back_by_of of.now start pc insn.now }
{
    let Insn::Scalar(
        ScalarInsn::Branch {
            condition: Condition::Ne,
            rs1,
            rs2,
            offset,
        },
    ) = insn
    else {
        return None;
    };
    if rs1.number() == of.count.number()
        && rs2.number() == 0
        && pc.wrapping_add(offset.cast_unsigned()) == start
        && of.end == pc + 4
    {
        Some(Reading::Through(*of))
    } else {
        None
    }
}

/// The elements are twice as wide as SEW.
fn is_double(extent: &Extent) -> bool
    ensures { result ≡ is_double_of extent.now }
{
    match extent {
        Extent::Group(Eew::Double) | Extent::Single(Eew::Double) => true,
        _ => false,
    }
}

/// Elements are written.
fn writes_elements(operand: &Option<Operand>) -> bool
    ensures { result ≡ writes_elements_of operand.now }
{
    match operand {
        None => false,
        Some(operand) => match operand.extent {
            Extent::Mask => false,
            extent => !is_double(&extent),
        },
    }
}

/// Elements twice as wide are read.
fn reads_double(operand: &Option<Operand>) -> bool
    ensures { result ≡ reads_double_of operand.now }
{
    match operand {
        None => false,
        Some(operand) => is_double(&operand.extent),
    }
}

/// Vector arithmetic.
#[tactic(auto, unfolding(crate::specs::Loops::is_vector_class))]
fn is_vector_class(insn: &Insn) -> bool
    ensures { result ≡ is_vector_class_of insn.now }
{
    match insn {
        Insn::Scalar(_) | Insn::Csr(_) | Insn::VSet(_) | Insn::VMem(_) => false,
        vector_arithmetic!() => true,
    }
}

/// Arithmetic that is not masked and keeps the width.
#[tactic(auto, unfolding(crate::specs::Loops::is_arithmetic))]
fn is_arithmetic(insn: &Insn) -> bool
    ensures { result ≡ is_arithmetic_of insn.now }
{
    let operands = needs(insn);
    is_vector_class(insn)
        && !operands.is_masked
        && writes_elements(&operands.destination)
        && !reads_double(&operands.vs2)
}

/// Bytes of an element.
pub(crate) fn bytes_of(width: Width) -> u32
    ensures value { result ≡ bytes_of_width width }
    ensures small { result < 5 }
{
    u32::from(width.bytes())
}

/// Elements of SEW one after another, not masked.
#[tactic(auto, unfolding(crate::specs::Loops::is_plain))]
fn is_plain(sew: Width, place: &Addressing) -> bool
    ensures { result ≡ is_plain_of sew place.now }
{
    match place {
        Addressing::Unit { width, masked } => bytes_of(*width) == bytes_of(sew) && !*masked,
        Addressing::Strided { .. }
        | Addressing::Indexed { .. }
        | Addressing::Mask
        | Addressing::Whole { .. } => false,
    }
}

/// What may be done with a buffer.
#[tactic(auto, unfolding(crate::specs::Loops::may_be))]
fn may_be(direction: Direction, mode: Mode) -> bool
    ensures { result ≡ may_be_of direction mode }
{
    match direction {
        Direction::Load => true,
        Direction::Store => match mode {
            Mode::Read => false,
            Mode::ReadWrite => true,
        },
    }
}

/// A buffer of at least `bytes` bytes, to which this may be done.
#[tactic(auto, unfolding(crate::specs::Loops::is_buffer_for))]
fn is_buffer_for(direction: Direction, bytes: u64, param: Param) -> bool
    ensures { result ≡ is_buffer_for_of direction bytes param }
{
    match param {
        Param::Buffer { mode, size } => bytes <= u64::from(size) && may_be(direction, mode),
        Param::None | Param::Scalar { .. } => false,
    }
}

/// An access through a pointer to a buffer that has room.
#[tactic(auto, unfolding(crate::specs::Loops::is_access))]
fn is_access(parameters: &Parameters, of: &Loop, insn: &VMem) -> bool
    ensures { result ≡ is_access_of parameters.now of.now insn.now }
{
    if !is_plain(of.sew, &insn.place) || insn.rs1.number() == of.length.number() {
        return false;
    }
    let bytes = u64::from(of.most) * u64::from(bytes_of(of.sew));
    match parameter_in(parameters, insn.rs1) {
        None => false,
        Some(param) => is_buffer_for(insn.direction, bytes, param),
    }
}

/// The loop with one pointer more.
#[tactic(auto, unfolding(crate::specs::Loops::with_pointer))]
fn with_pointer(pointer: Reg, of: &Loop) -> Loop
    requires above { 10 ≤ pointer }
    requires below { pointer < 18 }
    ensures { result ≡ with_pointer_of pointer of.now }
{
    let mut of = *of;
    of.pointers[usize::from(pointer.number() - 10)] = true;
    of
}

/// A vector access.
#[tactic(auto, unfolding(crate::specs::Loops::works_on, crate::specs::Loops::is_access, crate::specs::Loops::parameter_in))]
fn works_access(parameters: &Parameters, of: &Loop, access: &VMem) -> Option<Reading>
    ensures { result ≡ works_on_of parameters.now of.now (Insn.VMem access.now) }
{
    let insn = Insn::VMem(*access);
    if is_access(parameters, of, access)
        && legal(
            &Vconfig {
                vtype: of.vtype,
                vl: 0,
            },
            &insn,
        )
    {
        Some(Reading::Works(with_pointer(access.rs1, of)))
    } else {
        None
    }
}

/// A vector instruction, or the step.
#[tactic(auto, unfolding(crate::specs::Loops::works_on))]
fn works_on(parameters: &Parameters, of: &Loop, insn: &Insn) -> Option<Reading>
    ensures { result ≡ works_on_of parameters.now of.now insn.now }
{
    if let Insn::VMem(access) = insn {
        return works_access(parameters, of, access);
    }
    if is_arithmetic(insn) {
        if legal(
            &Vconfig {
                vtype: of.vtype,
                vl: 0,
            },
            insn,
        ) {
            Some(Reading::Works(*of))
        } else {
            None
        }
    } else {
        step_by(of, shift_of(of.sew), insn)
    }
}

/// What a word is read as.
#[tactic(auto, unfolding(crate::specs::Loops::next_of))]
pub(crate) fn next_of(
    parameters: &Parameters,
    start: u32,
    pc: u32,
    reading: &Reading,
    insn: &Insn,
) -> Option<Reading>
    requires { pc + 4 ≤ 0xC000_0000 }
    ensures { result ≡ next_of_of parameters.now start pc reading.now insn.now }
{
    match reading {
        Reading::Works(of) => works_on(parameters, of, insn),
        Reading::Moves { of, step, left } => moved_by(of, *step, left, insn),
        Reading::Back(of) => back_by(of, start, pc, insn),
        Reading::Through(_) => None,
    }
}

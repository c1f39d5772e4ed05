//! The instructions of RV32I and M, but those on CSRs, in one flat form.
//!
//! A [`ScalarInsn`] has an operation within a shape, so its step is found by two choices. A flat
//! form has a kind for each instruction, so one choice leads to the step.

ghost use Rattle.std.specs.Prelude.{◌≡◌};
ghost use Rattle.scalar_core.specs.Arithmetic.{unsigned};
ghost use Rattle.scalar_core.specs.Ops.{insn_of};
ghost use Rattle.rv_decode.specs.declared.instructions.ScalarInsn.TheVariants.{Branch};
ghost use Rattle.rv_decode.specs.declared.instructions.ScalarInsn.TheVariants.{Immediate, Load};
ghost use Rattle.rv_decode.specs.declared.instructions.ScalarInsn.TheVariants.{Register};
ghost use Rattle.rv_decode.specs.declared.instructions.ScalarInsn.TheVariants.{ShiftImmediate};
ghost use Rattle.rv_decode.specs.declared.instructions.ScalarInsn.TheVariants.{Store};

use rv_decode::{Condition, ImmediateOp, LoadKind, Reg, RegisterOp, ScalarInsn, ShiftOp, Width};

/// The instructions, by their mnemonics ("RV32/64G Instruction Set Listings").
#[derive(Clone, Copy)]
pub enum OpKind {
    Lui,
    Auipc,
    Jal,
    Jalr,
    Beq,
    Bne,
    Blt,
    Bge,
    Bltu,
    Bgeu,
    Lb,
    Lh,
    Lw,
    Lbu,
    Lhu,
    Sb,
    Sh,
    Sw,
    Addi,
    Slti,
    Sltiu,
    Xori,
    Ori,
    Andi,
    Slli,
    Srli,
    Srai,
    Add,
    Sub,
    Sll,
    Slt,
    Sltu,
    Xor,
    Srl,
    Sra,
    Or,
    And,
    Mul,
    Mulh,
    Mulhsu,
    Mulhu,
    Div,
    Divu,
    Rem,
    Remu,
    Fence,
    Ecall,
}

/// An instruction in flat form. A register that its kind does not name is x0, and a number that its
/// kind does not have is 0.
#[derive(Clone, Copy)]
pub struct Op {
    pub kind: OpKind,
    pub rd: Reg,
    pub rs1: Reg,
    pub rs2: Reg,
    /// The immediate or the offset; of lui, auipc and shifts the one whose 32 bits are those of this.
    pub imm: i32,
}

impl Op {
    /// The flat form of an instruction.
    #[tactic(auto, unfolding(crate::specs::Ops::insn_of))]
    pub fn of(insn: ScalarInsn) -> Op
        ensures { insn_of result ≡ insn }
    {
        let x0 = Reg::new(0);
        match insn {
            ScalarInsn::Lui { rd, imm } => flat(OpKind::Lui, rd, x0, x0, signed(imm)),
            ScalarInsn::Auipc { rd, imm } => flat(OpKind::Auipc, rd, x0, x0, signed(imm)),
            ScalarInsn::Jal { rd, offset } => flat(OpKind::Jal, rd, x0, x0, offset),
            ScalarInsn::Jalr { rd, rs1, offset } => flat(OpKind::Jalr, rd, rs1, x0, offset),
            ScalarInsn::Branch {
                condition,
                rs1,
                rs2,
                offset,
            } => flat(branch_kind(condition), x0, rs1, rs2, offset),
            ScalarInsn::Load {
                kind,
                rd,
                rs1,
                offset,
            } => flat(load_kind(kind), rd, rs1, x0, offset),
            ScalarInsn::Store {
                size,
                rs1,
                rs2,
                offset,
            } => flat(store_kind(size), x0, rs1, rs2, offset),
            ScalarInsn::Immediate { op, rd, rs1, imm } => flat(
                immediate_kind(op),
                rd,
                rs1,
                x0,
                imm,
            ),
            ScalarInsn::ShiftImmediate {
                op,
                rd,
                rs1,
                amount,
            } => flat(shift_kind(op), rd, rs1, x0, signed(amount)),
            ScalarInsn::Register { op, rd, rs1, rs2 } => flat(register_kind(op), rd, rs1, rs2, 0),
            ScalarInsn::Fence => flat(OpKind::Fence, x0, x0, x0, 0),
            ScalarInsn::Ecall => flat(OpKind::Ecall, x0, x0, x0, 0),
        }
    }
}

/// The flat form with these fields.
fn flat(kind: OpKind, rd: Reg, rs1: Reg, rs2: Reg, imm: i32) -> Op
    ensures { result ≡ record { kind = kind; rd = rd; rs1 = rs1; rs2 = rs2; imm = imm } }
{
    Op {
        kind,
        rd,
        rs1,
        rs2,
        imm,
    }
}

/// The signed number with these 32 bits.
fn signed(number: u32) -> i32
    ensures { unsigned result ≡ number }
{
    number.cast_signed()
}

/// The kind of a branch.
#[tactic(auto, unfolding(crate::specs::Ops::insn_of))]
fn branch_kind(condition: Condition) -> OpKind
    ensures { (op : Op) → op.kind ≡ result → insn_of op ≡ Branch condition op.rs1 op.rs2 op.imm }
{
    match condition {
        Condition::Eq => OpKind::Beq,
        Condition::Ne => OpKind::Bne,
        Condition::Lt => OpKind::Blt,
        Condition::Ge => OpKind::Bge,
        Condition::Ltu => OpKind::Bltu,
        Condition::Geu => OpKind::Bgeu,
    }
}

/// The kind of a load.
#[tactic(auto, unfolding(crate::specs::Ops::insn_of))]
fn load_kind(kind: LoadKind) -> OpKind
    ensures { (op : Op) → op.kind ≡ result → insn_of op ≡ Load kind op.rd op.rs1 op.imm }
{
    match kind {
        LoadKind::Byte => OpKind::Lb,
        LoadKind::Half => OpKind::Lh,
        LoadKind::Word => OpKind::Lw,
        LoadKind::ByteUnsigned => OpKind::Lbu,
        LoadKind::HalfUnsigned => OpKind::Lhu,
    }
}

/// The kind of a store.
#[tactic(auto, unfolding(crate::specs::Ops::insn_of))]
fn store_kind(size: Width) -> OpKind
    ensures { (op : Op) → op.kind ≡ result → insn_of op ≡ Store size op.rs1 op.rs2 op.imm }
{
    match size {
        Width::W8 => OpKind::Sb,
        Width::W16 => OpKind::Sh,
        Width::W32 => OpKind::Sw,
    }
}

/// The kind of an instruction on a register and an immediate.
#[tactic(auto, unfolding(crate::specs::Ops::insn_of))]
fn immediate_kind(which: ImmediateOp) -> OpKind
    ensures { (op : Op) → op.kind ≡ result → insn_of op ≡ Immediate which op.rd op.rs1 op.imm }
{
    match which {
        ImmediateOp::Addi => OpKind::Addi,
        ImmediateOp::Slti => OpKind::Slti,
        ImmediateOp::Sltiu => OpKind::Sltiu,
        ImmediateOp::Xori => OpKind::Xori,
        ImmediateOp::Ori => OpKind::Ori,
        ImmediateOp::Andi => OpKind::Andi,
    }
}

/// The kind of a shift by an amount that stands in the instruction.
#[tactic(auto, unfolding(crate::specs::Ops::insn_of))]
fn shift_kind(which: ShiftOp) -> OpKind
    ensures { (op : Op) → op.kind ≡ result
        → insn_of op ≡ ShiftImmediate which op.rd op.rs1 (unsigned op.imm) }
{
    match which {
        ShiftOp::Slli => OpKind::Slli,
        ShiftOp::Srli => OpKind::Srli,
        ShiftOp::Srai => OpKind::Srai,
    }
}

/// The kind of an instruction on two registers.
#[tactic(auto, unfolding(crate::specs::Ops::insn_of))]
fn register_kind(which: RegisterOp) -> OpKind
    ensures { (op : Op) → op.kind ≡ result → insn_of op ≡ Register which op.rd op.rs1 op.rs2 }
{
    match which {
        RegisterOp::Add => OpKind::Add,
        RegisterOp::Sub => OpKind::Sub,
        RegisterOp::Sll => OpKind::Sll,
        RegisterOp::Slt => OpKind::Slt,
        RegisterOp::Sltu => OpKind::Sltu,
        RegisterOp::Xor => OpKind::Xor,
        RegisterOp::Srl => OpKind::Srl,
        RegisterOp::Sra => OpKind::Sra,
        RegisterOp::Or => OpKind::Or,
        RegisterOp::And => OpKind::And,
        RegisterOp::Mul => OpKind::Mul,
        RegisterOp::Mulh => OpKind::Mulh,
        RegisterOp::Mulhsu => OpKind::Mulhsu,
        RegisterOp::Mulhu => OpKind::Mulhu,
        RegisterOp::Div => OpKind::Div,
        RegisterOp::Divu => OpKind::Divu,
        RegisterOp::Rem => OpKind::Rem,
        RegisterOp::Remu => OpKind::Remu,
    }
}

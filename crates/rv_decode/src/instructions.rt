//! The instructions, one enum per class, with their operands as named fields.

ghost use Rattle.std.specs.Prelude.{◌≡◌, ◌<◌, ◌≤◌, ◌⊎◌};

use std::marker::Model;

/// The number of a register, scalar or vector: below 32.
#[derive(Clone, Copy, PartialEq, Eq)]
pub struct Reg {
    number: u8,
}

impl Model for Reg {
    ghost use Rattle.std.specs.Prelude.{ℕ, ◌<◌};

    ghost Value = { ℕ };

    ghost view = { λ r. r.number };

    ghost invariant = { λ r. r.number < 32 };

    ghost inverse = { λ n. record { number = n } };
}

impl Reg {
    /// The register of this number.
    pub fn new(number: u8) -> Reg
        requires { number < 32 }
        ensures { result ≡ number }
    {
        Reg { number }
    }

    /// The register's number, below 32.
    pub fn number(self) -> u8
        ensures value { result ≡ self }
        ensures below { result < 32 }
    {
        self.number
    }
}

/// How many bits an element or an access has.
#[derive(Clone, Copy, PartialEq, Eq)]
pub enum Width {
    W8,
    W16,
    W32,
}

impl Width {
    ghost use Rattle.rv_decode.specs.Instructions.{bits_of_width, bytes_of_width};

    /// How many bits an element of this width has: 8, 16 or 32.
    #[inline(always)]
    pub fn bits(self) -> u8
        ensures value { result ≡ bits_of_width self }
        ensures bound { (result ≡ 8) ⊎ (result ≡ 16) ⊎ (result ≡ 32) }
        ensures few { result ≤ 32 }
    {
        match self {
            Width::W8 => 8,
            Width::W16 => 16,
            Width::W32 => 32,
        }
    }

    /// How many bytes an element of this width has: 1, 2 or 4.
    #[inline(always)]
    pub fn bytes(self) -> u8
        ensures value { result ≡ bytes_of_width self }
        ensures bound { (result ≡ 1) ⊎ (result ≡ 2) ⊎ (result ≡ 4) }
        ensures few { result ≤ 4 }
    {
        match self {
            Width::W8 => 1,
            Width::W16 => 2,
            Width::W32 => 4,
        }
    }
}

/// An instruction, by its class.
#[derive(Clone, Copy, PartialEq, Eq)]
pub enum Insn {
    Scalar(ScalarInsn),
    Csr(CsrInsn),
    VSet(VSet),
    VArith(VArith),
    VMask(VMask),
    VPerm(VPerm),
    VReduce(VReduce),
    VMem(VMem),
    VMove(VMove),
}

/// The pattern of the instructions that compute in vector registers: those of the "V" extension 1.0 but `vset` and the loads
/// and stores ("Vector Arithmetic Instruction Formats").
#[macro_export]
macro_rules! vector_arithmetic {
    () => {
        $crate::Insn::VArith(_)
            | $crate::Insn::VMask(_)
            | $crate::Insn::VPerm(_)
            | $crate::Insn::VReduce(_)
            | $crate::Insn::VMove(_)
    };
}

/// The instructions of RV32I and M, but for those on CSRs.
#[derive(Clone, Copy, PartialEq, Eq)]
pub enum ScalarInsn {
    /// `imm` has its twelve zeros.
    Lui {
        rd: Reg,
        imm: u32,
    },
    /// `imm` has its twelve zeros.
    Auipc {
        rd: Reg,
        imm: u32,
    },
    Jal {
        rd: Reg,
        offset: i32,
    },
    Jalr {
        rd: Reg,
        rs1: Reg,
        offset: i32,
    },
    Branch {
        condition: Condition,
        rs1: Reg,
        rs2: Reg,
        offset: i32,
    },
    Load {
        kind: LoadKind,
        rd: Reg,
        rs1: Reg,
        offset: i32,
    },
    Store {
        size: Width,
        rs1: Reg,
        rs2: Reg,
        offset: i32,
    },
    Immediate {
        op: ImmediateOp,
        rd: Reg,
        rs1: Reg,
        imm: i32,
    },
    /// `amount` is below 32.
    ShiftImmediate {
        op: ShiftOp,
        rd: Reg,
        rs1: Reg,
        amount: u32,
    },
    Register {
        op: RegisterOp,
        rd: Reg,
        rs1: Reg,
        rs2: Reg,
    },
    Fence,
    Ecall,
}

/// The pattern of the scalar instructions that compute in registers alone: those of the RISC-V Unprivileged ISA, "Integer
/// Computational Instructions" and "M" extension.
#[macro_export]
macro_rules! integer_computation {
    () => {
        $crate::ScalarInsn::Lui { .. }
            | $crate::ScalarInsn::Auipc { .. }
            | $crate::ScalarInsn::Immediate { .. }
            | $crate::ScalarInsn::ShiftImmediate { .. }
            | $crate::ScalarInsn::Register { .. }
    };
}

/// When a branch is taken: beq, bne, blt, bge, bltu, bgeu.
#[derive(Clone, Copy, PartialEq, Eq)]
pub enum Condition {
    Eq,
    Ne,
    Lt,
    Ge,
    Ltu,
    Geu,
}

/// What a scalar load reads: lb, lh, lw, lbu, lhu.
#[derive(Clone, Copy, PartialEq, Eq)]
pub enum LoadKind {
    Byte,
    Half,
    Word,
    ByteUnsigned,
    HalfUnsigned,
}

impl LoadKind {
    ghost use Rattle.rv_decode.specs.Instructions.{width_of_load};

    /// How wide what it reads is: 8, 16 or 32 bits.
    #[inline(always)]
    pub fn width(self) -> Width
        ensures { result ≡ width_of_load self }
    {
        match self {
            LoadKind::Byte | LoadKind::ByteUnsigned => Width::W8,
            LoadKind::Half | LoadKind::HalfUnsigned => Width::W16,
            LoadKind::Word => Width::W32,
        }
    }
}

/// The operations on a register and a signed immediate.
#[derive(Clone, Copy, PartialEq, Eq)]
pub enum ImmediateOp {
    Addi,
    Slti,
    Sltiu,
    Xori,
    Ori,
    Andi,
}

/// The shifts by an immediate amount.
#[derive(Clone, Copy, PartialEq, Eq)]
pub enum ShiftOp {
    Slli,
    Srli,
    Srai,
}

/// The operations on two registers.
#[derive(Clone, Copy, PartialEq, Eq)]
pub enum RegisterOp {
    Add,
    Sub,
    Sll,
    Slt,
    Sltu,
    Xor,
    Srl,
    Sra,
    Or,
    And,
    Mul,
    Mulh,
    Mulhsu,
    Mulhu,
    Div,
    Divu,
    Rem,
    Remu,
}

/// The six forms that read a CSR and write, set or clear its bits.
#[derive(Clone, Copy, PartialEq, Eq)]
pub struct CsrInsn {
    pub action: CsrAction,
    pub csr: CsrName,
    pub source: CsrSource,
    pub rd: Reg,
}

#[derive(Clone, Copy, PartialEq, Eq)]
pub enum CsrAction {
    Write,
    Set,
    Clear,
}

#[derive(Clone, Copy, PartialEq, Eq)]
pub enum CsrName {
    Vxsat,
    Vxrm,
    Vcsr,
    Vl,
    Vtype,
    Vlenb,
}

#[derive(Clone, Copy, PartialEq, Eq)]
pub enum CsrSource {
    Register(Reg),
    /// Below 32.
    Immediate(u32),
}

/// The forms that set vl and vtype; `vtype` is the requested one, `avl` below 32.
#[derive(Clone, Copy, PartialEq, Eq)]
pub enum VSet {
    Vsetvli { rd: Reg, rs1: Reg, vtype: u32 },
    Vsetivli { rd: Reg, avl: u32, vtype: u32 },
    Vsetvl { rd: Reg, rs1: Reg, rs2: Reg },
}

/// The second operand of a vector instruction: vs1, x[rs1], or an immediate.
#[derive(Clone, Copy, PartialEq, Eq)]
pub enum Source {
    Vector(Reg),
    Scalar(Reg),
    Immediate(i32),
}

/// Vector arithmetic, by the shape of its operands. `masked` says that vm is 0, so that the mask v0 governs.
#[derive(Clone, Copy, PartialEq, Eq)]
pub enum VArith {
    /// vd is an operation on vs2 and b.
    Int {
        op: IntOp,
        vd: Reg,
        vs2: Reg,
        b: Source,
        masked: bool,
    },
    /// vd is a product and a sum of b, vs2 and the old vd.
    MultiplyAdd {
        op: MultiplyAddOp,
        vd: Reg,
        vs2: Reg,
        b: Source,
        masked: bool,
    },
    /// vd is a sum or difference of vs2, b and the bit of v0.
    Carry {
        op: CarryOp,
        vd: Reg,
        vs2: Reg,
        b: Source,
    },
    /// The bits of vd are the carries or borrows of vs2 and b, with the bit of v0 where `with_carry` says so.
    CarryOut {
        op: CarryOutOp,
        vd: Reg,
        vs2: Reg,
        b: Source,
        with_carry: bool,
    },
    /// vd is b where the bit of v0 is 1, and vs2 elsewhere.
    Merge {
        vd: Reg,
        vs2: Reg,
        b: Source,
    },
    /// vd is b.
    Copy {
        vd: Reg,
        b: Source,
    },
    /// The bits of vd say how vs2 compares with b.
    Compare {
        op: CompareOp,
        vd: Reg,
        vs2: Reg,
        b: Source,
        masked: bool,
    },
    /// vd is a fixed-point operation on vs2 and b, which may saturate.
    Fixed {
        op: FixedOp,
        vd: Reg,
        vs2: Reg,
        b: Source,
        masked: bool,
    },
    /// vd, of 2*SEW, is an operation on vs2 and b, both of SEW.
    Widen {
        op: WidenOp,
        vd: Reg,
        vs2: Reg,
        b: Source,
        masked: bool,
    },
    /// vd, of 2*SEW, is an operation on vs2, of 2*SEW, and b, of SEW.
    Wide {
        op: WideOp,
        vd: Reg,
        vs2: Reg,
        b: Source,
        masked: bool,
    },
    /// vd, of 2*SEW, is the product of b and vs2, both of SEW, and the old vd together.
    WidenMultiplyAdd {
        op: WidenMultiplyAddOp,
        vd: Reg,
        vs2: Reg,
        b: Source,
        masked: bool,
    },
    /// vd is the low half of vs2, of 2*SEW, shifted right by b.
    Narrow {
        op: NarrowOp,
        vd: Reg,
        vs2: Reg,
        b: Source,
        masked: bool,
    },
    /// vd is vs2, of 2*SEW, rounded off by b bits and clipped to SEW.
    Clip {
        op: ClipOp,
        vd: Reg,
        vs2: Reg,
        b: Source,
        masked: bool,
    },
    /// vd is vs2, of a fraction of SEW, with zeros or its sign above.
    Extend {
        signed: bool,
        of: Fraction,
        vd: Reg,
        vs2: Reg,
        masked: bool,
    },
}

/// The single-width integer operations of two operands: vadd, vsub, vrsub and so on.
#[derive(Clone, Copy, PartialEq, Eq)]
pub enum IntOp {
    Add,
    Sub,
    Rsub,
    Minu,
    Min,
    Maxu,
    Max,
    And,
    Or,
    Xor,
    Sll,
    Srl,
    Sra,
    Mul,
    Mulh,
    Mulhu,
    Mulhsu,
    Divu,
    Div,
    Remu,
    Rem,
}

/// vmadd, vnmsub, vmacc, vnmsac.
#[derive(Clone, Copy, PartialEq, Eq)]
pub enum MultiplyAddOp {
    Madd,
    Nmsub,
    Macc,
    Nmsac,
}

/// vadc, vsbc.
#[derive(Clone, Copy, PartialEq, Eq)]
pub enum CarryOp {
    Adc,
    Sbc,
}

/// vmadc, vmsbc.
#[derive(Clone, Copy, PartialEq, Eq)]
pub enum CarryOutOp {
    Madc,
    Msbc,
}

/// vmseq, vmsne, vmsltu, vmslt, vmsleu, vmsle, vmsgtu, vmsgt.
#[derive(Clone, Copy, PartialEq, Eq)]
pub enum CompareOp {
    Eq,
    Ne,
    Ltu,
    Lt,
    Leu,
    Le,
    Gtu,
    Gt,
}

/// The fixed-point operations of one width: vsaddu to vasub, vsmul, vssrl and vssra.
#[derive(Clone, Copy, PartialEq, Eq)]
pub enum FixedOp {
    Saddu,
    Sadd,
    Ssubu,
    Ssub,
    Aaddu,
    Aadd,
    Asubu,
    Asub,
    Smul,
    Ssrl,
    Ssra,
}

/// vwaddu to vwsub, vwmulu, vwmulsu and vwmul.
#[derive(Clone, Copy, PartialEq, Eq)]
pub enum WidenOp {
    Addu,
    Add,
    Subu,
    Sub,
    Mulu,
    Mulsu,
    Mul,
}

/// vwaddu.w to vwsub.w.
#[derive(Clone, Copy, PartialEq, Eq)]
pub enum WideOp {
    Addu,
    Add,
    Subu,
    Sub,
}

/// vwmaccu, vwmacc, vwmaccus, vwmaccsu.
#[derive(Clone, Copy, PartialEq, Eq)]
pub enum WidenMultiplyAddOp {
    Maccu,
    Macc,
    Maccus,
    Maccsu,
}

/// vnsrl, vnsra.
#[derive(Clone, Copy, PartialEq, Eq)]
pub enum NarrowOp {
    Srl,
    Sra,
}

/// vnclipu, vnclip.
#[derive(Clone, Copy, PartialEq, Eq)]
pub enum ClipOp {
    Clipu,
    Clip,
}

/// The width of what vzext and vsext extend: SEW / 2 or SEW / 4.
#[derive(Clone, Copy, PartialEq, Eq)]
pub enum Fraction {
    Half,
    Quarter,
}

/// The instructions on masks.
#[derive(Clone, Copy, PartialEq, Eq)]
pub enum VMask {
    /// The bits of vd are an operation on those of vs2 and vs1.
    Logic {
        op: LogicOp,
        vd: Reg,
        vs2: Reg,
        vs1: Reg,
    },
    /// vcpop: rd is how many active bits of vs2 are set.
    Count {
        rd: Reg,
        vs2: Reg,
        masked: bool,
    },
    /// vfirst: rd is the number of the first active bit of vs2 that is set, or -1.
    First {
        rd: Reg,
        vs2: Reg,
        masked: bool,
    },
    /// The bits of vd lie before, up to or at the first active bit of vs2 that is set.
    SetFirst {
        op: FirstOp,
        vd: Reg,
        vs2: Reg,
        masked: bool,
    },
    /// viota: each element of vd is how many active bits of vs2 below it are set.
    Iota {
        vd: Reg,
        vs2: Reg,
        masked: bool,
    },
    /// vid: each element of vd is its own number.
    Index {
        vd: Reg,
        masked: bool,
    },
}

/// vmandn to vmxnor.
#[derive(Clone, Copy, PartialEq, Eq)]
pub enum LogicOp {
    Andn,
    And,
    Or,
    Xor,
    Orn,
    Nand,
    Nor,
    Xnor,
}

/// vmsbf, vmsof, vmsif.
#[derive(Clone, Copy, PartialEq, Eq)]
pub enum FirstOp {
    Before,
    Only,
    Including,
}

/// The instructions that move elements among places.
#[derive(Clone, Copy, PartialEq, Eq)]
pub enum VPerm {
    SlideUp {
        vd: Reg,
        vs2: Reg,
        offset: Offset,
        masked: bool,
    },
    SlideDown {
        vd: Reg,
        vs2: Reg,
        offset: Offset,
        masked: bool,
    },
    /// vslide1up: x[rs1] comes in at element 0.
    SlideOneUp {
        vd: Reg,
        vs2: Reg,
        rs1: Reg,
        masked: bool,
    },
    /// vslide1down: x[rs1] comes in at element vl - 1.
    SlideOneDown {
        vd: Reg,
        vs2: Reg,
        rs1: Reg,
        masked: bool,
    },
    /// vrgather: the elements of vs2 at the indices of b.
    Gather {
        vd: Reg,
        vs2: Reg,
        b: Source,
        masked: bool,
    },
    /// vrgatherei16: the elements of vs2 at the indices of vs1, of 16 bits.
    Gather16 {
        vd: Reg,
        vs2: Reg,
        vs1: Reg,
        masked: bool,
    },
    /// vcompress: the elements of vs2 whose bit of vs1 is set.
    Compress {
        vd: Reg,
        vs2: Reg,
        vs1: Reg,
    },
}

/// How far vslideup and vslidedown slide: x[rs1], or an immediate below 32.
#[derive(Clone, Copy, PartialEq, Eq)]
pub enum Offset {
    Scalar(Reg),
    Immediate(u32),
}

/// The reductions: element 0 of vd is element 0 of vs1 together with the active elements of vs2.
#[derive(Clone, Copy, PartialEq, Eq)]
pub enum VReduce {
    Fold {
        op: FoldOp,
        vd: Reg,
        vs2: Reg,
        vs1: Reg,
        masked: bool,
    },
    /// vwredsumu, vwredsum: the sum of 2*SEW.
    WidenSum {
        signed: bool,
        vd: Reg,
        vs2: Reg,
        vs1: Reg,
        masked: bool,
    },
}

/// vredsum to vredmax.
#[derive(Clone, Copy, PartialEq, Eq)]
pub enum FoldOp {
    Sum,
    And,
    Or,
    Xor,
    Minu,
    Min,
    Maxu,
    Max,
}

/// The moves between element 0 and an x register, and those of whole registers.
#[derive(Clone, Copy, PartialEq, Eq)]
pub enum VMove {
    /// vmv.x.s: rd is element 0 of vs2.
    ToScalar { rd: Reg, vs2: Reg },
    /// vmv.s.x: element 0 of vd is x[rs1].
    FromScalar { vd: Reg, rs1: Reg },
    /// vmv1r to vmv8r.
    Whole { count: Count, vd: Reg, vs2: Reg },
}

/// How many registers a whole-register form has.
#[derive(Clone, Copy, PartialEq, Eq)]
pub enum Count {
    One,
    Two,
    Four,
    Eight,
}

/// A vector load or store: `values` is the data's group, `rs1` holds the base address.
#[derive(Clone, Copy, PartialEq, Eq)]
pub struct VMem {
    pub direction: Direction,
    pub place: Addressing,
    pub values: Reg,
    pub rs1: Reg,
}

#[derive(Clone, Copy, PartialEq, Eq)]
pub enum Direction {
    Load,
    Store,
}

/// The addressing mode of a vector load or store: where its elements lie.
#[derive(Clone, Copy, PartialEq, Eq)]
pub enum Addressing {
    /// One after another from the base on, as many as vl.
    Unit {
        width: Width,
        masked: bool,
    },
    /// x[rs2] bytes apart from the base on.
    Strided {
        width: Width,
        rs2: Reg,
        masked: bool,
    },
    /// As far from the base as the elements of vs2, of this width, say; the data is of SEW.
    Indexed {
        width: Width,
        vs2: Reg,
        ordered: bool,
        masked: bool,
    },
    /// vlm and vsm: the bytes of a mask of vl bits, one after another from the base on.
    Mask,
    /// The elements of whole registers, one after another from the base on, whatever vl is.
    Whole {
        width: Width,
        count: Count,
    },
}

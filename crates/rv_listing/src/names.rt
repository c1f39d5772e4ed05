//! Mnemonics, and the digits of CSRs.

ghost use Rattle.std.specs.Prelude.{◌≡◌};
ghost use Rattle.rv_listing.specs.Names.{int_name, multiply_add_name, carry_name, carry_out_name};
ghost use Rattle.rv_listing.specs.Names.{compare_name, fixed_name, widen_name, wide_name};
ghost use Rattle.rv_listing.specs.Names.{widen_multiply_add_name, narrow_name, clip_name};
ghost use Rattle.rv_listing.specs.Names.{immediate_name, shift_name, register_name, branch_name};
ghost use Rattle.rv_listing.specs.Names.{load_name, store_name};
ghost use Rattle.rv_listing.specs.Names.{csr_digits, csr_name, fold_name, logic_name};
ghost use Rattle.rv_listing.specs.Names.{set_first_name};
ghost use Rattle.rv_listing.specs.Names.{whole_load_name, whole_move_name, whole_store_name};
ghost use Rattle.rv_listing.specs.Names.{width_form};

use rv_decode::{
    CarryOp, CarryOutOp, ClipOp, CompareOp, Condition, Count, CsrAction, CsrName, FirstOp, FixedOp,
    FoldOp, ImmediateOp, IntOp, LoadKind, LogicOp, MultiplyAddOp, NarrowOp, RegisterOp, ShiftOp,
    WideOp, WidenMultiplyAddOp, WidenOp, Width,
};

pub(crate) fn int_name(op: IntOp) -> &'static str
    ensures { result.now ≡ int_name op }
{
    match op {
        IntOp::Add => "vadd",
        IntOp::Sub => "vsub",
        IntOp::Rsub => "vrsub",
        IntOp::Minu => "vminu",
        IntOp::Min => "vmin",
        IntOp::Maxu => "vmaxu",
        IntOp::Max => "vmax",
        IntOp::And => "vand",
        IntOp::Or => "vor",
        IntOp::Xor => "vxor",
        IntOp::Sll => "vsll",
        IntOp::Srl => "vsrl",
        IntOp::Sra => "vsra",
        IntOp::Mul => "vmul",
        IntOp::Mulh => "vmulh",
        IntOp::Mulhu => "vmulhu",
        IntOp::Mulhsu => "vmulhsu",
        IntOp::Divu => "vdivu",
        IntOp::Div => "vdiv",
        IntOp::Remu => "vremu",
        IntOp::Rem => "vrem",
    }
}

pub(crate) fn multiply_add_name(op: MultiplyAddOp) -> &'static str
    ensures { result.now ≡ multiply_add_name op }
{
    match op {
        MultiplyAddOp::Madd => "vmadd",
        MultiplyAddOp::Nmsub => "vnmsub",
        MultiplyAddOp::Macc => "vmacc",
        MultiplyAddOp::Nmsac => "vnmsac",
    }
}

pub(crate) fn carry_name(op: CarryOp) -> &'static str
    ensures { result.now ≡ carry_name op }
{
    match op {
        CarryOp::Adc => "vadc",
        CarryOp::Sbc => "vsbc",
    }
}

pub(crate) fn carry_out_name(op: CarryOutOp) -> &'static str
    ensures { result.now ≡ carry_out_name op }
{
    match op {
        CarryOutOp::Madc => "vmadc",
        CarryOutOp::Msbc => "vmsbc",
    }
}

pub(crate) fn compare_name(op: CompareOp) -> &'static str
    ensures { result.now ≡ compare_name op }
{
    match op {
        CompareOp::Eq => "vmseq",
        CompareOp::Ne => "vmsne",
        CompareOp::Ltu => "vmsltu",
        CompareOp::Lt => "vmslt",
        CompareOp::Leu => "vmsleu",
        CompareOp::Le => "vmsle",
        CompareOp::Gtu => "vmsgtu",
        CompareOp::Gt => "vmsgt",
    }
}

pub(crate) fn fixed_name(op: FixedOp) -> &'static str
    ensures { result.now ≡ fixed_name op }
{
    match op {
        FixedOp::Saddu => "vsaddu",
        FixedOp::Sadd => "vsadd",
        FixedOp::Ssubu => "vssubu",
        FixedOp::Ssub => "vssub",
        FixedOp::Aaddu => "vaaddu",
        FixedOp::Aadd => "vaadd",
        FixedOp::Asubu => "vasubu",
        FixedOp::Asub => "vasub",
        FixedOp::Smul => "vsmul",
        FixedOp::Ssrl => "vssrl",
        FixedOp::Ssra => "vssra",
    }
}

pub(crate) fn widen_name(op: WidenOp) -> &'static str
    ensures { result.now ≡ widen_name op }
{
    match op {
        WidenOp::Addu => "vwaddu",
        WidenOp::Add => "vwadd",
        WidenOp::Subu => "vwsubu",
        WidenOp::Sub => "vwsub",
        WidenOp::Mulu => "vwmulu",
        WidenOp::Mulsu => "vwmulsu",
        WidenOp::Mul => "vwmul",
    }
}

pub(crate) fn wide_name(op: WideOp) -> &'static str
    ensures { result.now ≡ wide_name op }
{
    match op {
        WideOp::Addu => "vwaddu",
        WideOp::Add => "vwadd",
        WideOp::Subu => "vwsubu",
        WideOp::Sub => "vwsub",
    }
}

pub(crate) fn widen_multiply_add_name(op: WidenMultiplyAddOp) -> &'static str
    ensures { result.now ≡ widen_multiply_add_name op }
{
    match op {
        WidenMultiplyAddOp::Maccu => "vwmaccu",
        WidenMultiplyAddOp::Macc => "vwmacc",
        WidenMultiplyAddOp::Maccus => "vwmaccus",
        WidenMultiplyAddOp::Maccsu => "vwmaccsu",
    }
}

pub(crate) fn narrow_name(op: NarrowOp) -> &'static str
    ensures { result.now ≡ narrow_name op }
{
    match op {
        NarrowOp::Srl => "vnsrl",
        NarrowOp::Sra => "vnsra",
    }
}

pub(crate) fn clip_name(op: ClipOp) -> &'static str
    ensures { result.now ≡ clip_name op }
{
    match op {
        ClipOp::Clipu => "vnclipu",
        ClipOp::Clip => "vnclip",
    }
}

pub(crate) fn immediate_name(op: ImmediateOp) -> &'static str
    ensures { result.now ≡ immediate_name op }
{
    match op {
        ImmediateOp::Addi => "addi",
        ImmediateOp::Slti => "slti",
        ImmediateOp::Sltiu => "sltiu",
        ImmediateOp::Xori => "xori",
        ImmediateOp::Ori => "ori",
        ImmediateOp::Andi => "andi",
    }
}

pub(crate) fn shift_name(op: ShiftOp) -> &'static str
    ensures { result.now ≡ shift_name op }
{
    match op {
        ShiftOp::Slli => "slli",
        ShiftOp::Srli => "srli",
        ShiftOp::Srai => "srai",
    }
}

pub(crate) fn register_name(op: RegisterOp) -> &'static str
    ensures { result.now ≡ register_name op }
{
    match op {
        RegisterOp::Add => "add",
        RegisterOp::Sub => "sub",
        RegisterOp::Sll => "sll",
        RegisterOp::Slt => "slt",
        RegisterOp::Sltu => "sltu",
        RegisterOp::Xor => "xor",
        RegisterOp::Srl => "srl",
        RegisterOp::Sra => "sra",
        RegisterOp::Or => "or",
        RegisterOp::And => "and",
        RegisterOp::Mul => "mul",
        RegisterOp::Mulh => "mulh",
        RegisterOp::Mulhsu => "mulhsu",
        RegisterOp::Mulhu => "mulhu",
        RegisterOp::Div => "div",
        RegisterOp::Divu => "divu",
        RegisterOp::Rem => "rem",
        RegisterOp::Remu => "remu",
    }
}

pub(crate) fn branch_name(op: Condition) -> &'static str
    ensures { result.now ≡ branch_name op }
{
    match op {
        Condition::Eq => "beq",
        Condition::Ne => "bne",
        Condition::Lt => "blt",
        Condition::Ge => "bge",
        Condition::Ltu => "bltu",
        Condition::Geu => "bgeu",
    }
}

pub(crate) fn load_name(op: LoadKind) -> &'static str
    ensures { result.now ≡ load_name op }
{
    match op {
        LoadKind::Byte => "lb",
        LoadKind::Half => "lh",
        LoadKind::Word => "lw",
        LoadKind::ByteUnsigned => "lbu",
        LoadKind::HalfUnsigned => "lhu",
    }
}

pub(crate) fn store_name(op: Width) -> &'static str
    ensures { result.now ≡ store_name op }
{
    match op {
        Width::W8 => "sb",
        Width::W16 => "sh",
        Width::W32 => "sw",
    }
}

pub(crate) fn logic_name(op: LogicOp) -> &'static str
    ensures { result.now ≡ logic_name op }
{
    match op {
        LogicOp::Andn => "vmandn",
        LogicOp::And => "vmand",
        LogicOp::Or => "vmor",
        LogicOp::Xor => "vmxor",
        LogicOp::Orn => "vmorn",
        LogicOp::Nand => "vmnand",
        LogicOp::Nor => "vmnor",
        LogicOp::Xnor => "vmxnor",
    }
}

pub(crate) fn set_first_name(op: FirstOp) -> &'static str
    ensures { result.now ≡ set_first_name op }
{
    match op {
        FirstOp::Before => "vmsbf",
        FirstOp::Only => "vmsof",
        FirstOp::Including => "vmsif",
    }
}

pub(crate) fn fold_name(op: FoldOp) -> &'static str
    ensures { result.now ≡ fold_name op }
{
    match op {
        FoldOp::Sum => "vredsum",
        FoldOp::And => "vredand",
        FoldOp::Or => "vredor",
        FoldOp::Xor => "vredxor",
        FoldOp::Minu => "vredminu",
        FoldOp::Min => "vredmin",
        FoldOp::Maxu => "vredmaxu",
        FoldOp::Max => "vredmax",
    }
}

pub(crate) fn csr_name(op: CsrAction) -> &'static str
    ensures { result.now ≡ csr_name op }
{
    match op {
        CsrAction::Write => "csrrw",
        CsrAction::Set => "csrrs",
        CsrAction::Clear => "csrrc",
    }
}

pub(crate) fn csr_digits(op: CsrName) -> &'static str
    ensures { result.now ≡ csr_digits op }
{
    match op {
        CsrName::Vxsat => "009",
        CsrName::Vxrm => "00a",
        CsrName::Vcsr => "00f",
        CsrName::Vl => "c20",
        CsrName::Vtype => "c21",
        CsrName::Vlenb => "c22",
    }
}

pub(crate) fn whole_load_name(op: Count) -> &'static str
    ensures { result.now ≡ whole_load_name op }
{
    match op {
        Count::One => "vl1re",
        Count::Two => "vl2re",
        Count::Four => "vl4re",
        Count::Eight => "vl8re",
    }
}

pub(crate) fn whole_store_name(op: Count) -> &'static str
    ensures { result.now ≡ whole_store_name op }
{
    match op {
        Count::One => "vs1r",
        Count::Two => "vs2r",
        Count::Four => "vs4r",
        Count::Eight => "vs8r",
    }
}

pub(crate) fn whole_move_name(op: Count) -> &'static str
    ensures { result.now ≡ whole_move_name op }
{
    match op {
        Count::One => "vmv1r",
        Count::Two => "vmv2r",
        Count::Four => "vmv4r",
        Count::Eight => "vmv8r",
    }
}

pub(crate) fn width_form(op: Width) -> &'static str
    ensures { result.now ≡ width_form op }
{
    match op {
        Width::W8 => "8.v",
        Width::W16 => "16.v",
        Width::W32 => "32.v",
    }
}

//! The bodies that the chunk calls share. The operations on lanes that they name, as `turned`, are those of the file that
//! the body stands in.

/// What `op` makes of the lanes `values` of vs2, `b` and `old` of vd.
macro_rules! chunk_cases {
    ($op:ident, $values:ident, $b:ident, $old:ident) => {
        match $op {
            Op::Add => $values + $b,
            Op::Sub => $values - $b,
            Op::Rsub => $b - $values,
            Op::Minu => $values.simd_min($b),
            Op::Min => turned($b).simd_lt(turned($values)).select($b, $values),
            Op::Maxu => $values.simd_max($b),
            Op::Max => turned($b).simd_lt(turned($values)).select($values, $b),
            Op::And => $values & $b,
            Op::Or => $values | $b,
            Op::Xor => $values ^ $b,
            Op::Sll => $values << amounts($b),
            Op::Srl => $values >> amounts($b),
            Op::Sra => shift_right_signed($values, $b),
            Op::Mul => $values * $b,
            Op::Compare(op) => compare(op, $values, $b),
            Op::MultiplyAdd(op) => multiply_add(op, $values, $b, $old),
        }
    };
}

/// The lanes of `yes` where `op` holds of vs2's lane and of `b`'s, and those of `no` elsewhere.
macro_rules! compare_cases {
    ($op:ident, $values:ident, $b:ident, $yes:ident, $no:ident) => {
        match $op {
            CompareOp::Eq => $values.simd_eq($b).select($yes, $no),
            CompareOp::Ne => $values.simd_ne($b).select($yes, $no),
            CompareOp::Ltu => $values.simd_lt($b).select($yes, $no),
            CompareOp::Lt => turned($values).simd_lt(turned($b)).select($yes, $no),
            CompareOp::Leu => $values.simd_le($b).select($yes, $no),
            CompareOp::Le => turned($values).simd_le(turned($b)).select($yes, $no),
            CompareOp::Gtu => $values.simd_gt($b).select($yes, $no),
            CompareOp::Gt => turned($values).simd_gt(turned($b)).select($yes, $no),
        }
    };
}

/// vmacc, vnmsac, vmadd and vnmsub
macro_rules! multiply_add_cases {
    ($op:ident, $values:ident, $b:ident, $old:ident) => {
        match $op {
            MultiplyAddOp::Macc => $b * $values + $old,
            MultiplyAddOp::Nmsac => $old - $b * $values,
            MultiplyAddOp::Madd => $b * $old + $values,
            MultiplyAddOp::Nmsub => $values - $b * $old,
        }
    };
}

pub(crate) use chunk_cases;
pub(crate) use compare_cases;
pub(crate) use multiply_add_cases;

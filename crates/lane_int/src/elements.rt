//! The bodies of `Lane`'s methods, which are alike at the three widths: `$element` is the type of an element, of `$bits`
//! bits, `$wide` that of twice as many bits, and `$signed` the signed type of as many as `$wide`.

/// The high half of the product of two numbers that are extended to `$wide`.
macro_rules! high_half {
    ($element:ident, $bits:literal, $a:expr, $b:expr) => {
        ($a.wrapping_mul($b) >> $bits) as $element
    };
}

/// `a`, sign-extended to `$wide`.
macro_rules! extended {
    ($signed:ident, $a:ident) => {
        $signed::from($a.cast_signed()).cast_unsigned()
    };
}

/// What the method makes of `a` and `b` as signed numbers.
macro_rules! by_sign {
    ($method:ident, $a:ident, $b:ident) => {
        $a.cast_signed().$method($b.cast_signed()).cast_unsigned()
    };
}

/// What `op` makes of vs2's element `a` and of `b`: a quotient by 0 is all ones, and its remainder is `a`.
macro_rules! int_result {
    ($element:ident, $wide:ident, $signed:ident, $bits:literal, $op:ident, $a:ident, $b:ident) => {
        match $op {
            IntOp::Add => $a.wrapping_add($b),
            IntOp::Sub => $a.wrapping_sub($b),
            IntOp::Rsub => $b.wrapping_sub($a),
            IntOp::Minu => $a.min($b),
            IntOp::Min => by_sign!(min, $a, $b),
            IntOp::Maxu => $a.max($b),
            IntOp::Max => by_sign!(max, $a, $b),
            IntOp::And => $a & $b,
            IntOp::Or => $a | $b,
            IntOp::Xor => $a ^ $b,
            IntOp::Sll => $a << ($b % $bits),
            IntOp::Srl => $a >> ($b % $bits),
            IntOp::Sra => ($a.cast_signed() >> ($b % $bits)).cast_unsigned(),
            IntOp::Mul => $a.wrapping_mul($b),
            IntOp::Mulhu => high_half!($element, $bits, $wide::from($a), $wide::from($b)),
            IntOp::Mulhsu => {
                high_half!($element, $bits, extended!($signed, $a), $wide::from($b))
            }
            IntOp::Mulh => {
                high_half!($element, $bits, extended!($signed, $a), extended!($signed, $b))
            }
            IntOp::Divu => if $b == 0 { $element::MAX } else { $a / $b },
            IntOp::Div => if $b == 0 { $element::MAX } else { by_sign!(wrapping_div, $a, $b) },
            IntOp::Remu => if $b == 0 { $a } else { $a % $b },
            IntOp::Rem => if $b == 0 { $a } else { by_sign!(wrapping_rem, $a, $b) },
        }
    };
}

/// Whether `op` holds of vs2's element `a` and of `b`.
macro_rules! int_test {
    ($op:ident, $a:ident, $b:ident) => {
        match $op {
            CompareOp::Eq => $a == $b,
            CompareOp::Ne => $a != $b,
            CompareOp::Ltu => $a < $b,
            CompareOp::Lt => $a.cast_signed() < $b.cast_signed(),
            CompareOp::Leu => $a <= $b,
            CompareOp::Le => $a.cast_signed() <= $b.cast_signed(),
            CompareOp::Gtu => $b < $a,
            CompareOp::Gt => $b.cast_signed() < $a.cast_signed(),
        }
    };
}

/// The sum with a carry, or the difference with a borrow.
macro_rules! carry_result {
    ($element:ident, $op:ident, $a:ident, $b:ident, $carry:ident) => {
        match $op {
            CarryOp::Adc => $a.wrapping_add($b).wrapping_add($element::from($carry)),
            CarryOp::Sbc => $a.wrapping_sub($b).wrapping_sub($element::from($carry)),
        }
    };
}

/// The carry out of that sum, or the borrow of that difference.
macro_rules! carry_out {
    ($element:ident, $wide:ident, $op:ident, $a:ident, $b:ident, $carry:ident) => {
        match $op {
            CarryOp::Adc => {
                $wide::from($a) + $wide::from($b) + $wide::from($carry) > $wide::from($element::MAX)
            }
            CarryOp::Sbc => $wide::from($a) < $wide::from($b) + $wide::from($carry),
        }
    };
}

/// What `op` makes of vs2's element `a`, of `b` and of vd's old element `d`.
macro_rules! multiply_add {
    ($op:ident, $a:ident, $b:ident, $d:ident) => {
        match $op {
            MultiplyAddOp::Macc => $b.wrapping_mul($a).wrapping_add($d),
            MultiplyAddOp::Nmsac => $d.wrapping_sub($b.wrapping_mul($a)),
            MultiplyAddOp::Madd => $b.wrapping_mul($d).wrapping_add($a),
            MultiplyAddOp::Nmsub => $a.wrapping_sub($b.wrapping_mul($d)),
        }
    };
}

pub(crate) use by_sign;
pub(crate) use carry_out;
pub(crate) use carry_result;
pub(crate) use extended;
pub(crate) use high_half;
pub(crate) use int_result;
pub(crate) use int_test;
pub(crate) use multiply_add;

//! An instruction whose shape is known, taken apart.

/// The fields of an instruction of one shape: `of_shape!(VArith::Copy(vd, b) = insn)` lets `vd` and `b` be those of `insn`.
macro_rules! of_shape {
    ($class:ident::$shape:ident($($field:ident),*) = $insn:expr) => {
        let $class::$shape { $($field),* } = $insn else {
            unreachable!()
        };
    };
}

pub(crate) use of_shape;

//! A `match` on the shape of an instruction.

/// What comes of an instruction by its shape, a row a shape with the fields that it has, by their names:
/// `by_shape!(insn; VArith::Copy(vd, b) => ..)`.
macro_rules! by_shape {
    ($insn:expr; $($class:ident::$shape:ident($($field:ident),*) => $value:expr,)*) => {
        match $insn {
            $($class::$shape { $($field),* } => $value,)*
        }
    };
}

pub(crate) use by_shape;

//! Folds.
ghost use Rattle.std.specs.Prelude.{◌≡◌, length, map};
ghost use Rattle.lane_masks.specs.Folds.{extended, fold_of};
ghost use Rattle.rv_decode.specs.declared.instructions.FoldOp.TheVariants.{Sum};

use crate::lane::FoldLane;
use rv_decode::FoldOp;

/// The fold of `start`, which is vs1's element 0, with the active elements of `values`, which are vs2's ("Vector
/// Single-Width Integer Reduction Instructions").
pub fn fold<T: FoldLane>(op: FoldOp, start: T, values: &[T], active: &[bool]) -> T
    requires { length active.now ≡ length values.now }
    ensures { T.number result
        ≡ fold_of op T.width (T.number start) active.now (map T.number values.now) }
{
    let mut so_far = start;
    for i in 0..values.len() {
        if active[i] {
            so_far = T::join(op, so_far, values[i]);
        }
    }
    so_far
}

/// The sum of `start` with the active elements of `values`, each extended to the width of the sum ("Vector Widening Integer
/// Reduction Instructions").
pub fn fold_extended<W: FoldLane, N: FoldLane>(
    is_signed: bool,
    start: W,
    values: &[N],
    active: &[bool],
) -> W
    requires { length active.now ≡ length values.now }
    ensures { W.number result ≡ fold_of Sum W.width (W.number start) active.now
        (map (λ n. extended is_signed N.width W.width (N.number n)) values.now) }
{
    let mut so_far = start;
    for i in 0..values.len() {
        if active[i] {
            let value = W::low(values[i].extended(is_signed));
            so_far = W::join(FoldOp::Sum, so_far, value);
        }
    }
    so_far
}

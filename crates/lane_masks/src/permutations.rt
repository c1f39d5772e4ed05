//! Elements that are moved.
ghost use Rattle.std.specs.Prelude.{◌≡◌, ◌+◌, ◌≤◌, ◌<◌, ◌^◌, length, slice_index_or, take};
ghost use Rattle.lane_masks.specs.Folds.{kept};
ghost use Rattle.lane_masks.specs.Permutations.{gathered, slid_down, slid_one_down, slid_one_up};
ghost use Rattle.lane_masks.specs.Permutations.{slid_up};

/// Slides the elements of `source` up by `offset` into `values`, whose elements below the offset stay ("Vector Slideup
/// Instructions").
#[tactic(auto, unfolding(crate::specs::Permutations::slid_up))]
pub fn slide_up<T: Copy>(offset: usize, source: &[T], values: &mut [T])
    requires { length values.old ≤ length source.now }
    ensures { values.new ≡ slid_up offset source.now values.old }
{
    let count = values.len();
    if offset < count {
        values[offset..].copy_from_slice(&source[..count - offset]);
    }
}

/// Puts `x` before the elements of the body, whose last is lost ("Vector Slide1up").
#[tactic(auto, unfolding(crate::specs::Permutations::slid_one_up))]
pub fn slide_one_up<T: Copy>(x: T, body: &mut [T])
    ensures { body.new ≡ slid_one_up x body.old }
{
    let count = body.len();
    if count != 0 {
        body.copy_within(0..count - 1, 1);
        body[0] = x;
    }
}

/// Puts `x` after the elements of the body, whose first is lost ("Vector Slide1down").
#[tactic(auto, unfolding(crate::specs::Permutations::slid_one_down))]
pub fn slide_one_down<T: Copy>(x: T, body: &mut [T])
    ensures { body.new ≡ slid_one_down x body.old }
{
    let count = body.len();
    if count != 0 {
        body.copy_within(1..count, 0);
        body[count - 1] = x;
    }
}

/// Slides the elements of `source` down by `offset`; past its end `zero` comes in ("Vector Slidedown Instructions").
#[tactic(auto, unfolding(crate::specs::Permutations::slid_down))]
pub fn slide_down<T: Copy>(offset: usize, source: &[T], zero: T, out: &mut [T])
    requires { length out.old + offset < 2 ^ 63 }
    ensures { out.new ≡ slid_down offset source.now zero (length out.old) }
{
    for i in 0..out.len() {
        out[i] = element_at(source, i + offset, zero);
    }
}

/// The element at a place, or `zero` past the end.
fn element_at<T: Copy>(source: &[T], i: usize, zero: T) -> T
    ensures { result ≡ slice_index_or source.now i zero }
{
    if i < source.len() { source[i] } else { zero }
}

/// Gathers the elements of `source` at the indices; past its end `zero` comes in ("Vector Register Gather Instructions").
#[tactic(auto, unfolding(crate::specs::Permutations::gathered))]
pub fn gather<T: Copy>(source: &[T], indices: &[u32], zero: T, out: &mut [T])
    requires { length indices.now ≡ length out.old }
    ensures { out.new ≡ gathered source.now zero indices.now }
{
    for i in 0..out.len() {
        out[i] = element_at(source, indices[i] as usize, zero);
    }
}

/// Packs the elements whose bit is set to the front, in order, and answers how many there are ("Vector Compress
/// Instruction").
pub fn compress<T: Copy>(bits: &[bool], values: &mut [T]) -> usize
    requires { length bits.now ≡ length values.old }
    ensures count { result ≤ length values.old }
    ensures packed { take result values.new ≡ kept bits.now values.old }
{
    let mut count = 0;
    for i in 0..values.len() {
        if bits[i] {
            values[count] = values[i];
            count += 1;
        }
    }
    count
}

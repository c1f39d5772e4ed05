//! An array that lends any part of it to be written.

ghost use Rattle.std.specs.Prelude.{◌≡◌, ◌+◌, ◌≤◌, take, drop};
ghost use Rattle.std.specs.Borrow.{sem};

/// An array in a struct of its own, so that a contract can say what a loan of a part of it leaves.
#[derive(Drop)]
pub(crate) struct Lendable<T, const N: usize> {
    pub(crate) items: [T; N],
}

impl<T, const N: usize> Lendable<T, N> {
    ghost use Rattle.vreg_groups.specs.Lends.{lends_part};

    /// The n items from place `at` on, to be written.
    #[inline]
    pub(crate) fn part_mut(&mut self, at: usize, n: usize) -> &mut [T]
        requires { at + n ≤ N }
        ensures* lent { sem 𝓛 (lends_part T.row N.row self.entry at result) }
        ensures value { result.now ≡ take n (drop at self.old.items) }
    {
        &mut self.items[at..at + n]
    }
}

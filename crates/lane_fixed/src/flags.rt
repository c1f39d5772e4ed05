//! Whether an active element saturated.
ghost use Rattle.std.specs.Prelude.{◌≡◌, ◌==◌, not, ◌&&◌, ◌||◌, length, map};
ghost use Rattle.lane_fixed.specs.FixedPoint.{any_active};

/// A lane of the flags that a chunk call gives.
pub trait Flag: Copy {
    ghost use Rattle.std.specs.Prelude.{ℕ, ◌≡◌, ◌==◌, not};

    ghost number: { Self → ℕ };

    fn is_set(self) -> bool
        ensures { result ≡ not (number self == 0) };
}

impl Flag for u8 {
    ghost number = { λ a. a };

    #[inline(always)]
    fn is_set(self) -> bool {
        self != 0
    }
}

impl Flag for u16 {
    ghost number = { λ a. a };

    #[inline(always)]
    fn is_set(self) -> bool {
        self != 0
    }
}

impl Flag for u32 {
    ghost number = { λ a. a };

    #[inline(always)]
    fn is_set(self) -> bool {
        self != 0
    }
}

/// Whether an element saturated so far, where one more is clipped or not.
#[inline(always)]
pub fn or_active(so_far: bool, is_active: bool, is_clipped: bool) -> bool
    ensures { result ≡ (so_far || (is_active && is_clipped)) }
{
    so_far || (is_active && is_clipped)
}

/// Whether a flag that is not 0 is an active element's.
fn any_flagged<T: Flag>(flags: &[T], active: &[bool]) -> bool
    requires { length active.now ≡ length flags.now }
    ensures { result
        ≡ any_active (λ f g. not (f == 0)) (map T.number flags.now)
        (map T.number flags.now) active.now }
{
    let mut is_saturated = false;
    for i in 0..flags.len() {
        is_saturated = or_active(is_saturated, active[i], flags[i].is_set());
    }
    is_saturated
}

/// Whether an element saturated so far or one of these did; `mask` is 0 where no flag is set.
#[inline(always)]
pub fn or_flagged<T: Flag>(so_far: bool, mask: u64, flags: &[T], active: &[bool]) -> bool
    requires { length active.now ≡ length flags.now }
    ensures { result ≡ (so_far || (not (mask == 0)
        && any_active (λ f g. not (f == 0)) (map T.number flags.now)
        (map T.number flags.now) active.now)) }
{
    so_far || (mask != 0 && any_flagged(flags, active))
}

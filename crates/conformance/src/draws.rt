//! Numbers drawn from a seed, for the registers before a step.

/// Numbers at which results change their form.
const ENDS: [u32; 7] = [
    0x0000_0000,
    0xffff_ffff,
    0x8000_0000,
    0x7fff_ffff,
    0x0000_0001,
    0x807f_0180,
    0x7f80_ff01,
];

/// Marsaglia's xorshift generator with the shifts 13, 17 and 5. Where the seed is even, seven of eight numbers are among
/// the `ENDS`.
#[derive(Clone, Copy)]
pub struct Draws {
    state: u32,
    at_ends: bool,
}

impl Draws {
    /// The draws of a seed, which is not 0.
    pub(crate) fn new(seed: u32) -> Draws {
        Draws {
            state: seed,
            at_ends: seed % 2 == 0,
        }
    }

    /// The next draw.
    pub(crate) fn draw(&mut self) -> u32 {
        let mut s = self.state;
        s ^= s << 13;
        s ^= s >> 17;
        s ^= s << 5;
        self.state = s;
        if self.at_ends {
            ENDS.get((s >> 8) as usize % 8).copied().unwrap_or(s)
        } else {
            s
        }
    }
}

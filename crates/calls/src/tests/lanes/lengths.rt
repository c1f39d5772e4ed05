//! The lengths at which kernels are tried, and the elements that they are tried on.

pub(crate) const MOST: usize = 512;

/// None, one, and one less and one more than whole chunks.
pub(crate) const LENGTHS: [usize; 12] = [0, 1, 15, 16, 17, 31, 32, 33, 255, 256, 511, MOST];

/// Numbers that take every sign and many bits: of two seeds the lists differ at nearly every place.
pub(crate) fn numbers(seed: u32) -> [u32; MOST] {
    let mut numbers = [0; MOST];
    let mut state = seed;
    for i in 0..MOST {
        state = state.wrapping_mul(0x0019_660d).wrapping_add(0x3c6e_f35f);
        numbers[i] = state ^ (state >> 15);
    }
    numbers
}

pub(crate) fn bytes(seed: u32) -> [u8; MOST] {
    let numbers = numbers(seed);
    let mut bytes = [0; MOST];
    for i in 0..MOST {
        bytes[i] = (numbers[i] % 0x100) as u8;
    }
    bytes
}

pub(crate) fn halves(seed: u32) -> [u16; MOST] {
    let numbers = numbers(seed);
    let mut halves = [0; MOST];
    for i in 0..MOST {
        halves[i] = (numbers[i] % 0x1_0000) as u16;
    }
    halves
}

pub(crate) fn bits(seed: u32) -> [bool; MOST] {
    let numbers = numbers(seed);
    let mut bits = [false; MOST];
    for i in 0..MOST {
        bits[i] = numbers[i] % 3 == 0;
    }
    bits
}

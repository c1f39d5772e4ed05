//! The registers of a machine, as numbers.

/// The registers of a machine, without the vector registers.
#[derive(Clone, Copy, PartialEq, Eq)]
pub struct Registers {
    /// The program counter.
    pub pc: u32,
    /// x0 to x31.
    pub x: [u32; 32],
    /// The vector length.
    pub vl: u32,
    /// The vector type, with vill at bit 31.
    pub vtype: u32,
    /// The rounding mode of fixed-point instructions.
    pub vxrm: u32,
    /// The saturation flag.
    pub vxsat: u32,
}

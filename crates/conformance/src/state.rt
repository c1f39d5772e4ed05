//! The registers of a hart as plain data, and what two of them differ in.

ghost use Rattle.std.specs.Prelude.{◌<◌};
ghost use Rattle.vreg_groups.specs.VectorLength.{IsVlenb};

use crate::draws::Draws;
use crate::fields::{RowError, bytes, decimal, hex};
use rv_decode::Reg;
use scalar_core::Scalar;
use std::alloc::Global;
use std::fmt;
use vreg_groups::{Vconfig, VregFile};

/// How many bytes the vector registers have at the greatest length.
pub const VECTOR_BYTES: usize = 2048;

/// pc, all registers, and the CSRs. Vector register n begins at byte n * VLENB of `v`.
#[derive(Clone, Copy)]
pub struct State {
    pub pc: u32,
    pub x: [u32; 32],
    pub config: Vconfig,
    pub vxrm: u32,
    pub vxsat: u32,
    pub v: [u8; VECTOR_BYTES],
}

impl State {
    /// Zeros, with vill set.
    pub(crate) fn new(pc: u32) -> State {
        State {
            pc,
            x: [0; 32],
            config: Vconfig::none(),
            vxrm: 0,
            vxsat: 0,
            v: [0; VECTOR_BYTES],
        }
    }

    /// Fills the registers but x0 with draws.
    pub(crate) fn fill(&mut self, mut draws: Draws, vlenb: usize)
        requires { vlenb < 65 }
    {
        for number in 1..32 {
            self.x[number] = draws.draw();
        }
        for place in 0..8 * vlenb {
            self.v[4 * place..4 * place + 4].copy_from_slice(&draws.draw().to_le_bytes());
        }
    }

    /// The scalar half.
    pub(crate) fn hart(&self) -> Scalar {
        let mut hart = Scalar::new(self.pc);
        for number in 1..32u8 {
            hart.set_reg(Reg::new(number), self.x[usize::from(number)]);
        }
        hart.set_vxrm(self.vxrm);
        hart.set_vxsat(self.vxsat);
        hart
    }

    /// The state that these show.
    pub(crate) fn of<const VLENB: usize>(
        hart: &Scalar,
        config: Vconfig,
        registers: &VregFile<VLENB>,
    ) -> State
        requires { IsVlenb VLENB }
    {
        State {
            pc: hart.pc(),
            x: hart.registers(),
            config,
            vxrm: hart.vxrm(),
            vxsat: hart.vxsat(),
            v: vector_bytes(registers),
        }
    }

    /// Sets the part of the state that has this name; false where none has it.
    pub(crate) fn set(
        &mut self,
        alloc: Global,
        vlenb: usize,
        name: &str,
        value: &str,
    ) -> Result<bool, RowError>
        requires { vlenb < 65 }
    {
        match name {
            "pc" => self.pc = hex(value)?,
            "vl" => self.config.vl = decimal(value)?,
            "vtype" => self.config.vtype = hex(value)?,
            "vxrm" => self.vxrm = decimal(value)?,
            "vxsat" => self.vxsat = decimal(value)?,
            _ => {
                if let Some(number) = name.strip_prefix("x") {
                    self.x[usize::from(register(number)?.number())] = hex(value)?;
                } else if let Some(number) = name.strip_prefix("v") {
                    self.set_vector(register(number)?, vlenb, bytes(alloc, value)?.as_slice())?;
                } else {
                    return Ok(false);
                }
            }
        }
        Ok(true)
    }

    fn set_vector(&mut self, register: Reg, vlenb: usize, bytes: &[u8]) -> Result<(), RowError>
        requires { vlenb < 65 }
    {
        if bytes.len() > vlenb {
            return Err(RowError::NoRow);
        }
        let start = usize::from(register.number()) * vlenb;
        self.v[start..start + bytes.len()].copy_from_slice(bytes);
        Ok(())
    }

    /// The first part in which `came` is not this state.
    pub(crate) fn difference(&self, came: &State, vlenb: usize) -> Option<Difference>
        requires { 0 < vlenb }
    {
        if self.pc != came.pc {
            return differ(Part::Pc, self.pc, came.pc);
        }
        for (number, (expected, came)) in self.x.iter().zip(&came.x).enumerate() {
            if expected != came {
                return differ(Part::X(number), *expected, *came);
            }
        }
        for (place, (expected, came)) in self.v.iter().zip(&came.v).enumerate() {
            if expected != came {
                let part = Part::V {
                    register: place / vlenb,
                    byte: place % vlenb,
                };
                return differ(part, u32::from(*expected), u32::from(*came));
            }
        }
        self.csr_difference(came)
    }

    fn csr_difference(&self, came: &State) -> Option<Difference> {
        let (ours, theirs) = (&self.config, &came.config);
        if ours.vl != theirs.vl {
            return differ(Part::Vl, ours.vl, theirs.vl);
        }
        if ours.vtype != theirs.vtype {
            return differ(Part::Vtype, ours.vtype, theirs.vtype);
        }
        if self.vxrm != came.vxrm {
            return differ(Part::Vxrm, self.vxrm, came.vxrm);
        }
        if self.vxsat != came.vxsat {
            return differ(Part::Vxsat, self.vxsat, came.vxsat);
        }
        None
    }
}

/// A register by its number.
fn register(text: &str) -> Result<Reg, RowError> {
    let number = decimal(text)?;
    if number < 32 {
        Ok(Reg::new(number as u8))
    } else {
        Err(RowError::NoRow)
    }
}

/// The bytes of all vector registers, and zeros behind them.
pub(crate) fn vector_bytes<const VLENB: usize>(registers: &VregFile<VLENB>) -> [u8; VECTOR_BYTES]
    requires { IsVlenb VLENB }
{
    let mut bytes = [0; VECTOR_BYTES];
    for number in 0..32u8 {
        for i in 0..VLENB {
            bytes[usize::from(number) * VLENB + i] = registers.byte(Reg::new(number), i);
        }
    }
    bytes
}

/// A part of the state.
#[derive(Clone, Copy)]
pub enum Part {
    Pc,
    X(usize),
    V { register: usize, byte: usize },
    Vl,
    Vtype,
    Vxrm,
    Vxsat,
    Memory(u32),
    /// How long the buffer at a place is.
    Length(usize),
    Argument { place: usize, byte: usize },
}

impl fmt::Display for Part {
    fn fmt<W: fmt::Write>(&self, f: &mut fmt::Formatter<W>) -> fmt::Result {
        match self {
            Part::Pc => write!(f, "pc"),
            Part::X(number) => write!(f, "x{number}"),
            Part::V { register, byte } => write!(f, "byte {byte} of v{register}"),
            Part::Vl => write!(f, "vl"),
            Part::Vtype => write!(f, "vtype"),
            Part::Vxrm => write!(f, "vxrm"),
            Part::Vxsat => write!(f, "vxsat"),
            Part::Length(place) => write!(f, "the length of a{place}"),
            Part::Argument { place, byte } => write!(f, "byte {byte} of a{place}"),
            Part::Memory(address) => write!(f, "the byte at {address:#010x}"),
        }
    }
}

/// A part of the state that is not as it should be.
#[derive(Clone, Copy)]
pub struct Difference {
    pub part: Part,
    pub expected: u32,
    pub came: u32,
}

/// The difference in a part.
pub(crate) fn differ(part: Part, expected: u32, came: u32) -> Option<Difference> {
    Some(Difference {
        part,
        expected,
        came,
    })
}

impl fmt::Display for Difference {
    fn fmt<W: fmt::Write>(&self, f: &mut fmt::Formatter<W>) -> fmt::Result {
        let (part, expected, came) = (self.part, self.expected, self.came);
        write!(f, "{part} should be {expected:#x}, came {came:#x}")
    }
}

//! One step of a hart, from any state.

ghost use Rattle.vreg_groups.specs.VectorLength.{IsVlenb};

use crate::memory::FIRST;
use crate::state::State;
use region_mem::{Fault, Regions};
use rv_decode::{Insn, Reg, decode, vector_arithmetic};
use scalar_core::{Scalar, step_scalar};
use std::fmt;
use vector_core::{VectorState, step_vector};
use vreg_groups::Agnostic;

/// vsetvli x7,x0,e8,m8,ta,ma
const ALL_BYTES: u32 = 0x0c30_73d7;

/// vle8.v v0,(x10), v8, v16 and v24
const LOADS: [u32; 4] = [0x0205_0007, 0x0205_0407, 0x0205_0807, 0x0205_0c07];

/// vsetvl x7,x5,x6
const CONFIGURE: u32 = 0x8062_f3d7;

/// A fault by its name and its word or address.
#[derive(Clone, Copy)]
pub struct Named(pub Fault);

impl fmt::Display for Named {
    fn fmt<W: fmt::Write>(&self, f: &mut fmt::Formatter<W>) -> fmt::Result {
        let name = self.0.name();
        let number = self.0.number();
        write!(f, "{name} {number:08x}")
    }
}

/// Decodes a word and carries it out.
pub(crate) fn step<const VLENB: usize>(
    hart: &mut Scalar,
    vectors: &mut VectorState<VLENB>,
    memory: &mut Regions,
    word: u32,
) -> Result<(), Fault>
    requires { IsVlenb VLENB }
{
    let Some(insn) = decode(word) else {
        return Err(Fault::Illegal(word));
    };
    match insn {
        Insn::Scalar(_) | Insn::Csr(_) => {
            let config = vectors.config();
            step_scalar(hart, insn, memory, &config, VLENB)
        }
        Insn::VSet(_) | Insn::VMem(_) | vector_arithmetic!() => step_vector(
            vectors, hart, word, insn, memory,
        ),
    }
}

/// The vector half of a state, put in by steps that set vtype and load the registers from `memory`, whose first buffer
/// is overwritten.
pub(crate) fn vectors<const VLENB: usize>(
    agnostic: Agnostic,
    state: &State,
    memory: &mut Regions,
) -> Result<VectorState<VLENB>, Fault>
    requires { IsVlenb VLENB }
{
    let mut vectors = VectorState::new(agnostic);
    let mut hart = Scalar::new(0);
    step(&mut hart, &mut vectors, memory, ALL_BYTES)?;
    let mut address = FIRST;
    for word in state.v.as_chunks::<4>().0 {
        memory.store(address, 4, u32::from_le_bytes(*word));
        address = address.wrapping_add(4);
    }
    let mut base = FIRST;
    for load in LOADS {
        hart.set_reg(Reg::new(10), base);
        step(&mut hart, &mut vectors, memory, load)?;
        base = base.wrapping_add(8 * VLENB as u32);
    }
    hart.set_reg(Reg::new(5), state.config.vl);
    hart.set_reg(Reg::new(6), state.config.vtype);
    step(&mut hart, &mut vectors, memory, CONFIGURE)?;
    Ok(vectors)
}

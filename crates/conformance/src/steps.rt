//! Rows `VLENB SETTING VTYPE VL SEED WORD [IN..] = OUT..`: what one step does.

ghost use Rattle.std.specs.Prelude.{◌<◌};
ghost use Rattle.vreg_groups.specs.VectorLength.{IsVlenb};

use crate::draws::Draws;
use crate::fields::{RowError, bytes, decimal, hex, next, setting, vlen};
use crate::memory::{CODE, changed, image, memory, take_back};
use crate::state::{Difference, State};
use crate::step::{Named, step, vectors};
use crate::table::Table;
use region_mem::{Fault, Regions};
use std::alloc::Global;
use vreg_groups::{Agnostic, Vconfig, Vlen};

/// The table of steps.
#[derive(Drop)]
pub struct Steps {
    /// The memory of each step.
    memory: Regions,
    /// From where registers are loaded.
    registers: Regions,
}

impl Steps {
    /// The table's memory.
    pub(crate) fn new(alloc: Global) -> Result<Steps, RowError> {
        let image = image(alloc)?;
        Ok(Steps {
            memory: memory(alloc, &image)?,
            registers: memory(alloc, &image)?,
        })
    }
}

/// A row: the state before, the word, and the text of what comes after.
#[derive(Drop)]
struct Case<'a> {
    vlen: Vlen,
    agnostic: Agnostic,
    before: State,
    word: u32,
    after: &'a str,
}

impl Table for Steps {
    fn difference(&mut self, alloc: Global, row: &str) -> Result<Option<String>, RowError> {
        let case = read_case(alloc, row)?;
        match case.vlen {
            Vlen::V128 => self.difference_at::<16>(alloc, &case),
            Vlen::V256 => self.difference_at::<32>(alloc, &case),
            Vlen::V512 => self.difference_at::<64>(alloc, &case),
        }
    }
}

impl Steps {
    fn difference_at<const VLENB: usize>(
        &mut self,
        alloc: Global,
        case: &Case<'_>,
    ) -> Result<Option<String>, RowError>
        requires { IsVlenb VLENB }
    {
        let mut hart = case.before.hart();
        let mut vectors = match vectors::<VLENB>(case.agnostic, &case.before, &mut self.registers) {
            Ok(vectors) => vectors,
            Err(fault) => {
                return Ok(Some(format!(in alloc; "not set up: {}", Named(fault))?));
            }
        };
        let came = step(&mut hart, &mut vectors, &mut self.memory, case.word);
        let came_state = State::of(&hart, vectors.config(), vectors.registers());
        let ended = end_difference(alloc, case, came)?;
        let differs = self.state_difference::<VLENB>(alloc, case, &came_state)?;
        match (ended, differs) {
            (Some(ended), _) => Ok(Some(ended)),
            (None, Some(differs)) => Ok(Some(format!(in alloc; "{differs}")?)),
            (None, None) => Ok(None),
        }
    }

    /// In what the state after the step, and its memory, is not as the row says. The memory is made as it was before.
    fn state_difference<const VLENB: usize>(
        &mut self,
        alloc: Global,
        case: &Case<'_>,
        came: &State,
    ) -> Result<Option<Difference>, RowError>
        requires { IsVlenb VLENB }
    {
        let mut expected = case.before;
        let mut found = None;
        if !case.after.starts_with(FAULT) {
            expected.pc = CODE + 4;
            for field in case.after.split(' ').filter(|field| !field.is_empty()) {
                let (name, value) = field.split_once('=').ok_or(RowError::NoRow)?;
                if let Some(address) = name.strip_prefix("m") {
                    let expected = bytes(alloc, value)?;
                    let difference = take_back(
                        &mut self.memory,
                        hex(address)?,
                        expected.as_slice(),
                    );
                    found = found.or(difference);
                } else if !expected.set(alloc, VLENB, name, value)? {
                    return Err(RowError::NoRow);
                }
            }
        }
        let changed = changed(&mut self.memory);
        Ok(expected.difference(came, VLENB).or(found).or(changed))
    }
}

/// What the text after a step that faults begins with.
const FAULT: &str = " fault ";

/// How a step ended, where it is not as the row says.
fn end_difference(
    alloc: Global,
    case: &Case<'_>,
    came: Result<(), Fault>,
) -> Result<Option<String>, RowError> {
    let after = case.after;
    match came {
        Ok(()) => match case.after.strip_prefix(FAULT) {
            None => Ok(None),
            Some(fault) => Ok(Some(format!(in alloc; "should be a fault, {fault}, came none")?)),
        },
        Err(fault) => {
            let came = format!(in alloc; "{FAULT}{}", Named(fault))?;
            if came.as_str() == after {
                Ok(None)
            } else {
                Ok(Some(format!(in alloc; "should be{after}, came{came}")?))
            }
        }
    }
}

/// The case of a row.
fn read_case<'a>(alloc: Global, row: &'a str) -> Result<Case<'a>, RowError> {
    let (mut fields, after) = row.split_once(" =").ok_or(RowError::NoRow)?;
    let vlen = vlen(next(&mut fields))?;
    let agnostic = setting(next(&mut fields))?;
    let vtype = hex(next(&mut fields))?;
    let vl = decimal(next(&mut fields))?;
    let draws = Draws::new(hex(next(&mut fields))?);
    let word = hex(next(&mut fields))?;
    let mut before = State::new(CODE);
    before.config = Vconfig { vtype, vl };
    before.fill(draws, vlen.bytes());
    set_fields(alloc, &mut before, vlen.bytes(), fields)?;
    Ok(Case {
        vlen,
        agnostic,
        before,
        word,
        after,
    })
}

/// Sets the parts of a state that the fields name.
fn set_fields(alloc: Global, state: &mut State, vlenb: usize, fields: &str) -> Result<(), RowError>
    requires { vlenb < 65 }
{
    for field in fields.split(' ').filter(|field| !field.is_empty()) {
        let (name, value) = field.split_once('=').ok_or(RowError::NoRow)?;
        if !state.set(alloc, vlenb, name, value)? {
            return Err(RowError::NoRow);
        }
    }
    Ok(())
}

//! Rows `VLENB SETTING MAX IMAGE A0 .. A7 = END STEPS OUT..`: what whole runs answer.

ghost use Rattle.vreg_groups.specs.VectorLength.{IsVlenb};

use crate::arguments::Given;
use crate::fields::{RowError, bytes, hex, next, setting, vlen};
use crate::state::{Difference, Part, State, VECTOR_BYTES, differ, vector_bytes};
use crate::step::Named;
use crate::table::{Table, unlike};
use elf_image::{ElfError, Image};
use region_mem::{Arg, Args, Mode, Parameters};
use sandbox_run::{Outcome, Registers, try_run};
use scalar_core::EXIT;
use std::alloc::{AllocError, Global};
use vreg_groups::{Agnostic, Vconfig, Vlen};

/// Where the stack ends.
const STACK_END: u32 = 0x3000_0000;

/// The table of runs.
#[derive(Drop)]
pub struct Runs;

/// A row: what is run on what, and the text of what comes after.
#[derive(Clone, Copy)]
pub struct Case<'a> {
    pub vlen: Vlen,
    pub agnostic: Agnostic,
    pub max: u64,
    pub image: &'a str,
    /// The texts of the arguments, by place.
    arguments: &'a str,
    pub after: &'a str,
}

/// What a run left: how it ended, as the row says it, its registers and its arguments.
#[derive(Drop)]
pub struct Last {
    pub end: String,
    pub state: State,
    pub args: Args,
}

/// What comes of the case of a row, at the row's length of vector registers.
macro_rules! at_length {
    ($alloc:expr, $row:expr, $run:ident) => {{
        let case = read_case($row)?;
        match case.vlen {
            Vlen::V128 => $run::<16>($alloc, &case),
            Vlen::V256 => $run::<32>($alloc, &case),
            Vlen::V512 => $run::<64>($alloc, &case),
        }
    }};
}

pub(crate) use at_length;

impl Table for Runs {
    fn difference(&mut self, alloc: Global, row: &str) -> Result<Option<String>, RowError> {
        at_length!(alloc, row, run)
    }
}

/// The case of a row.
pub(crate) fn read_case(row: &str) -> Result<Case<'_>, RowError> {
    let (mut fields, after) = row.split_once(" = ").ok_or(RowError::NoRow)?;
    Ok(Case {
        vlen: vlen(next(&mut fields))?,
        agnostic: setting(next(&mut fields))?,
        max: next(&mut fields).parse().map_err(|_| RowError::NoRow)?,
        image: next(&mut fields),
        arguments: fields,
        after,
    })
}

/// The text of a buffer's bytes, with its mode, where the argument is a buffer.
pub(crate) fn buffer_text(argument: &str) -> Option<(Mode, &str)> {
    if let Some(text) = argument.strip_prefix("r") {
        return Some((Mode::Read, text));
    }
    let text = argument.strip_prefix("w")?;
    Some((Mode::ReadWrite, text))
}

/// The state in which a run starts, but for pc.
pub(crate) fn start(parameters: &Parameters, given: &Given) -> State {
    let mut state = State::new(0);
    state.x[1] = EXIT;
    state.x[2] = STACK_END;
    for place in 0..8 {
        state.x[10 + place] = match &given.args.places[place] {
            Arg::None => 0,
            Arg::Scalar(value) => *value,
            Arg::Buffer(_) => parameters.address(place).unwrap_or(0),
        };
    }
    state
}

fn run<const VLENB: usize>(alloc: Global, case: &Case<'_>) -> Result<Option<String>, RowError>
    requires { IsVlenb VLENB }
{
    match image_of(alloc, case)? {
        Ok(image) => case.run::<VLENB>(alloc, &image),
        Err(error) => Ok(Some(error.to_string(alloc)?)),
    }
}

/// The image of a row.
fn image_of(alloc: Global, case: &Case<'_>) -> Result<Result<Image, ElfError>, RowError> {
    let file = bytes(alloc, case.image)?;
    Ok(elf_image::read(alloc, file.as_slice()))
}

/// How a run ended, as the row says it.
fn end_of<const VLENB: usize>(
    alloc: Global,
    outcome: &Outcome<VLENB>,
) -> Result<String, AllocError> {
    match outcome {
        Outcome::Ended(last) => format!(in alloc; "ended {}", last.steps),
        Outcome::OutOfSteps(last) => format!(in alloc; "steps {}", last.steps),
        Outcome::Trapped(fault, last) => {
            let fault = Named(*fault);
            format!(in alloc; "trapped {fault} {}", last.steps)
        }
    }
}

/// What a run left.
fn last_of<const VLENB: usize>(alloc: Global, outcome: Outcome<VLENB>) -> Result<Last, AllocError>
    requires { IsVlenb VLENB }
{
    let end = end_of(alloc, &outcome)?;
    let last = match outcome {
        Outcome::Ended(last) | Outcome::OutOfSteps(last) | Outcome::Trapped(_, last) => last,
    };
    Ok(Last {
        end,
        state: last_state(&last.registers, vector_bytes(&last.vectors)),
        args: last.args,
    })
}

/// The registers in the end.
pub(crate) fn last_state(registers: &Registers, v: [u8; VECTOR_BYTES]) -> State {
    State {
        pc: registers.pc,
        x: registers.x,
        config: Vconfig {
            vtype: registers.vtype,
            vl: registers.vl,
        },
        vxrm: registers.vxrm,
        vxsat: registers.vxsat,
        v,
    }
}

impl Case<'_> {
    /// The arguments.
    pub(crate) fn given(&self, alloc: Global) -> Result<Given, RowError> {
        let mut given = Given::none();
        for (place, argument) in self.arguments.split(' ').enumerate() {
            if place >= 8 {
                return Err(RowError::NoRow);
            }
            if let Some((mode, text)) = buffer_text(argument) {
                given.put_buffer(place, mode, bytes(alloc, text)?);
            } else if let Some(number) = argument.strip_prefix("s") {
                given.put_scalar(place, hex(number)?);
            }
        }
        Ok(given)
    }

    /// Runs an image as the row says.
    fn run<const VLENB: usize>(
        &self,
        alloc: Global,
        image: &Image,
    ) -> Result<Option<String>, RowError>
        requires { IsVlenb VLENB }
    {
        let given = self.given(alloc)?;
        let parameters = Parameters::new(given.params).ok_or(RowError::NoRow)?;
        let expected = start(&parameters, &given);
        let (args, agnostic) = (given.args, self.agnostic);
        match try_run::<VLENB>(alloc, image, &parameters, args, agnostic, self.max) {
            Ok(outcome) => self.difference::<VLENB>(alloc, expected, &last_of(alloc, outcome)?),
            Err((error, _)) => Ok(Some(error.to_string(alloc)?)),
        }
    }

    /// The text for a row that says another end than this one.
    pub(crate) fn other_end(&self, alloc: Global, end: &str) -> Result<Option<String>, RowError> {
        unlike(alloc, self.after, end)
    }

    /// In what a run that started in the state `expected` is not as the row says.
    pub(crate) fn difference<const VLENB: usize>(
        &self,
        alloc: Global,
        expected: State,
        last: &Last,
    ) -> Result<Option<String>, RowError>
        requires { IsVlenb VLENB }
    {
        match self.after.strip_prefix(last.end.as_str()) {
            None => self.other_end(alloc, last.end.as_str()),
            Some(outs) => match self.left::<VLENB>(alloc, expected, outs, last)? {
                Some(difference) => Ok(Some(format!(in alloc; "{difference}")?)),
                None => Ok(None),
            },
        }
    }

    /// In what the last state and the arguments are not as the row's fields `outs` say.
    fn left<const VLENB: usize>(
        &self,
        alloc: Global,
        mut expected: State,
        outs: &str,
        last: &Last,
    ) -> Result<Option<Difference>, RowError>
        requires { IsVlenb VLENB }
    {
        for field in outs.split(' ').filter(|field| !field.is_empty()) {
            let (name, value) = field.split_once('=').ok_or(RowError::NoRow)?;
            // Buffers are compared below; an outcome shows no other memory.
            let is_memory = name.starts_with("a") || name.starts_with("m");
            if !is_memory && !expected.set(alloc, VLENB, name, value)? {
                return Err(RowError::NoRow);
            }
        }
        if let Some(difference) = expected.difference(&last.state, VLENB) {
            return Ok(Some(difference));
        }
        arguments_difference(alloc, self.arguments, outs, &last.args)
    }
}

/// The first byte of the buffers that is not as the row says.
fn arguments_difference(
    alloc: Global,
    arguments: &str,
    outs: &str,
    came: &Args,
) -> Result<Option<Difference>, RowError> {
    let places = came.places.as_slice();
    for (place, (came, argument)) in places.iter().zip(arguments.split(' ')).enumerate() {
        if let Some((_, before)) = buffer_text(argument) {
            let expected = bytes(alloc, after_of(outs, place).unwrap_or(before))?;
            if let Some(difference) = argument_difference(place, expected.as_slice(), came) {
                return Ok(Some(difference));
            }
        }
    }
    Ok(None)
}

/// The text of the bytes that a buffer has in the end, where the row tells it.
fn after_of(outs: &str, place: usize) -> Option<&str> {
    for field in outs.split(' ') {
        if let Some(field) = field.strip_prefix("a")
            && let Some((number, value)) = field.split_once('=')
            && number.parse() == Ok(place)
        {
            return Some(value);
        }
    }
    None
}

/// The first byte in which an argument is not the expected buffer.
fn argument_difference(place: usize, expected: &[u8], came: &Arg) -> Option<Difference> {
    let came = match came {
        Arg::None | Arg::Scalar(_) => &[],
        Arg::Buffer(came) => came.as_slice(),
    };
    if expected.len() != came.len() {
        return differ(
            Part::Length(place),
            u32::try_from(expected.len()).unwrap_or(u32::MAX),
            u32::try_from(came.len()).unwrap_or(u32::MAX),
        );
    }
    for (byte, (expected, came)) in expected.iter().zip(came).enumerate() {
        if expected != came {
            let part = Part::Argument { place, byte };
            return differ(part, u32::from(*expected), u32::from(*came));
        }
    }
    None
}

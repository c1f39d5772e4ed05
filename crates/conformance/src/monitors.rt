//! Rows `VLENB SETTING MAX FILE A0 .. A7 = COMMAND ANSWER COMMAND ANSWER ..`: what the monitor of a run answers to commands.

ghost use Rattle.vreg_groups.specs.VectorLength.{IsVlenb};

use crate::fields::{RowError, bytes};
use crate::runs::{Case, at_length, read_case};
use crate::sessions::{Opening, open};
use crate::table::Table;
use hex::encode;
use monitor::{Flow, MonError, Monitor};
use rv_listing::Over;
use std::alloc::Global;
use vreg_groups::Vlen;

/// The table of commands to monitors.
#[derive(Drop)]
pub struct Monitors;

impl Table for Monitors {
    fn difference(&mut self, alloc: Global, row: &str) -> Result<Option<String>, RowError> {
        at_length!(alloc, row, watch)
    }
}

/// Opens the row's run, and gives its monitor the row's commands.
fn watch<const VLENB: usize>(alloc: Global, case: &Case<'_>) -> Result<Option<String>, RowError>
    requires { IsVlenb VLENB }
{
    match open::<VLENB>(alloc, case)? {
        Opening::Run(mut session, _) => {
            script_difference(alloc, &mut Monitor::new(&mut session), case.after)
        }
        Opening::Refusal(refusal) => case.other_end(alloc, refusal.as_str()),
    }
}

/// The first answer that is not the one behind its command.
fn script_difference<const VLENB: usize>(
    alloc: Global,
    monitor: &mut Monitor<'_, VLENB>,
    script: &str,
) -> Result<Option<String>, RowError> {
    let mut asked = None;
    for field in script.split(' ') {
        match asked.take() {
            None => asked = Some(field),
            Some(command) => {
                let came = answer(alloc, monitor, command)?;
                if came.as_str() != field {
                    return Ok(Some(format!(in alloc; "{command} should be {field}, came {came}")?));
                }
            }
        }
    }
    match asked {
        None => Ok(None),
        Some(_) => Err(RowError::NoRow),
    }
}

/// What a monitor answers to a command that is given in hexadecimal.
fn answer<const VLENB: usize>(
    alloc: Global,
    monitor: &mut Monitor<'_, VLENB>,
    command: &str,
) -> Result<String, RowError> {
    let command = bytes(alloc, if command == "-" { "" } else { command })?;
    let command = std::str::from_utf8(command.as_slice()).map_err(|_| RowError::NoRow)?;
    let mut out = Over::new(Vec::new(alloc));
    let came = monitor.command(command, &mut out);
    answer_text(alloc, came, out.into_inner().as_slice())
}

/// `quit` or the name of the error, and the text in hexadecimal.
fn answer_text(
    alloc: Global,
    came: Result<Flow, MonError>,
    text: &[u8],
) -> Result<String, RowError> {
    let text = encode(alloc, text)?;
    match came {
        Ok(Flow::Go) => Ok(text),
        Ok(Flow::Quit) => Ok(format!(in alloc; "quit{text}")?),
        Err(MonError::Write) => Err(RowError::NoMemory),
        Err(error) => Ok(format!(in alloc; "{error:?}{text}")?),
    }
}

//! Rows `VLENB SETTING MAX FILE A0 .. A7 = ANSWER`: what comes of a run of an image that its certificate lets pass.

ghost use Rattle.vreg_groups.specs.VectorLength.{IsVlenb};

use crate::arguments::Given;
use crate::checks::{Refusal, accept};
use crate::fields::{RowError, bytes, hex};
use crate::runs::{Case, Last, at_length, last_state, read_case, start};
use crate::state::{Difference, Part, State, VECTOR_BYTES, differ};
use crate::table::Table;
use block_checker::Accepted;
use rv_decode::Reg;
use sandbox_run::Session;
use std::alloc::{AllocError, Global};
use vreg_groups::Vlen;

/// The table of runs of accepted images.
#[derive(Drop)]
pub struct Sessions;

impl Table for Sessions {
    fn difference(&mut self, alloc: Global, row: &str) -> Result<Option<String>, RowError> {
        at_length!(alloc, row, run)
    }
}

/// What comes of opening the run of a row.
#[derive(Drop)]
pub enum Opening<const VLENB: usize> {
    /// The run, and the state in which it starts.
    Run(Session<VLENB>, State),
    /// The refusal, as the row says it.
    Refusal(String),
}

fn run<const VLENB: usize>(alloc: Global, case: &Case<'_>) -> Result<Option<String>, RowError>
    requires { IsVlenb VLENB }
{
    match open::<VLENB>(alloc, case)? {
        Opening::Run(session, expected) => finish(alloc, session, expected, case),
        Opening::Refusal(refusal) => case.other_end(alloc, refusal.as_str()),
    }
}

/// Checks the image at its certificate's own length of vector registers, and opens its run at the row's.
pub(crate) fn open<const VLENB: usize>(
    alloc: Global,
    case: &Case<'_>,
) -> Result<Opening<VLENB>, RowError>
    requires { IsVlenb VLENB }
{
    match accepted_of(alloc, case)? {
        Ok(accepted) => open_accepted(alloc, &accepted, case),
        Err(refusal) => Ok(Opening::Refusal(refusal.to_string(alloc)?)),
    }
}

/// The image of a row, where it passes the check.
fn accepted_of(alloc: Global, case: &Case<'_>) -> Result<Result<Accepted, Refusal>, RowError> {
    let file = bytes(alloc, case.image)?;
    Ok(accept(alloc, file.as_slice(), None))
}

/// Opens the run of an image that passed the check.
fn open_accepted<const VLENB: usize>(
    alloc: Global,
    accepted: &Accepted,
    case: &Case<'_>,
) -> Result<Opening<VLENB>, RowError>
    requires { IsVlenb VLENB }
{
    let given = case.given(alloc)?;
    let expected = start(accepted.parameters(), &given);
    let Given { params: _, args } = given;
    match Session::<VLENB>::open(alloc, accepted, args, case.agnostic, case.max) {
        Ok(session) => Ok(Opening::Run(session, expected)),
        Err((error, _args)) => Ok(Opening::Refusal(format!(in alloc; "{error:?}")?)),
    }
}

/// Runs a session that was opened in the state `expected`.
fn finish<const VLENB: usize>(
    alloc: Global,
    mut session: Session<VLENB>,
    expected: State,
    case: &Case<'_>,
) -> Result<Option<String>, RowError>
    requires { IsVlenb VLENB }
{
    let steps = session.run();
    match memory_difference(alloc, &session, case)? {
        Some(difference) => Ok(Some(difference.to_string(alloc)?)),
        None => case.difference::<VLENB>(alloc, expected, &left_by(alloc, session, steps)?),
    }
}

/// What a session leaves that ended after these steps.
fn left_by<const VLENB: usize>(
    alloc: Global,
    session: Session<VLENB>,
    steps: u64,
) -> Result<Last, AllocError>
    requires { IsVlenb VLENB }
{
    let end = format!(in alloc; "ended {steps}")?;
    let state = last_state(&session.registers(), vectors_of(&session));
    Ok(Last {
        end,
        state,
        args: session.close(),
    })
}

/// The bytes of all vector registers, and zeros behind them.
fn vectors_of<const VLENB: usize>(session: &Session<VLENB>) -> [u8; VECTOR_BYTES]
    requires { IsVlenb VLENB }
{
    let mut bytes = [0; VECTOR_BYTES];
    for number in 0..32u8 {
        let to = &mut bytes[usize::from(number) * VLENB..];
        for (to, from) in to.iter_mut().zip(session.vector(Reg::new(number))) {
            *to = *from;
        }
    }
    bytes
}

/// The first byte of memory that is not as a field `mADDRESS=BYTES` of the row says.
fn memory_difference<const VLENB: usize>(
    alloc: Global,
    session: &Session<VLENB>,
    case: &Case<'_>,
) -> Result<Option<Difference>, RowError>
    requires { IsVlenb VLENB }
{
    for field in case.after.split(' ') {
        if let Some(field) = field.strip_prefix("m")
            && let Some((address, expected)) = field.split_once('=')
        {
            let expected = bytes(alloc, expected)?;
            let difference = difference_from(session, hex(address)?, expected.as_slice());
            if difference.is_some() {
                return Ok(difference);
            }
        }
    }
    Ok(None)
}

/// The first byte of memory from an address on that is not the expected one.
fn difference_from<const VLENB: usize>(
    session: &Session<VLENB>,
    address: u32,
    expected: &[u8],
) -> Option<Difference>
    requires { IsVlenb VLENB }
{
    let mut address = address;
    for byte in expected {
        let came = session.peek(address).map_or(u32::MAX, u32::from);
        if u32::from(*byte) != came {
            return differ(Part::Memory(address), u32::from(*byte), came);
        }
        address = address.wrapping_add(1);
    }
    None
}

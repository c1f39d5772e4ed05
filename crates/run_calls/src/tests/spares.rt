//! Runs on what an earlier run left. They are as any other: the steps are counted by hand.

ghost use Rattle.vreg_groups.specs.VectorLength.{IsVlenb};

use crate::tests::assertions::{assert_same, opaque};
use crate::tests::kernels::accepted;
use crate::tests::sessions::args;
use block_checker::Accepted;
use cert_note::Vlen::{V128, V256};
use region_mem::Args;
use sample_kernels::{RAISE, SUM};
use sandbox_run::{OpenError, Session, Spare};
use std::alloc::Global;
use std::process::Abort;
use vreg_groups::Agnostic;

/// How many steps a run takes on what `spare` holds, and x12 at its end.
fn run_on<const VLENB: usize>(
    alloc: Global,
    accepted: &Accepted,
    args: Args,
    spare: &mut Option<Spare>,
) -> Result<(u64, u32), OpenError>
    requires { IsVlenb VLENB }
{
    let opened = Session::<VLENB>::open_with(alloc, accepted, args, Agnostic::Keep, 8194, spare);
    match opaque(opened) {
        Ok(mut session) => {
            let steps = session.run();
            let sum = session.registers().x[12];
            let _args = session.close_into(spare);
            Ok((steps, sum))
        }
        Err((error, _)) => Err(error),
    }
}

/// Asserts how a run on what `spare` holds ends, and that it leaves something there.
fn assert_ran<const VLENB: usize>(
    rt: impl Abort + Copy,
    alloc: Global,
    accepted: &Accepted,
    args: Args,
    spare: &mut Option<Spare>,
    ran: Result<(u64, u32), OpenError>,
)
    requires { IsVlenb VLENB }
{
    let came = run_on::<VLENB>(alloc, accepted, args, spare);
    assert_same!(rt; came, ran);
    assert_same!(rt; spare.is_some(), true);
}

/// One run leaves what the next one takes, and a refusal leaves what there was. The second run is of
/// another image, at another length of vector registers, and has other words at the same addresses.
#[test]
fn runs_on_what_another_left(rt: HostRuntime) {
    let alloc = rt.alloc();
    let sum = accepted(rt, alloc, SUM, V128);
    let raise = accepted(rt, alloc, RAISE, V256);
    let spare = &mut None;
    let some = |size, number| args(rt, alloc, Some(size), number, None);
    assert_ran::<16>(rt, alloc, &sum, some(1024, 1), spare, Ok((7, 3)));
    let refused = Err(OpenError::WrongVlen);
    assert_ran::<16>(rt, alloc, &raise, some(4096, 9), spare, refused);
    assert_ran::<32>(rt, alloc, &raise, some(4096, 9), spare, Ok((18, 0)));
    let whole = Ok((5122, 3072));
    assert_ran::<16>(rt, alloc, &sum, some(1024, 1024), spare, whole);
}

//! The version, how an image is tried, and a check alone. No call has a `requires`: what a host passes
//! is tested.
ghost use Rattle.std.specs.Prelude.{◌≡◌, ◌≢◌, ◌+◌, ◌*◌, ◌^◌, IfErr, IfOk, IfSome, Some, false};
ghost use Rattle.std.specs.Result.{result_err};
ghost use Rattle.block_checker.specs.Accepted.{AcceptedView};
ghost use Rattle.vreg_groups.specs.VectorLength.{vlenb_of};
ghost use Rattle.rvvbox_c.specs.Accept.{IsAnswer, agnostic_at, answer_for, refused_at_once};
ghost use Rattle.rvvbox_c.specs.Accept.{vlen_at};
ghost use Rattle.rvvbox_c.specs.Answers.{setting_fault};
ghost use Rattle.rvvbox_c.specs.Holds.{IsKeptOf};
ghost use Rattle.rvvbox_c.specs.Runs.{number_of};
ghost use Rattle.rvvbox_c.specs.Status.{code_of};
ghost use Rattle.rvvbox_c.specs.Tries.{is_tried};
ghost use Rattle.rvvbox_c.specs.declared.calls.TheConstants.{VERSION_MAJOR, VERSION_MINOR};
ghost use Rattle.rvvbox_c.specs.declared.status.Status.TheVariants.{Done};

use crate::accept::{accept, agnostic_of, vlen_of};
use crate::status::{Refusal, Status};
use std::alloc::Global;
use vreg_groups::{Agnostic, Vlen};

/// How an image is tried.
#[repr(C)]
#[derive(Clone, Copy)]
pub struct Setting {
    /// The length of a vector register in bits: 128, 256 or 512.
    pub vlen: u32,
    /// What is done with agnostic elements: 0 keeps them, 1 fills them with ones.
    pub agnostic: u32,
    /// The most steps that a run may take.
    pub max: u64,
}

impl Setting {
    /// The length of registers, and what is done with agnostic elements.
    pub(crate) fn read(&self) -> Result<(Vlen, Agnostic), Status>
        ensures fault { result_err result ≡ setting_fault self.now }
        ensures vlen { IfOk result (λ set. vlen_at self.now.vlen ≡ Some set.0) }
        ensures bits { IfOk result (λ set. vlenb_of set.0 * 8 ≡ self.now.vlen) }
        ensures agnostic { IfOk result (λ set. agnostic_at self.now.agnostic ≡ Some set.1) }
        ensures number { IfOk result (λ set. self.now.agnostic ≡ number_of set.1) }
        ensures failed { IfErr result (λ status. status ≢ Done) }
        ensures untried { IfErr result (λ status. is_tried (code_of status) ≡ false) }
    {
        let vlen = vlen_of(self.vlen).ok_or(Status::BadVlen)?;
        let agnostic = agnostic_of(self.agnostic).ok_or(Status::BadAgnostic)?;
        Ok((vlen, agnostic))
    }
}

/// The first part of the version: a host that was compiled for another can't use the library.
pub const VERSION_MAJOR: u32 = 2;

/// The second part: a library of a higher one has all that those before it had.
pub const VERSION_MINOR: u32 = 2;

/// The version of these calls, the first part above the lower 16 bits.
#[unsafe(no_mangle)]
pub extern "C" fn rvvbox_version() -> u32
    ensures { result ≡ VERSION_MAJOR * 2 ^ 16 + VERSION_MINOR }
{
    VERSION_MAJOR * (1 << 16) + VERSION_MINOR
}

/// Checks the image that `file` spells, for vector registers of `vlen` bits, and answers the
/// status. Where it is refused, `refusal` tells why.
#[unsafe(no_mangle)]
pub extern "C" fn rvvbox_check_raw(
    alloc: Global,
    file: &[u8],
    vlen: u32,
    refusal: &mut Refusal,
) -> u32
    ensures status { result ≡ refusal.new.status }
    ensures at_once { IfSome (refused_at_once vlen file.now) (λ told. refusal.new ≡ told) }
    ensures answer { IsAnswer (answer_for vlen file.now) refusal.new }
    ensures accepted { result ≡ 0 → (a : AcceptedView) × IsKeptOf file.now vlen (Some a) }
{
    *refusal = match vlen_of(vlen) {
        None => Refusal::of(Status::BadVlen),
        Some(vlen) => match accept(alloc, file, vlen) {
            Ok(_) => Refusal::of(Status::Done),
            Err(refusal) => refusal,
        },
    };
    refusal.status
}

//! What a call answers, as `include/rvvbox.h` numbers it.
ghost use Rattle.std.specs.Prelude.{◌≡◌, ◌≢◌, ◌*◌, ◌+◌, ◌^◌, false};
ghost use Rattle.rvvbox_c.specs.Holds.{IsFailure};
ghost use Rattle.rvvbox_c.specs.Status.{at_place, certificate_refusal, halves};
ghost use Rattle.rvvbox_c.specs.Status.{certificate_rule as certificate_rule_of};
ghost use Rattle.rvvbox_c.specs.Status.{check_refusal, check_rule as check_rule_of, code_of};
ghost use Rattle.rvvbox_c.specs.Status.{by_rule, image_refusal, image_rule as image_rule_of};
ghost use Rattle.rvvbox_c.specs.Status.{make_refusal, plain, too_long};
ghost use Rattle.rvvbox_c.specs.Status.{status_of_certificate, status_of_check, status_of_image};
ghost use Rattle.rvvbox_c.specs.Status.{status_of_open};
ghost use Rattle.rvvbox_c.specs.Tries.{is_tried};
ghost use Rattle.rvvbox_c.specs.declared.status.Status.TheVariants.{Done, NoMemory};

use block_checker::CheckError;
use cert_maker::MakeError;
use cert_note::CertError;
use elf_image::ElfError;
use sandbox_run::OpenError;
use std::alloc::AllocError;

/// What came of a call.
#[derive(Clone, Copy, PartialEq, Eq)]
pub enum Status {
    /// All was done: the image is accepted, or the run has ended.
    Done,
    /// Memory was refused.
    NoMemory,
    /// A length of vector registers is not 128, 256 or 512.
    BadVlen,
    /// A setting for agnostic elements is not 0 or 1.
    BadAgnostic,
    /// There are not eight of what there is to be for each place.
    BadCount,
    /// An argument is of no kind.
    BadKind,
    /// An argument names bytes that are not there.
    BadRange,
    /// Buffers are larger than an image that is tried may be given.
    TooLarge,
    /// The bytes spell no image.
    Image,
    /// The image has no certificate.
    NoCertificate,
    /// The certificate can't be read.
    Certificate,
    /// The check refuses the image with its certificate.
    Check,
    /// An argument is of another kind than the parameter.
    WrongKind,
    /// A scalar is outside its parameter's interval.
    ScalarOutOfInterval,
    /// A buffer has another size than the parameter says.
    WrongSize,
    /// The run may take more steps than are allowed.
    BoundTooLarge,
    /// The image was accepted for another length of vector registers.
    WrongVlen,
    /// A tried run met a fault.
    Trapped,
    /// A tried run did all the steps that it was allowed, and has not ended.
    OutOfSteps,
    /// The kernel or the session keeps nothing.
    NothingKept,
    /// An argument that is put back shares bytes with another.
    Overlap,
    /// A parameter has a `lo` above its `hi`, or a buffer of more than 16 MiB.
    BadParameter,
    /// The words from the entry on are no loop that a certificate is made of.
    NotALoop,
}

impl Status {
    /// The number in `include/rvvbox.h`.
    pub(crate) fn code(self) -> u32
        ensures code { result ≡ code_of self }
        ensures done { self ≡ Done → result ≡ 0 }
        ensures failed { self ≢ Done → IsFailure result }
    {
        match self {
            Status::Done => 0,
            Status::NoMemory => 1,
            Status::BadVlen => 2,
            Status::BadAgnostic => 3,
            Status::BadCount => 4,
            Status::BadKind => 5,
            Status::BadRange => 6,
            Status::TooLarge => 7,
            Status::Image => 8,
            Status::NoCertificate => 9,
            Status::Certificate => 10,
            Status::Check => 11,
            Status::WrongKind => 12,
            Status::ScalarOutOfInterval => 13,
            Status::WrongSize => 14,
            Status::BoundTooLarge => 15,
            Status::WrongVlen => 16,
            Status::Trapped => 17,
            Status::OutOfSteps => 18,
            Status::NothingKept => 19,
            Status::Overlap => 20,
            Status::BadParameter => 21,
            Status::NotALoop => 22,
        }
    }
}

impl From<AllocError> for Status {
    ghost from_gives = { λ _ status. status ≡ NoMemory };

    fn from(_error: AllocError) -> Status {
        Status::NoMemory
    }
}

impl From<ElfError> for Status {
    ghost from_gives = { λ error status. (status ≡ status_of_image error)
        × (is_tried (code_of status) ≡ false) × (status ≢ Done) };

    fn from(error: ElfError) -> Status {
        match error {
            ElfError::NoMemory => Status::NoMemory,
            ElfError::TooShort
            | ElfError::BadMagic
            | ElfError::BadClass
            | ElfError::BadType
            | ElfError::BadMachine
            | ElfError::BadFlags
            | ElfError::BadHeaderTable
            | ElfError::NotStatic
            | ElfError::SegmentOutOfFile
            | ElfError::SegmentOutOfPlace
            | ElfError::SegmentsOverlap
            | ElfError::WriteAndExecute
            | ElfError::TooLarge
            | ElfError::EntryNotCode
            | ElfError::TwoCertificates
            | ElfError::CertificateThere => Status::Image,
        }
    }
}

impl From<CertError> for Status {
    ghost from_gives = { λ error status. (status ≡ status_of_certificate error)
        × (status ≢ Done) };

    fn from(error: CertError) -> Status {
        match error {
            CertError::NoMemory => Status::NoMemory,
            CertError::Short
            | CertError::Version
            | CertError::Parameter
            | CertError::BlockOrder
            | CertError::Fact
            | CertError::Equality
            | CertError::Budget
            | CertError::TrailingBytes
            | CertError::TooMany
            | CertError::Order => Status::Certificate,
        }
    }
}

impl From<CheckError> for Status {
    ghost from_gives = { λ error status. (status ≡ status_of_check error) × (status ≢ Done) };

    fn from(error: CheckError) -> Status {
        match error {
            CheckError::NoMemory => Status::NoMemory,
            CheckError::WrongVlen
            | CheckError::NoEntryBlock
            | CheckError::NotCode(_)
            | CheckError::IllegalWord(_)
            | CheckError::VtypeUnknown(_)
            | CheckError::AccessNotProved(_)
            | CheckError::ReadOnly(_)
            | CheckError::TargetNotABlock(_)
            | CheckError::IntervalNotProved(_)
            | CheckError::EqualityNotProved(_)
            | CheckError::OrderNotProved(_)
            | CheckError::VectorFactNotProved(_)
            | CheckError::BudgetNotProved(_)
            | CheckError::BlockTooLong(_) => Status::Check,
        }
    }
}

impl From<OpenError> for Status {
    ghost from_gives = { λ error status. (status ≡ status_of_open error)
        × (is_tried (code_of status) ≡ false) × (status ≢ Done) };

    fn from(error: OpenError) -> Status {
        match error {
            OpenError::WrongKind(_) => Status::WrongKind,
            OpenError::ScalarOutOfInterval(_) => Status::ScalarOutOfInterval,
            OpenError::WrongSize(_) => Status::WrongSize,
            OpenError::BoundTooLarge => Status::BoundTooLarge,
            OpenError::WrongVlen => Status::WrongVlen,
            OpenError::NoMemory => Status::NoMemory,
        }
    }
}

/// A number of steps, `high * 2^64 + low`.
#[repr(C)]
#[derive(Clone, Copy, PartialEq, Eq)]
pub struct Bound {
    pub low: u64,
    pub high: u64,
}

impl Bound {
    /// The two halves of a number.
    pub(crate) fn of(steps: u128) -> Bound
        ensures { result ≡ halves steps }
    {
        Bound {
            low: (steps % (1 << 64)) as u64,
            high: (steps / (1 << 64)) as u64,
        }
    }
}

/// Why a call is refused: the status, the number of the rule in its order in `include/rvvbox.h`,
/// from 1 on, the address of the word at which a check stopped, how many bytes of a certificate were
/// read, the place of an argument, and the most steps of a run that may take too many. What there is
/// not is 0.
#[repr(C)]
#[derive(Clone, Copy, PartialEq, Eq)]
pub struct Refusal {
    pub status: u32,
    pub rule: u32,
    pub address: u32,
    pub offset: u32,
    pub place: usize,
    pub bound: Bound,
    pub reserved: u64,
}

impl Refusal {
    /// A refusal that names a status alone.
    pub(crate) fn of(status: Status) -> Refusal
        ensures plain { result ≡ plain status }
        ensures done { status ≡ Done → result.status ≡ 0 }
        ensures failed { status ≢ Done → IsFailure result.status }
    {
        Refusal::by(status, 0, 0)
    }

    /// A refusal by a rule, at a word.
    fn by(status: Status, rule: u32, address: u32) -> Refusal
        ensures told { result ≡ by_rule status rule address }
    {
        Refusal {
            status: status.code(),
            rule,
            address,
            offset: 0,
            place: 0,
            bound: Bound { low: 0, high: 0 },
            reserved: 0,
        }
    }

    /// A refusal of the argument at a place.
    pub(crate) fn at(status: Status, place: usize) -> Refusal
        ensures told { result ≡ at_place status place }
        ensures failed { status ≢ Done → IsFailure result.status }
    {
        Refusal {
            place,
            ..Refusal::of(status)
        }
    }

    /// A refusal of bytes that are no certificate, with `read` of them read.
    pub(crate) fn unread(error: CertError, read: usize) -> Refusal
        ensures told { result ≡ certificate_refusal error read }
        ensures failed { IsFailure result.status }
    {
        Refusal {
            offset: read.min(u32::MAX as usize) as u32,
            ..Refusal::by(Status::from(error), certificate_rule(error), 0)
        }
    }

    /// A refusal of a run that may take `steps` steps.
    pub(crate) fn too_long(steps: u128) -> Refusal
        ensures told { result ≡ too_long steps }
        ensures failed { IsFailure result.status }
    {
        Refusal {
            bound: Bound::of(steps),
            ..Refusal::of(Status::BoundTooLarge)
        }
    }
}

impl From<AllocError> for Refusal {
    ghost from_gives = { λ _ refusal. (refusal ≡ plain NoMemory) × IsFailure refusal.status };

    fn from(_error: AllocError) -> Refusal {
        Refusal::of(Status::NoMemory)
    }
}

/// The number of the rule that a file breaks, and 0 of want of memory.
fn image_rule(error: ElfError) -> u32
    ensures { result ≡ image_rule_of error }
{
    match error {
        ElfError::TooShort => 1,
        ElfError::BadMagic => 2,
        ElfError::BadClass => 3,
        ElfError::BadType => 4,
        ElfError::BadMachine => 5,
        ElfError::BadFlags => 6,
        ElfError::BadHeaderTable => 7,
        ElfError::NotStatic => 8,
        ElfError::SegmentOutOfFile => 9,
        ElfError::SegmentOutOfPlace => 10,
        ElfError::SegmentsOverlap => 11,
        ElfError::WriteAndExecute => 12,
        ElfError::TooLarge => 13,
        ElfError::EntryNotCode => 14,
        ElfError::TwoCertificates => 15,
        ElfError::CertificateThere => 16,
        ElfError::NoMemory => 0,
    }
}

/// The number of the rule that a certificate's bytes break, and 0 of want of memory.
fn certificate_rule(error: CertError) -> u32
    ensures { result ≡ certificate_rule_of error }
{
    match error {
        CertError::Short => 1,
        CertError::Version => 2,
        CertError::Parameter => 3,
        CertError::BlockOrder => 4,
        CertError::Fact => 5,
        CertError::Equality => 6,
        CertError::Budget => 7,
        CertError::TrailingBytes => 8,
        CertError::TooMany => 9,
        CertError::Order => 11,
        CertError::NoMemory => 0,
    }
}

/// The number of the rule that fails in a check, and 0 of want of memory.
fn check_rule(error: CheckError) -> u32
    ensures { result ≡ check_rule_of error }
{
    match error {
        CheckError::WrongVlen => 1,
        CheckError::NoEntryBlock => 2,
        CheckError::NotCode(_) => 3,
        CheckError::IllegalWord(_) => 4,
        CheckError::VtypeUnknown(_) => 5,
        CheckError::AccessNotProved(_) => 6,
        CheckError::ReadOnly(_) => 7,
        CheckError::TargetNotABlock(_) => 8,
        CheckError::IntervalNotProved(_) => 9,
        CheckError::EqualityNotProved(_) => 10,
        CheckError::OrderNotProved(_) => 15,
        CheckError::VectorFactNotProved(_) => 11,
        CheckError::BudgetNotProved(_) => 12,
        CheckError::BlockTooLong(_) => 13,
        CheckError::NoMemory => 0,
    }
}

impl From<ElfError> for Refusal {
    ghost from_gives = { λ error refusal. (refusal ≡ image_refusal error)
        × IsFailure refusal.status };

    fn from(error: ElfError) -> Refusal {
        Refusal::by(Status::from(error), image_rule(error), 0)
    }
}

impl From<MakeError> for Refusal {
    ghost from_gives = { λ error refusal. (refusal ≡ make_refusal error)
        × IsFailure refusal.status };

    fn from(error: MakeError) -> Refusal {
        match error {
            MakeError::NotALoopOfTheClass(address) => Refusal::by(Status::NotALoop, 0, address),
            MakeError::NoMemory => Refusal::of(Status::NoMemory),
        }
    }
}

impl From<CheckError> for Refusal {
    ghost from_gives = { λ error refusal. (refusal ≡ check_refusal error)
        × IsFailure refusal.status };

    fn from(error: CheckError) -> Refusal {
        Refusal::by(
            Status::from(error),
            check_rule(error),
            error.address().unwrap_or(0),
        )
    }
}

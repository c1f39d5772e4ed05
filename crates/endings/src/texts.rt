//! The words for a reason to stop.
ghost use Rattle.std.specs.Prelude.{◌≡◌, ◌++◌, Some, codes};
ghost use Rattle.block_checker.specs.Refusals.{at_address};
ghost use Rattle.job_reasons.specs.Escaped.{escaped_text};
ghost use Rattle.rv_listing.specs.Sinks.{Told};
ghost use Rattle.endings.specs.Texts.{certificate_error_name, image_error_name};
ghost use Rattle.endings.specs.Texts.{job_error_name, open_error_name};
ghost use Rattle.endings.specs.Texts.{refused_line, stop_text};

use crate::escapes::put_escaped;
use crate::stop::Stop;
use cert_note::CertError;
use elf_image::ElfError;
use job_file::JobError;
use rv_listing::{Failed, Piece, Sink, put, put_all};
use sandbox_run::OpenError;

fn job_error_name(error: JobError) -> &'static str
    ensures { result.now ≡ job_error_name error }
{
    match error {
        JobError::NotToml => "NotToml",
        JobError::BadKey => "BadKey",
        JobError::NoMemory => "NoMemory",
    }
}

fn image_error_name(error: ElfError) -> &'static str
    ensures { result.now ≡ image_error_name error }
{
    match error {
        ElfError::TooShort => "TooShort",
        ElfError::BadMagic => "BadMagic",
        ElfError::BadClass => "BadClass",
        ElfError::BadType => "BadType",
        ElfError::BadMachine => "BadMachine",
        ElfError::BadFlags => "BadFlags",
        ElfError::BadHeaderTable => "BadHeaderTable",
        ElfError::NotStatic => "NotStatic",
        ElfError::SegmentOutOfFile => "SegmentOutOfFile",
        ElfError::SegmentOutOfPlace => "SegmentOutOfPlace",
        ElfError::SegmentsOverlap => "SegmentsOverlap",
        ElfError::WriteAndExecute => "WriteAndExecute",
        ElfError::TooLarge => "TooLarge",
        ElfError::EntryNotCode => "EntryNotCode",
        ElfError::TwoCertificates => "TwoCertificates",
        ElfError::CertificateThere => "CertificateThere",
        ElfError::NoMemory => "NoMemory",
    }
}

fn certificate_error_name(error: CertError) -> &'static str
    ensures { result.now ≡ certificate_error_name error }
{
    match error {
        CertError::Short => "Short",
        CertError::Version => "Version",
        CertError::Parameter => "Parameter",
        CertError::BlockOrder => "BlockOrder",
        CertError::Fact => "Fact",
        CertError::Equality => "Equality",
        CertError::Budget => "Budget",
        CertError::TrailingBytes => "TrailingBytes",
        CertError::TooMany => "TooMany",
        CertError::Order => "Order",
        CertError::NoMemory => "NoMemory",
    }
}

/// The name of an error, without its place.
fn open_error_name(error: OpenError) -> &'static str
    ensures { result.now ≡ open_error_name error }
{
    match error {
        OpenError::WrongKind(_) => "WrongKind",
        OpenError::ScalarOutOfInterval(_) => "ScalarOutOfInterval",
        OpenError::WrongSize(_) => "WrongSize",
        OpenError::BoundTooLarge => "BoundTooLarge",
        OpenError::WrongVlen => "WrongVlen",
        OpenError::NoMemory => "NoMemory",
    }
}

/// Tells a name between two texts.
fn put_name<'x, E: Sink>(before: &'x str, name: &'x str, errors: &mut E) -> Result<(), Failed>
    ensures { Told result (E.contents errors.old) (E.contents errors.new)
        (E.failures errors.old) (E.failures errors.new)
        (before.now ++ (name.now ++ codes "\n")) }
{
    put_all(
        errors,
        &[Piece::Text(before), Piece::Text(name), Piece::Text("\n")],
    )
}

/// Tells a refusal at an address.
fn put_at<E: Sink>(name: &str, address: u32, errors: &mut E) -> Result<(), Failed>
    ensures { Told result (E.contents errors.old) (E.contents errors.new)
        (E.failures errors.old) (E.failures errors.new)
        (refused_line (at_address name.now (Some address))) }
{
    put_all(
        errors,
        &[
            Piece::Text("refused: "),
            Piece::Text(name),
            Piece::Text(" at "),
            Piece::Word(address),
            Piece::Text("\n"),
        ],
    )
}

/// Tells a refusal, and the address of the word at which it came, if there is one.
fn put_refusal<E: Sink>(name: &str, address: Option<u32>, errors: &mut E) -> Result<(), Failed>
    ensures { Told result (E.contents errors.old) (E.contents errors.new)
        (E.failures errors.old) (E.failures errors.new)
        (refused_line (at_address name.now address)) }
{
    match address {
        Some(address) => put_at(name, address, errors),
        None => put_name("refused: ", name, errors),
    }
}

/// Tells the path of a file that was not read or not written.
fn put_path<E: Sink>(path: &str, errors: &mut E) -> Result<(), Failed>
    ensures { Told result (E.contents errors.old) (E.contents errors.new)
        (E.failures errors.old) (E.failures errors.new)
        (codes "file: " ++ (escaped_text path.now ++ codes "\n")) }
{
    put(errors, b"file: ".as_slice())?;
    put_escaped(path, errors)?;
    put(errors, b"\n".as_slice())
}

/// Tells why a subcommand stops, in a line.
pub fn put_stop<E: Sink>(stop: &Stop<'_>, errors: &mut E) -> Result<(), Failed>
    ensures { Told result (E.contents errors.old) (E.contents errors.new)
        (E.failures errors.old) (E.failures errors.new) (stop_text stop.now) }
{
    match stop {
        Stop::Job(error) => put_name("job: ", job_error_name(*error), errors),
        Stop::File(path) => put_path(path, errors),
        Stop::Image(error) => put_name("refused: ", image_error_name(*error), errors),
        Stop::NoCertificate => put_name("refused: ", "NoCertificate", errors),
        Stop::Certificate(error) => put_name("refused: ", certificate_error_name(*error), errors),
        Stop::Check(error) => put_refusal(error.name(), error.address(), errors),
        Stop::Make(error) => put_refusal(error.name(), error.address(), errors),
        Stop::Open(error) => put_name("refused: ", open_error_name(*error), errors),
        Stop::Memory => put(errors, b"out of memory\n".as_slice()),
        Stop::Output => put(errors, b"".as_slice()),
    }
}

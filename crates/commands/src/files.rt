//! The files of a job: what is read before its run, and what is written after it.
ghost use Rattle.std.specs.Prelude.{◌≡◌, ◌-◌, ◌^◌, IfErr, IfOk, MatchResult, Some, map, option_map};
ghost use Rattle.job_file.specs.Needs.{run_param_lent};
ghost use Rattle.toml.specs.Parse.{parse_document};
ghost use Rattle.toml.specs.View.{table_view};
ghost use Rattle.endings.specs.Accepted.{OrMemory};
ghost use Rattle.endings.specs.Ending.{IsOfFile};
ghost use Rattle.commands.specs.Files.{ArePassed, AreWritten, IsImageAt, IsImageOfFirst};
ghost use Rattle.commands.specs.Files.{IsNoImageAt, IsNoTable, IsNoTableAt, IsOfParam};
ghost use Rattle.commands.specs.Files.{IsReadSoFar, IsTableAt, IsTableOfFirst};
ghost use Rattle.commands.specs.Files.{IsOutWritten, IsPassed};
ghost use Rattle.commands.specs.Files.{IsUnpassed, IsWritten, image_in, lacks_rest, out_file};
ghost use Rattle.file_store.specs.Store.{files_of};
ghost use Rattle.endings.specs.Halt.{bare};
ghost use Rattle.commands.specs.Files.{AreFirst, IsFirstOf};
ghost use Rattle.file_store.specs.System.{IsFirst};
ghost use Rattle.endings.specs.Why.{ExplainsImage};

use elf_image::{ElfError, Image, MAX_FILE_SIZE};
use endings::{Halt, bad_image, bad_text, stop_at};
use file_store::Store;
use job_file::RunParam;
use job_reasons::table_in;
use region_mem::{Arg, Args, Bytes, MAX_BUFFER_SIZE};
use std::alloc::Global;
use toml::Table;

/// How many bytes of a buffer's file are needed: one more than a buffer may have, by which it is refused.
const MOST_OF_BUFFER: usize = MAX_BUFFER_SIZE as usize + 1;

/// The same of an image file.
const MOST_OF_IMAGE: usize = MAX_FILE_SIZE + 1;

/// Law: how many these are, in numbers.
pub fn needs_in_numbers()
    ensures buffer { MOST_OF_BUFFER ≡ 0x100_0001 }
    ensures image { MOST_OF_IMAGE ≡ 0x40_0001 }
{}

/// The file at `path`. Its first `most` bytes are needed.
fn read<'a, S: Store>(
    alloc: Global,
    path: &'a str,
    most: usize,
    store: &mut S,
) -> Result<Vec<u8>, Halt<'a>>
    ensures bytes { MatchResult (bare result)
        (λ bytes. (files_of (S.held store.old)).holds path.entry.now bytes.items)
        (IsOfFile (files_of (S.held store.old)).unread path.entry.now) }
    ensures first { IfOk result (λ bytes.
        IsFirst (S.known store.old) path.entry.now most bytes.items) }
    ensures files { S.held store.new ≡ S.held store.old }
    ensures known { S.known store.new ≡ S.known store.old }
{
    match store.read(alloc, path, most) {
        Ok(bytes) => Ok(bytes),
        Err(error) => Err(stop_at(alloc, error, store.last_failure(), path)),
    }
}

/// The table of the job file at `path`.
pub fn read_table<'a, S: Store>(
    alloc: Global,
    path: &'a str,
    store: &mut S,
) -> Result<Table, Halt<'a>>
    ensures table { MatchResult result
        (λ table. IsTableAt (files_of (S.held store.old)) path.entry.now (table_view table))
        (IsNoTableAt (files_of (S.held store.old)) path.entry.now) }
    ensures first { IfOk result (λ table.
        IsTableOfFirst (S.known store.old) path.entry.now (2 ^ 64 - 1) (table_view table)) }
    ensures files { S.held store.new ≡ S.held store.old }
    ensures known { S.known store.new ≡ S.known store.old }
{
    let text = read(alloc, path, usize::MAX, store)?;
    table_of(alloc, text.as_slice())
}

/// The table that the bytes of a job file spell.
fn table_of<'a>(alloc: Global, bytes: &[u8]) -> Result<Table, Halt<'a>>
    ensures { MatchResult result
        (λ table. parse_document bytes.now ≡ Some (table_view table))
        (IsNoTable bytes.now) }
{
    match table_in(alloc, bytes) {
        Ok(table) => Ok(table),
        Err(reason) => Err(bad_text(alloc, reason)),
    }
}

/// Whether the fault that the beginning of a file shows may lie in the rest, where the file is too large for an image.
fn lacks_rest(alloc: Global, file: &[u8]) -> bool
    ensures { result ≡ lacks_rest MOST_OF_IMAGE file.now }
{
    file.len() == MOST_OF_IMAGE
        && matches!(
            elf_image::read(alloc, file),
            Err(ElfError::BadHeaderTable | ElfError::SegmentOutOfFile)
        )
}

/// The image file at `path`. One that is too large is read whole only where its beginning does not show why it is refused.
pub fn read_image_file<'a, S: Store>(
    alloc: Global,
    path: &'a str,
    store: &mut S,
) -> Result<Vec<u8>, Halt<'a>>
    ensures bytes { MatchResult (bare result)
        (λ bytes. (files_of (S.held store.old)).holds path.entry.now bytes.items)
        (IsOfFile (files_of (S.held store.old)).unread path.entry.now) }
    ensures first { IfOk result (λ bytes.
        IsReadSoFar (S.known store.old) path.entry.now MOST_OF_IMAGE bytes.items) }
    ensures files { S.held store.new ≡ S.held store.old }
    ensures known { S.known store.new ≡ S.known store.old }
{
    let bytes = read(alloc, path, MOST_OF_IMAGE, store)?;
    if lacks_rest(alloc, &bytes) {
        return read(alloc, path, usize::MAX, store);
    }
    Ok(bytes)
}

/// The image at `path`.
pub fn read_image<'a, S: Store>(
    alloc: Global,
    path: &'a str,
    store: &mut S,
) -> Result<Image, Halt<'a>>
    ensures image { MatchResult result
        (IsImageAt (files_of (S.held store.old)) path.entry.now)
        (IsNoImageAt (files_of (S.held store.old)) path.entry.now) }
    ensures first { IfOk result
        (IsImageOfFirst (S.known store.old) path.entry.now MOST_OF_IMAGE) }
    ensures files { S.held store.new ≡ S.held store.old }
    ensures known { S.known store.new ≡ S.known store.old }
{
    let bytes = read_image_file(alloc, path, store)?;
    image_in(alloc, bytes.as_slice())
}

/// The image that a file spells.
pub fn image_in<'a>(alloc: Global, file: &[u8]) -> Result<Image, Halt<'a>>
    ensures image { OrMemory (image_in file.now) (bare result) }
    ensures told { IfErr result (ExplainsImage file.now) }
{
    match elf_image::read_kept(alloc, file) {
        Ok(image) => Ok(image),
        Err(refusal) => Err(bad_image(alloc, refusal)),
    }
}

/// What a job passes, by place: its scalars, and the bytes of its files.
pub fn read_args<'a, S: Store>(
    alloc: Global,
    params: &[RunParam<&'a str>; 8],
    store: &mut S,
) -> Result<Args, Halt<'a>>
    ensures passed { MatchResult (bare result)
        (λ args.
        ArePassed (files_of (S.held store.old)) (map run_param_lent params.now) args.places)
        (IsUnpassed (files_of (S.held store.old)) (map run_param_lent params.now)) }
    ensures first { IfOk result (λ args. AreFirst (S.known store.old) MOST_OF_BUFFER
        (map run_param_lent params.now) args.places) }
    ensures files { S.held store.new ≡ S.held store.old }
    ensures known { S.known store.new ≡ S.known store.old }
{
    let Args { mut places }: Args = Args::none();
    for place in 0..8 {
        places[place] = read_arg(alloc, &params[place], store)?;
    }
    Ok(Args { places })
}

fn read_arg<'a, S: Store>(
    alloc: Global,
    param: &RunParam<&'a str>,
    store: &mut S,
) -> Result<Arg, Halt<'a>>
    ensures passed { MatchResult (bare result)
        (IsPassed (files_of (S.held store.old)) (run_param_lent param.now))
        (IsOfParam (files_of (S.held store.old)) (run_param_lent param.now)) }
    ensures first { IfOk result
        (IsFirstOf (S.known store.old) MOST_OF_BUFFER (run_param_lent param.now)) }
    ensures files { S.held store.new ≡ S.held store.old }
    ensures known { S.known store.new ≡ S.known store.old }
{
    match param {
        RunParam::None => Ok(Arg::None),
        RunParam::Scalar(value) => Ok(Arg::Scalar(*value)),
        RunParam::Buffer { file, .. } => {
            let bytes = read(alloc, *file, MOST_OF_BUFFER, store)?;
            Ok(Arg::Buffer(Bytes::new(bytes)))
        }
    }
}

/// The file that a place has after a run, where it has one: its path, and the buffer's bytes.
fn out_file<'a, 'b>(param: &RunParam<&'a str>, arg: &'b Arg) -> Option<(&'a str, &'b [u8])>
    ensures { option_map (λ file. (file.0.now, file.1.now)) result
        ≡ out_file (run_param_lent param.now, arg.now) }
{
    match (param, arg) {
        (
            RunParam::Buffer {
                out: Some(path),
                ..
            },
            Arg::Buffer(bytes),
        ) => Some((*path, bytes.as_slice())),
        (RunParam::None | RunParam::Scalar(_) | RunParam::Buffer { .. }, _) => None,
    }
}

/// Writes the file at `path`.
pub fn write<'a, S: Store>(
    alloc: Global,
    path: &'a str,
    bytes: &[u8],
    store: &mut S,
) -> Result<(), Halt<'a>>
    ensures { IsWritten (files_of (S.held store.old)) (S.held store.old) (S.held store.new)
        (path.entry.now, bytes.now) (bare result) }
{
    match store.write(path, bytes) {
        Ok(()) => Ok(()),
        Err(error) => Err(stop_at(alloc, error, store.last_failure(), path)),
    }
}

/// Writes the out file of a place, where it has one.
fn write_out<'a, S: Store>(
    alloc: Global,
    param: &RunParam<&'a str>,
    arg: &Arg,
    store: &mut S,
) -> Result<(), Halt<'a>>
    ensures { IsOutWritten (files_of (S.held store.old)) (S.held store.old) (S.held store.new)
        (out_file (run_param_lent param.now, arg.now)) (bare result) }
{
    match out_file(param, arg) {
        Some((path, bytes)) => write(alloc, path, bytes, store),
        None => Ok(()),
    }
}

/// Writes the out files of a job, by place, up to the first that can't be written.
pub fn write_outs<'a, S: Store>(
    alloc: Global,
    params: &[RunParam<&'a str>; 8],
    args: &[Arg; 8],
    store: &mut S,
) -> Result<(), Halt<'a>>
    ensures { AreWritten (files_of (S.held store.old)) (S.held store.old) (S.held store.new)
        (map run_param_lent params.now) args.now (bare result) }
{
    for place in 0..8 {
        write_out(alloc, &params[place], &args[place], store)?;
    }
    Ok(())
}

//! The subcommands over files in memory: exactly what they read, print and write.
ghost use Rattle.std.specs.Prelude.{◌≡◌, ◌⊎◌, ◌++◌, List, Some, ℕ, ◌≤◌, ◌+◌};
ghost use Rattle.commands.specs.Corollary.{IsBoundOf, IsMadeOf, IsRunOf, IsTrialOf};
ghost use Rattle.commands.specs.Checks.{Checks, StopsCheck};
ghost use Rattle.commands.specs.Corollary.{IsWatchOf};
ghost use Rattle.endings.specs.Ending.{Ends};
ghost use Rattle.commands.specs.Files.{OfTable, StopsOfTable};
ghost use Rattle.file_store.specs.Store.{bytes_at, files_of};
ghost use Rattle.commands.specs.Makes.{Makes, StopsMake};
ghost use Rattle.file_store.specs.Memory.{held_by};
ghost use Rattle.commands.specs.Mons.{BeforeAll, Mons, StopsMon};
ghost use Rattle.commands.specs.Runs.{Runs, StopsRun};
ghost use Rattle.endings.specs.Streams.{stream};
ghost use Rattle.commands.specs.Changes.{Wrote, change, exchange};
ghost use Rattle.file_store.specs.Sources.{source};
ghost use Rattle.commands.specs.Tries.{StopsTry, Tries};
ghost use Rattle.file_store.specs.Written.{Gains};
ghost use Rattle.file_store.specs.declared.store.TheConstants.{MOST_READS};
ghost use Rattle.endings.specs.declared.stop.Status.TheVariants as status;

use crate::checks::check_image;
use crate::makes::{MakePaths, make_image};
use crate::mons::mon_job;
use crate::runs::run_job;
use crate::tries::try_job;
use endings::Status;
use file_store::{Memory, Source};
use rv_listing::Over;
use std::alloc::Global;

/// `check` over files in memory. What it prints is of the file at `path`, and no file changes. Why it stops is printed, with
/// the explanation where it is to `explain`.
pub fn check_memory(
    alloc: Global,
    path: &str,
    explain: bool,
    memory: &mut Memory,
    output: &mut Over<Vec<u8>>,
    errors: &mut Over<Vec<u8>>,
) -> Status
    ensures done { result ≡ status.Done → (file : List ℕ)
        × (bytes_at (held_by memory.old) path.now ≡ Some file)
        × (line : List ℕ) × IsBoundOf file line
        × (output.new.writer.items ≡ output.old.writer.items ++ line) }
    ensures kept { held_by memory.new ≡ held_by memory.old }
    ensures ends { let c = (change (Some (held_by memory.old)) (Some (held_by memory.new))
        (stream (Some output.old.writer.items) output.old.failures)
        (stream (Some output.new.writer.items) output.new.failures)) in
        Ends explain (Checks (files_of c.was) path.now c) (StopsCheck (files_of c.was) c path.now)
        (stream (Some errors.old.writer.items) errors.old.failures)
        (stream (Some errors.new.writer.items) errors.new.failures) result }
{
    check_image(alloc, path, explain, memory, output, errors)
}

/// `run` over files in memory, with the `registers` or without: what it prints, which files there are afterwards, and why it
/// stops.
pub fn run_memory(
    alloc: Global,
    path: &str,
    explain: bool,
    registers: bool,
    memory: &mut Memory,
    output: &mut Over<Vec<u8>>,
    errors: &mut Over<Vec<u8>>,
) -> Status
    ensures done { result ≡ status.Done → IsRunOf registers (held_by memory.old)
        (held_by memory.new) path.now output.old.writer.items output.new.writer.items }
    ensures ends { let c = (change (Some (held_by memory.old)) (Some (held_by memory.new))
        (stream (Some output.old.writer.items) output.old.failures)
        (stream (Some output.new.writer.items) output.new.failures)) in
        Ends explain
        (OfTable (files_of c.was) path.now (λ table. Runs (files_of c.was) registers table c))
        (StopsOfTable (files_of c.was) (Wrote c) path.now
        (StopsRun (files_of c.was) registers c))
        (stream (Some errors.old.writer.items) errors.old.failures)
        (stream (Some errors.new.writer.items) errors.new.failures) result }
{
    run_job(alloc, path, explain, registers, memory, output, errors)
}

/// `try` over files in memory, with the `registers` or without: what it prints, which files there are afterwards, and why it
/// stops.
pub fn try_memory(
    alloc: Global,
    path: &str,
    explain: bool,
    registers: bool,
    memory: &mut Memory,
    output: &mut Over<Vec<u8>>,
    errors: &mut Over<Vec<u8>>,
) -> Status
    ensures done { (result ≡ status.Done) ⊎ (result ≡ status.Stopped)
        → IsTrialOf registers (held_by memory.old) (held_by memory.new) path.now
        output.old.writer.items output.new.writer.items result }
    ensures ends { let c = (change (Some (held_by memory.old)) (Some (held_by memory.new))
        (stream (Some output.old.writer.items) output.old.failures)
        (stream (Some output.new.writer.items) output.new.failures)) in
        Ends explain
        (OfTable (files_of c.was) path.now (λ table. Tries (files_of c.was) registers table c))
        (StopsOfTable (files_of c.was) (Wrote c) path.now
        (StopsTry (files_of c.was) registers c))
        (stream (Some errors.old.writer.items) errors.old.failures)
        (stream (Some errors.new.writer.items) errors.new.failures) result }
{
    try_job(alloc, path, explain, registers, memory, output, errors)
}

/// `make` over files in memory: what it prints, which file it wrote, and why it stops.
pub fn make_memory<'a>(
    alloc: Global,
    paths: MakePaths<'a>,
    explain: bool,
    memory: &mut Memory,
    output: &mut Over<Vec<u8>>,
    errors: &mut Over<Vec<u8>>,
) -> Status
    ensures done { result ≡ status.Done → IsMadeOf (held_by memory.old) (held_by memory.new)
        paths.entry.image.now paths.entry.job.now paths.entry.out.now
        output.old.writer.items output.new.writer.items }
    ensures ends { let c = (change (Some (held_by memory.old)) (Some (held_by memory.new))
        (stream (Some output.old.writer.items) output.old.failures)
        (stream (Some output.new.writer.items) output.new.failures)) in
        Ends explain
        (OfTable (files_of c.was) paths.entry.job.now (λ table.
        Makes (files_of c.was) paths.entry.image.now paths.entry.out.now table c))
        (StopsOfTable (files_of c.was) (Wrote c) paths.entry.job.now
        (StopsMake (files_of c.was) c paths.entry.image.now paths.entry.out.now))
        (stream (Some errors.old.writer.items) errors.old.failures)
        (stream (Some errors.new.writer.items) errors.new.failures) result }
{
    make_image(alloc, paths, explain, memory, output, errors)
}

/// `mon` over files in memory: what it answers to the lines of the input, which files there are afterwards, and why it stops.
pub fn mon_memory<I: Source>(
    alloc: Global,
    path: &str,
    explain: bool,
    memory: &mut Memory,
    input: &mut I,
    output: &mut Over<Vec<u8>>,
    errors: &mut Over<Vec<u8>>,
) -> Status
    ensures done { let e = (exchange
        (source (I.remaining input.old) (I.reads input.old) (I.failures input.old))
        (source (I.remaining input.new) (I.reads input.new) (I.failures input.new))
        (stream (Some output.old.writer.items) output.old.failures)
        (stream (Some output.new.writer.items) output.new.failures)) in
        result ≡ status.Done
        → IsWatchOf (held_by memory.old) (held_by memory.new) path.now e }
    ensures few { I.reads input.new ≤ I.reads input.old + MOST_READS }
    ensures ends { let e = (exchange
        (source (I.remaining input.old) (I.reads input.old) (I.failures input.old))
        (source (I.remaining input.new) (I.reads input.new) (I.failures input.new))
        (stream (Some output.old.writer.items) output.old.failures)
        (stream (Some output.new.writer.items) output.new.failures)) in
        let wrote = Gains (Some (held_by memory.old)) (Some (held_by memory.new)) in
        Ends explain
        (OfTable (files_of (Some (held_by memory.old))) path.now (λ table.
        Mons (files_of (Some (held_by memory.old))) table e
        (Some (held_by memory.old)) (Some (held_by memory.new))))
        (StopsOfTable (files_of (Some (held_by memory.old))) (BeforeAll e wrote)
        path.now (StopsMon MOST_READS (files_of (Some (held_by memory.old))) e wrote))
        (stream (Some errors.old.writer.items) errors.old.failures)
        (stream (Some errors.new.writer.items) errors.new.failures) result }
{
    mon_job(alloc, path, explain, memory, input, output, errors)
}

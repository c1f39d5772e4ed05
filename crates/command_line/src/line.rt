//! The command line.
ghost use Rattle.std.specs.Prelude.{◌≡◌, IfErr, IfOk, codes, false, map, option_map};
ghost use Rattle.clap.specs.Words.{app_of, kind_of, rule_of, shape_of, subcommand_rows_of};
ghost use Rattle.clap.specs.Words.{with_rule, with_subcommand};
ghost use Rattle.clap.specs.declared.builder.command.Command.TheViews.{out-Command as fields_of};
ghost use Rattle.command_line.specs.Line.{IsFaultOf, IsLineOf, IsTaken, IsWith, app, bare_app};
ghost use Rattle.command_line.specs.Line.{check_shape, flag_of, flag_rule, make_paths_of};
ghost use Rattle.command_line.specs.Line.{make_shape, mon_shape, path_of, path_rule, path_shape};
ghost use Rattle.command_line.specs.Line.{texts_of, told_shape};

pub mod asked;

use asked::{Line, LineError};
use clap::error::ErrorKind;
use clap::{Arg, ArgAction, ArgMatches, Command};
use commands::{Escaped, MakePaths};
use std::alloc::{AllocError, Global};

/// What the help says of statuses, and where more stands.
const STATUSES: &str = "Statuses:
  0  done
  1  the image, its certificate or the arguments of its run were refused
  2  the command line or the job was refused
  3  a file or the input was not read, or a file or the output not written
  4  memory ran out
  5  the run met a fault or ran out of steps

JOBS.md and MONITOR.md, in the folder docs of rvvbox, have job files and all that is printed.";

/// What `mon --help` says of the lines of its input.
const MON_COMMANDS: &str = "Commands, one a line; A is a hexadecimal number, N a decimal one:
  b A    sets a breakpoint at A, a multiple of 4
  d A    deletes it
  s N    does at most N steps
  c      goes on to a breakpoint or the end
  x      shows the integer registers
  v N    shows vector register N
  csr    shows pc, vl, vtype, vxrm, vxsat and vlenb
  m A N  shows N bytes from A on, 1 to 256
  l A N  lists N words from A on, 1 to 256
  q      writes the out files and ends, as the end of the input does

`rvvbox help` tells the statuses, and which documents have more.";

/// What the help says of `--explain` and of `--registers`.
const EXPLAIN: &str = "Tells more of why it stops";

const REGISTERS: &str = "Shows the registers that the run left, as mon does";

/// A path that has to be there, under `id`, shown as `name`.
fn path_argument<'a>(alloc: Global, id: &'a str, name: &'a str, help: &'a str) -> Arg<'a>
    ensures rule { rule_of result ≡ path_rule id.entry.now }
    ensures local { result.global ≡ false }
{
    Arg::new(alloc, id)
        .value_name(name)
        .help(help)
        .required(true)
        .action(ArgAction::Set)
}

/// A flag, under `id`, which is its name too.
fn flag<'a>(alloc: Global, id: &'a str, help: &'a str) -> Arg<'a>
    ensures rule { rule_of result ≡ flag_rule id.entry.now }
    ensures local { result.global ≡ false }
{
    Arg::new(alloc, id)
        .long(id)
        .help(help)
        .action(ArgAction::SetTrue)
}

/// The subcommand `name` on a path, under `id`, shown as `shown`, with `--explain`.
fn path_command<'a>(
    alloc: Global,
    name: &'a str,
    about: &'a str,
    id: &'a str,
    shown: &'a str,
    help: &'a str,
) -> Result<Command<'a>, AllocError>
    ensures shape { IfOk result (λ c. shape_of c ≡ path_shape name.entry.now id.entry.now) }
    ensures local { IfOk result (λ c. (fields_of c).has_globals ≡ false) }
{
    let path = path_argument(alloc, id, shown, help);
    Command::new(alloc, name)
        .about(about)
        .after_help(STATUSES)
        .arg(path)?
        .arg(flag(alloc, "explain", EXPLAIN))
}

/// `check IMAGE`.
fn check_command<'a>(alloc: Global) -> Result<Command<'a>, AllocError>
    ensures shape { IfOk result (λ c. shape_of c ≡ check_shape) }
    ensures local { IfOk result (λ c. (fields_of c).has_globals ≡ false) }
{
    path_command(
        alloc,
        "check",
        "Checks an image against its certificate",
        "image",
        "IMAGE",
        "The image file",
    )
}

/// The subcommand `name` on a job, without more flags: `mon JOB`.
fn job_command<'a>(alloc: Global, name: &'a str, about: &'a str) -> Result<Command<'a>, AllocError>
    ensures shape { IfOk result (λ c. shape_of c ≡ path_shape name.entry.now (codes "job")) }
    ensures local { IfOk result (λ c. (fields_of c).has_globals ≡ false) }
{
    path_command(alloc, name, about, "job", "JOB", "The job file")
}

/// `mon JOB`, whose help tells the commands.
fn mon_command<'a>(alloc: Global) -> Result<Command<'a>, AllocError>
    ensures shape { IfOk result (λ c. shape_of c ≡ mon_shape) }
    ensures local { IfOk result (λ c. (fields_of c).has_globals ≡ false) }
{
    let about = "Checks a job's image, and answers commands on its run from standard input";
    let mon = job_command(alloc, "mon", about)?;
    Ok(mon.after_help(MON_COMMANDS))
}

/// `command` with one more path, under `id`, shown as `name`.
fn with_path<'a>(
    alloc: Global,
    command: Command<'a>,
    id: &'a str,
    name: &'a str,
    help: &'a str,
) -> Result<Command<'a>, AllocError>
    requires { (fields_of command).has_globals ≡ false }
    ensures app { IfOk result
        (λ c. app_of c ≡ with_rule (app_of command.entry) (path_rule id.entry.now)) }
    ensures local { IfOk result (λ c. (fields_of c).has_globals ≡ false) }
{
    let path = path_argument(alloc, id, name, help);
    command.arg(path)
}

/// `command` with a flag, under `id`.
fn with_flag<'a>(
    alloc: Global,
    command: Command<'a>,
    id: &'a str,
    help: &'a str,
) -> Result<Command<'a>, AllocError>
    requires { (fields_of command).has_globals ≡ false }
    ensures app { IfOk result
        (λ c. app_of c ≡ with_rule (app_of command.entry) (flag_rule id.entry.now)) }
    ensures local { IfOk result (λ c. (fields_of c).has_globals ≡ false) }
{
    command.arg(flag(alloc, id, help))
}

/// The subcommand `name` on a job, with `--registers`: `run JOB` or `try JOB`.
fn told_command<'a>(alloc: Global, name: &'a str, about: &'a str) -> Result<Command<'a>, AllocError>
    ensures shape { IfOk result (λ c. shape_of c ≡ told_shape name.entry.now) }
    ensures local { IfOk result (λ c. (fields_of c).has_globals ≡ false) }
{
    let job = job_command(alloc, name, about)?;
    with_flag(alloc, job, "registers", REGISTERS)
}

/// `make IMAGE JOB OUT`.
fn make_command<'a>(alloc: Global) -> Result<Command<'a>, AllocError>
    ensures shape { IfOk result (λ c. shape_of c ≡ make_shape) }
    ensures local { IfOk result (λ c. (fields_of c).has_globals ≡ false) }
{
    let about =
        "Makes a certificate of an image for a job's parameters, and writes the image with it";
    let bare = Command::new(alloc, "make")
        .about(about)
        .after_help(STATUSES);
    let image = with_path(alloc, bare, "image", "IMAGE", "The image file")?;
    let job = with_path(alloc, image, "job", "JOB", "The job file")?;
    let out = with_path(alloc, job, "out", "OUT", "The image file that is written")?;
    with_flag(alloc, out, "explain", EXPLAIN)
}

/// `command` with one more subcommand, if that was made. Its version is printed as the program's.
fn with<'a>(
    command: Command<'a>,
    sub: Result<Command<'a>, AllocError>,
) -> Result<Command<'a>, AllocError>
    requires { IfOk sub (λ made. (fields_of made).has_globals ≡ false) }
    ensures { IfOk result (λ c. IsWith (app_of command.entry) sub.entry (app_of c)) }
{
    let named = sub?.display_name("rvvbox")?;
    command.subcommand(named)
}

/// `rvvbox` with no subcommand yet.
fn bare_command<'a>(alloc: Global) -> Command<'a>
    ensures { app_of result ≡ bare_app }
{
    Command::new(alloc, "rvvbox")
        .about("A sandbox for RISC-V vector kernels")
        .version("0.1.0")
        .after_help(STATUSES)
        .subcommand_required(true)
        .propagate_version(true)
}

/// The program's command, with all its subcommands.
fn program<'a>(alloc: Global) -> Result<Command<'a>, AllocError>
    ensures { IfOk result (λ c. app_of c ≡ app) }
{
    let checking = with(bare_command(alloc), check_command(alloc))?;
    let running = with(
        checking,
        told_command(
            alloc,
            "run",
            "Checks a job's image against its certificate, and runs it if it is accepted",
        ),
    )?;
    let trying = with(
        running,
        told_command(
            alloc,
            "try",
            "Runs a job's image, accepted or not, with every test at each step",
        ),
    )?;
    let watching = with(trying, mon_command(alloc))?;
    with(watching, make_command(alloc))
}

/// The path under `id` of the subcommand `name`, where that one was used.
fn path<'a>(matches: &ArgMatches<'a>, name: &str, id: &str) -> Option<&'a str>
    ensures { option_map (λ s. s.now) result
        ≡ path_of name.now id.now (subcommand_rows_of matches.now) }
{
    matches.subcommand_matches(name)?.get_str(id)
}

/// Whether the subcommand `name` was used with a flag.
fn is_asked(matches: &ArgMatches<'_>, name: &str, flag: &str) -> bool
    ensures { result ≡ flag_of name.now flag.now (subcommand_rows_of matches.now) }
{
    match path(matches, name, flag) {
        Some(word) => word == "true",
        None => false,
    }
}

/// The paths of `make`, where that one was used.
fn make_paths<'a>(matches: &ArgMatches<'a>) -> Option<MakePaths<'a>>
    ensures { option_map texts_of result ≡ make_paths_of (subcommand_rows_of matches.now) }
{
    let image = path(matches, "make", "image")?;
    let job = path(matches, "make", "job")?;
    let out = path(matches, "make", "out")?;
    Some(MakePaths { image, job, out })
}

/// What `clap`'s matches ask for, where they name one of the subcommands.
fn line_of<'a>(matches: &ArgMatches<'a>) -> Option<Line<'a>>
    ensures { IsTaken (subcommand_rows_of matches.now) result }
{
    if let Some(image) = path(matches, "check", "image") {
        let explain = is_asked(matches, "check", "explain");
        Some(Line::Check { image, explain })
    } else if let Some(job) = path(matches, "run", "job") {
        let explain = is_asked(matches, "run", "explain");
        let registers = is_asked(matches, "run", "registers");
        Some(Line::Run {
            job,
            explain,
            registers,
        })
    } else if let Some(job) = path(matches, "try", "job") {
        let explain = is_asked(matches, "try", "explain");
        let registers = is_asked(matches, "try", "registers");
        Some(Line::Try {
            job,
            explain,
            registers,
        })
    } else if let Some(job) = path(matches, "mon", "job") {
        let explain = is_asked(matches, "mon", "explain");
        Some(Line::Mon { job, explain })
    } else if let Some(paths) = make_paths(matches) {
        let explain = is_asked(matches, "make", "explain");
        Some(Line::Make { paths, explain })
    } else {
        None
    }
}

/// What the words ask for. The first is the program's name.
///
/// A `Line` is what `clap`'s matches give. `LineError::Usage` comes exactly where `clap` refuses the
/// words, or where they ask for help or the version; its error has `clap`'s text and exit code.
/// `LineError::NoMemory` comes only where an allocation was refused.
pub fn line<'a>(alloc: Global, words: &'a [&'a str]) -> Result<Line<'a>, LineError>
    ensures line { IfOk result (IsLineOf (map (λ w. w.now) words.entry.now)) }
    ensures refused { IfErr result (IsFaultOf (map (λ w. w.now) words.entry.now)) }
{
    let command = program(alloc)?;
    match command.try_get_matches_from(words) {
        Ok(matches) => match line_of(&matches) {
            Some(line) => Ok(line),
            None => unreachable!(),
        },
        Err(error) => match error.kind() {
            ErrorKind::OutOfMemory => Err(LineError::NoMemory),
            _ => Err(LineError::Usage(shown(alloc, words, error)?)),
        },
    }
}

/// Whether a word has a control character.
fn has_control(word: &str) -> bool {
    word.chars().any(|c| c.is_control())
}

/// The words, in which control characters are told by their codes.
fn escaped(alloc: Global, words: &[&str]) -> Result<Vec<String>, AllocError> {
    let mut told = Vec::with_capacity(alloc, words.len())?;
    for word in words {
        let word = Escaped(*word);
        told.push(format!(in alloc; "{word}")?)?;
    }
    Ok(told)
}

/// Why `clap` refuses words, if it does.
fn refusal<'a>(alloc: Global, words: &'a [String]) -> Result<Option<clap::Error>, AllocError> {
    let command = program(alloc)?;
    match command.try_get_matches_from(words) {
        Ok(_matches) => Ok(None),
        Err(error) => Ok(Some(error)),
    }
}

/// The same fault, as `clap` tells it of words in which control characters are told by their codes: its text repeats words.
fn shown(alloc: Global, words: &[&str], error: clap::Error) -> Result<clap::Error, AllocError>
    ensures { IfOk result (λ told. kind_of told ≡ kind_of error) }
{
    if !words.iter().any(|word| has_control(*word)) {
        return Ok(error);
    }
    let texts = escaped(alloc, words)?;
    match refusal(alloc, texts.as_slice())? {
        Some(told) => {
            if told.kind() == error.kind() {
                Ok(told)
            } else {
                Ok(error)
            }
        }
        None => Ok(error),
    }
}

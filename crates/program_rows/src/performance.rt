//! What comes of words of a command line.
use crate::error::CaseError;
use crate::shelf::Shelf;
use crate::streams::{Input, Manner, Output};
use command_line::perform;
use commands::{Counted, Over, Status, mon_job_within};
use std::alloc::Global;

/// Where `--explain` stands among words.
#[derive(Clone, Copy)]
pub(crate) enum Flag {
    Nowhere,
    /// Behind the name of the subcommand.
    Before,
    /// At the end.
    Behind,
}

/// What standard output does.
#[derive(Clone, Copy)]
pub(crate) enum Taking {
    All,
    Nothing,
    /// It takes all, and passes nothing on.
    Stuck,
}

/// The streams of a performance, and how often its input may be read, where that is limited.
#[derive(Clone, Copy)]
pub(crate) struct Streams {
    pub input: Manner,
    pub output: Taking,
    pub reads: Option<u64>,
}

/// The words of a line, with the program's name before them.
fn words_of<'a>(alloc: Global, line: &'a str, flag: Flag) -> Result<Vec<&'a str>, CaseError> {
    let mut words = vec![in alloc; "rvvbox"]?;
    for word in line.split_whitespace() {
        words.push(word)?;
        if matches!(flag, Flag::Before) && words.len() == 2 {
            words.push("--explain")?;
        }
    }
    if matches!(flag, Flag::Behind) {
        words.push("--explain")?;
    }
    Ok(words)
}

fn name_of(status: Status) -> &'static str {
    match status {
        Status::Done => "done",
        Status::Refused => "refused",
        Status::Usage => "usage",
        Status::File => "file",
        Status::Memory => "memory",
        Status::Stopped => "stopped",
    }
}

/// Adds the lines of what a stream took, each behind a sign. A text that does not end its last line ends with a sign of this.
fn put_lines(lines: &mut String, sign: &str, stream: &[u8]) -> Result<(), CaseError> {
    let text = std::str::from_utf8(stream).map_err(|_| CaseError::NoCase)?;
    for line in text.lines() {
        lines.push_str(sign)?;
        if !line.is_empty() {
            lines.push(' ')?;
            lines.push_str(line)?;
        }
        lines.push('\n')?;
    }
    if !text.is_empty() && !text.ends_with('\n') {
        lines.push_str("(the line has no end)\n")?;
    }
    Ok(())
}

/// Performs the words of a line, or `mon` alone where its reads are limited.
fn status_of(
    shelf: &mut Shelf,
    words: &[&str],
    reads: Option<u64>,
    input: &mut Counted<Input<'_>>,
    output: &mut Over<Output>,
    errors: &mut Over<Vec<u8>>,
) -> Status {
    let alloc = shelf.alloc;
    match (reads, words) {
        (Some(most), [_, _, job]) => {
            mon_job_within(alloc, job, false, shelf, input, output, errors, most)
        }
        _ => perform(alloc, words, shelf, input, output, errors).status(),
    }
}

/// The lines of a performance: how it ended, and what standard output and standard error took.
fn told(
    alloc: Global,
    status: Status,
    output: &Output,
    errors: &[u8],
) -> Result<String, CaseError> {
    let status = name_of(status);
    let mut lines = format!(in alloc; "status {status}\n")?;
    if let Output::Kept(bytes) = output {
        put_lines(&mut lines, ">", bytes)?;
    }
    put_lines(&mut lines, "!", errors)?;
    Ok(lines)
}

/// Standard output that does this.
fn output_of(alloc: Global, taking: Taking) -> Output {
    match taking {
        Taking::All => Output::Kept(Vec::new(alloc)),
        Taking::Nothing => Output::Broken,
        Taking::Stuck => Output::Stuck,
    }
}

/// What comes of the words of a line over a shelf, as the lines of a table. The file at `-` is standard input.
pub(crate) fn lines_of(
    shelf: &mut Shelf,
    line: &str,
    flag: Flag,
    streams: Streams,
) -> Result<String, CaseError> {
    let alloc = shelf.alloc;
    let words = words_of(alloc, line, flag)?;
    let given = Vec::from_slice(alloc, shelf.get("-").unwrap_or(&[]))?;
    let mut input = Counted::new(Input {
        bytes: given.as_slice(),
        manner: streams.input,
    });
    let mut output = Over::new(output_of(alloc, streams.output));
    let mut errors = Over::new(Vec::new(alloc));
    let (out, err) = (&mut output, &mut errors);
    let status = status_of(shelf, &words, streams.reads, &mut input, out, err);
    told(alloc, status, &output.into_inner(), &errors.into_inner())
}

//! A case, line by line: files are put on a shelf, words are performed over them, and what comes of it is compared.
use crate::error::CaseError;
use crate::performance::{Flag, Streams, Taking, lines_of};
use crate::shelf::Shelf;
use crate::spelling::{File, are_alike, number, spell};
use crate::streams::Manner;
use std::alloc::Global;
use std::io;

/// What is asked of the program, and what has to come of it.
#[derive(Drop)]
struct Asked<'a> {
    words: &'a str,
    explains: bool,
    /// The lines that have to come.
    lines: String,
    /// The files that have to be written.
    written: Vec<File>,
}

/// A case as far as it was read: the files, the streams, and what was asked last.
#[derive(Drop)]
pub(crate) struct Stage<'a> {
    shelf: Shelf,
    streams: Streams,
    asked: Option<Asked<'a>>,
}

/// How the lines that came differ, None where they are the wanted ones.
fn unlike(
    alloc: Global,
    words: &str,
    wanted: &str,
    came: &str,
) -> Result<Option<String>, CaseError> {
    if came == wanted {
        return Ok(None);
    }
    Ok(Some(format!(in alloc; "{words}: should be\n{wanted}came\n{came}")?))
}

impl<'a> Stage<'a> {
    /// No file, and an input that can't be read.
    pub(crate) fn new(alloc: Global) -> Stage<'a> {
        Stage {
            shelf: Shelf::new(alloc),
            streams: Streams {
                input: Manner {
                    drips: false,
                    failure: Some(io::ErrorKind::Other),
                },
                output: Taking::All,
                reads: None,
            },
            asked: None,
        }
    }

    /// Takes a line of a case or of a part. What was asked before is performed first where another thing is asked: how
    /// it differs, None where all is as wanted.
    pub(crate) fn take(&mut self, line: &'a str) -> Result<Option<String>, CaseError> {
        let alloc = self.shelf.alloc;
        if let Some(words) = line.strip_prefix("$ ") {
            return self.ask(words, false);
        }
        if let Some(words) = line.strip_prefix("~ ") {
            return self.ask(words, true);
        }
        match (line.as_bytes().first(), &mut self.asked) {
            (None | Some(b'#'), _) => {}
            (Some(b'@' | b'|'), Some(asked)) => spell(alloc, &mut asked.written, line)?,
            (Some(b'@' | b'|'), None) => self.put(line)?,
            (_, Some(asked)) => {
                asked.lines.push_str(line)?;
                asked.lines.push('\n')?;
            }
            (_, None) => self.set(line)?,
        }
        Ok(None)
    }

    /// Puts files on the shelf. Where there is an input it ends behind its bytes.
    fn put(&mut self, line: &str) -> Result<(), CaseError> {
        if line == "@file -" {
            self.streams.input.failure = None;
        }
        spell(self.shelf.alloc, &mut self.shelf.files, line)
    }

    /// Sets a stream.
    fn set(&mut self, line: &str) -> Result<(), CaseError> {
        let streams = &mut self.streams;
        match line {
            "input drips" => streams.input.drips = true,
            "input fails" => streams.input.failure = Some(io::ErrorKind::Other),
            "input breaks" => streams.input.failure = Some(io::ErrorKind::BrokenPipe),
            "input wants memory" => streams.input.failure = Some(io::ErrorKind::OutOfMemory),
            "output fails" => streams.output = Taking::Nothing,
            "output is stuck" => streams.output = Taking::Stuck,
            _ => {
                let reads = line.strip_prefix("reads ").ok_or(CaseError::NoCase)?;
                streams.reads = Some(number(reads)? as u64);
            }
        }
        Ok(())
    }

    /// Performs what was asked before, and then asks this.
    fn ask(&mut self, words: &'a str, explains: bool) -> Result<Option<String>, CaseError> {
        let alloc = self.shelf.alloc;
        let told = self.conclude()?;
        self.asked = Some(Asked {
            words,
            explains,
            lines: String::new(alloc),
            written: Vec::new(alloc),
        });
        Ok(told)
    }

    /// Performs what was asked, where something was: how it differs, None where all is as wanted.
    pub(crate) fn conclude(&mut self) -> Result<Option<String>, CaseError> {
        match self.asked.take() {
            None => Ok(None),
            Some(asked) if asked.explains => self.all_explained(&asked),
            Some(asked) => self.performed(&asked),
        }
    }

    /// Performs words once.
    fn performed(&mut self, asked: &Asked<'a>) -> Result<Option<String>, CaseError> {
        let alloc = self.shelf.alloc;
        let before = self.shelf.written.len();
        self.shelf.calls = String::new(alloc);
        let mut came = lines_of(&mut self.shelf, asked.words, Flag::Nowhere, self.streams)?;
        came.push_str(self.shelf.calls.as_str())?;
        let written = self.shelf.written.get(before..);
        if !written.is_some_and(|written| are_alike(written, &asked.written)) {
            came.push_str("other files\n")?;
        }
        unlike(alloc, asked.words, asked.lines.as_str(), came.as_str())
    }

    /// Explains the words of each subcommand, between which `/` stands.
    fn all_explained(&mut self, asked: &Asked<'a>) -> Result<Option<String>, CaseError> {
        for words in asked.words.split('/') {
            let told = self.explained(words, asked.lines.as_str())?;
            if told.is_some() {
                return Ok(told);
            }
        }
        Ok(None)
    }

    /// Performs words as they are, and with the flag at each of its places: it has to tell these lines more, behind those that
    /// are told without it, and nothing else may differ.
    fn explained(&mut self, words: &str, lines: &str) -> Result<Option<String>, CaseError> {
        let alloc = self.shelf.alloc;
        let mut wanted = lines_of(&mut self.shelf, words, Flag::Nowhere, self.streams)?;
        wanted.push_str(lines)?;
        for flag in [Flag::Before, Flag::Behind] {
            let came = lines_of(&mut self.shelf, words, flag, self.streams)?;
            let told = unlike(alloc, words, wanted.as_str(), came.as_str())?;
            if told.is_some() {
                return Ok(told);
            }
        }
        Ok(None)
    }
}

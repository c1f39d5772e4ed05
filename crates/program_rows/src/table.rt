//! Tables of cases: texts in which `case` begins a case, and `part` lines that cases take by `use`.
use crate::error::CaseError;
use crate::stage::Stage;
use std::alloc::{AllocError, Global};
use std::io;

/// How many cases that differ are shown.
const MOST_SHOWN: u64 = 10;

/// The text of a table, and that of the parts that all tables share.
#[derive(Clone, Copy)]
pub(crate) struct Texts<'a> {
    pub own: &'a str,
    pub shared: &'a str,
}

/// Whether a line begins a case, or lines that others take.
fn is_start(line: &str) -> bool {
    line.starts_with("case ") || line.starts_with("part ")
}

/// Whether a line begins the lines that others take by this name. Behind the name may stand what they are.
fn is_part(line: &str, name: &str) -> bool {
    let mut words = line.split_whitespace();
    words.next() == Some("part") && words.next() == Some(name)
}

/// Takes the lines of the part with this name, where a text has it.
fn take_part<'a>(stage: &mut Stage<'a>, text: &'a str, name: &str) -> Result<bool, CaseError> {
    let mut inside = false;
    let mut found = false;
    for line in text.lines() {
        if is_start(line) {
            inside = is_part(line, name);
            found = found || inside;
        } else if inside {
            stage.take(line)?;
        }
    }
    Ok(found)
}

/// Takes the lines of parts, each out of the table or out of what is shared.
fn take_parts<'a>(stage: &mut Stage<'a>, texts: Texts<'a>, names: &str) -> Result<(), CaseError> {
    for name in names.split_whitespace() {
        if !take_part(stage, texts.own, name)? && !take_part(stage, texts.shared, name)? {
            return Err(CaseError::NoCase);
        }
    }
    Ok(())
}

/// Tries the case that begins at a line: how it differs, None where all is as wanted.
fn difference(alloc: Global, texts: Texts<'_>, start: usize) -> Result<Option<String>, CaseError> {
    let mut stage = Stage::new(alloc);
    for line in texts.own.lines().skip(start.saturating_add(1)) {
        if is_start(line) {
            break;
        }
        if let Some(names) = line.strip_prefix("use ") {
            take_parts(&mut stage, texts, names)?;
        } else {
            let told = stage.take(line)?;
            if told.is_some() {
                return Ok(told);
            }
        }
    }
    stage.conclude()
}

/// The same, with a report on a case that is not tried too.
fn told(alloc: Global, texts: Texts<'_>, start: usize) -> Result<Option<String>, AllocError> {
    match difference(alloc, texts, start) {
        Ok(difference) => Ok(difference),
        Err(CaseError::NoMemory) => Err(AllocError),
        Err(error) => Ok(Some(error.to_string(alloc)?)),
    }
}

/// Tries each case of a table, and prints the first that differ, by their lines, and how many came out as expected.
pub(crate) fn run_table<R: AllocGlobal + Print>(
    rt: &R,
    name: &str,
    texts: Texts<'_>,
) -> io::Result<()> {
    let mut cases = 0u64;
    let mut differing = 0u64;
    for (index, line) in texts.own.lines().enumerate() {
        if !line.starts_with("case ") {
            continue;
        }
        cases = cases.saturating_add(1);
        if let Some(difference) = told(rt.alloc(), texts, index)? {
            differing = differing.saturating_add(1);
            if differing <= MOST_SHOWN {
                println!(rt;
                    "{name}.txt:{}: {line}: {difference}",
                    index.saturating_add(1)
                )?;
            }
        }
    }
    println!(rt;
        "{name}: {} of {cases} as expected",
        cases.saturating_sub(differing)
    )
}

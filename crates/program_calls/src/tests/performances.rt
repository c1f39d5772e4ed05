//! What comes of words of a command line.
use crate::tests::assertions::given;
use command_line::perform;
use commands::{Counted, Over, Status, Store};
use std::alloc::Global;
use std::process::Abort;

/// How a performance ended, and what standard output and standard error have.
#[derive(Drop)]
pub(crate) struct Outcome {
    pub status: Status,
    pub output: Vec<u8>,
    pub errors: Vec<u8>,
}

/// The words of a line.
fn words_of<'a>(rt: impl Abort + Copy, alloc: Global, line: &'a str) -> Vec<&'a str> {
    let mut words = Vec::new(alloc);
    for word in line.split_whitespace() {
        given!(rt; words.push(word));
    }
    words
}

/// What comes of the words of a line over a store and an input.
pub(crate) fn performed<S: Store>(
    rt: impl Abort + Copy,
    alloc: Global,
    line: &str,
    store: &mut S,
    input: &[u8],
) -> Outcome {
    let words = words_of(rt, alloc, line);
    performed_words(alloc, &words, store, input)
}

/// What comes of words over a store and an input.
pub(crate) fn performed_words<'a, S: Store>(
    alloc: Global,
    words: &'a [&'a str],
    store: &mut S,
    input: &[u8],
) -> Outcome {
    let mut input = Counted::new(input);
    let (mut output, mut errors) = (Over::new(Vec::new(alloc)), Over::new(Vec::new(alloc)));
    let ended = perform(alloc, words, store, &mut input, &mut output, &mut errors);
    Outcome {
        status: ended.status(),
        output: output.into_inner(),
        errors: errors.into_inner(),
    }
}

//! `rvvbox` runs RISC-V vector kernels in a sandbox. `rvvbox check IMAGE` checks an image against its certificate. `rvvbox
//! run JOB` runs the image that a job file names on the job's buffers, if it is accepted: such a run ends within its bound,
//! without a fault. `rvvbox try JOB` runs any image, with every test at each step. `rvvbox make IMAGE JOB OUT` makes the
//! certificate of a plain loop, and writes the image with it. `rvvbox mon JOB` answers commands on the run of such an image as
//! `run` takes. Each prints what came of it.
#![tactic(auto)]

ghost use Rattle.std.specs.Prelude.{◌≡◌};

use command_line::{Ended, end_without_words, perform};
use commands::{Counted, Disk, Over};
use std::alloc::Global;
use std::io::{IsTerminal, Read, Write};
use std::{env, io};

/// The commands of `mon`, in short.
const COMMANDS: &str = "b A  d A  s N  c  x  v N  csr  m A N  l A N  q\n";

/// Standard input. Where it is a terminal, and standard error too, a prompt asks for each line, and the commands stand before
/// the first.
#[derive(Drop)]
struct Prompting<R, E> {
    reader: R,
    errors: E,
    asks: bool,
    begun: bool,
}

impl<R, E: Write> Prompting<R, E> {
    /// Asks for a line, after the commands where it is the first. What standard error does not take changes nothing.
    fn ask(&mut self)
        ensures { self.new.reader ≡ self.old.reader }
    {
        if !self.begun {
            self.begun = true;
            let _told = self.errors.write_all(COMMANDS.as_bytes());
        }
        let _asked = self.errors.write_all(b"> ".as_slice());
        let _shown = self.errors.flush();
    }
}

impl<R: Read, E: Write> Read for Prompting<R, E> {
    ghost remaining = { λ p. R.remaining p.reader };

    fn read(&mut self, buf: &mut [u8]) -> io::Result<usize> {
        if self.asks {
            self.ask();
        }
        self.reader.read(buf)
    }
}

fn main(rt: HostRuntime) -> Ended {
    match answer(&rt) {
        Ok(ended) => ended,
        Err(error) => end_without_words(error, &mut Over::new(rt.stderr())),
    }
}

/// Performs the command line that the system passed on, which has to be UTF-8.
fn answer(rt: &HostRuntime) -> io::Result<Ended> {
    let alloc = rt.alloc();
    let texts: Vec<String> = env::args(rt)?.collect(alloc)?;
    let mut words: Vec<&str> = Vec::with_capacity(alloc, texts.len())?;
    for text in &texts {
        words.push(text.as_str())?;
    }
    let input = Prompting {
        reader: rt.reader(),
        errors: rt.stderr(),
        asks: rt.stdin().is_terminal() && rt.stderr().is_terminal(),
        begun: false,
    };
    Ok(perform(
        alloc,
        words.as_slice(),
        &mut Disk::new(rt),
        &mut Counted::new(input),
        &mut Over::new(rt.stdout()),
        &mut Over::new(rt.stderr()),
    ))
}

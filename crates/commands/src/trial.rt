//! What comes of a run: how it ended, the words for that, and which status the program has then.
ghost use Rattle.std.specs.Prelude.{◌≡◌, ◌++◌, IfErr, IfOk, IfSome, MatchResult, None, OnOk};
ghost use Rattle.std.specs.Prelude.{false, map};
ghost use Rattle.job_file.specs.Needs.{run_param_lent};
ghost use Rattle.rv_listing.specs.Sinks.{IsPassedOn, Told};
ghost use Rattle.endings.specs.Did.{did_of};
ghost use Rattle.file_store.specs.Store.{files_of};
ghost use Rattle.endings.specs.Halt.{stop_of};
ghost use Rattle.endings.specs.Stands.{stand_line, stand_text};
ghost use Rattle.endings.specs.Streams.{stream};
ghost use Rattle.commands.specs.Changes.{change};
ghost use Rattle.commands.specs.Trial.{IsFinished, StopsFinishing, end_line, line_of, shown_of};
ghost use Rattle.endings.specs.declared.stop.Stop.TheVariants.{Memory};

use crate::files::write_outs;
use crate::registers::put_state;
use elf_image::Image;
use endings::{Did, End, Halt, Stand, Stop, stand_of, stopped_at};
use file_store::Store;
use job_file::RunParam;
use region_mem::{Args, Fault};
use rv_listing::{Failed, Over, Piece, Sink, Stream, print, put_all};
use sandbox_run::{Final, Registers};
use std::alloc::Global;

/// What came of a run: how it ended, after how many steps, and the arguments and the registers as they then stood.
/// A vector register has `vlenb` bytes.
#[derive(Drop)]
pub struct Trial {
    end: End,
    steps: u64,
    pub args: Args,
    registers: Registers,
    vlenb: usize,
}

/// The run that ended so, in its last state.
pub fn trial_at<const VLENB: usize>(end: End, last: Final<VLENB>) -> Trial
    ensures { result ≡ record {
      end = end;
      steps = last.entry.steps;
      args = last.entry.args;
      registers = last.entry.registers;
      vlenb = VLENB;
    } }
{
    let Final {
        steps,
        registers,
        args,
        ..
    } = last;
    Trial {
        end,
        steps,
        args,
        registers,
        vlenb: VLENB,
    }
}

impl Trial {
    /// A run that ended.
    pub fn ended(steps: u64, registers: Registers, vlenb: usize, args: Args) -> Trial
        ensures { result ≡ record {
          end = End.Ended;
          steps = steps;
          args = args;
          registers = registers;
          vlenb = vlenb;
        } }
    {
        Trial {
            end: End::Ended,
            steps,
            args,
            registers,
            vlenb,
        }
    }

    /// The lines that show the registers as `mon` does, where they are `asked` for.
    pub fn shown<'a>(&self, alloc: Global, asked: bool) -> Result<Vec<u8>, Halt<'a>>
        ensures shown { IfOk result (λ text. text.items ≡ shown_of asked self.now) }
        ensures memory { IfErr result (λ halt. stop_of halt ≡ Memory) }
    {
        if !asked {
            return Ok(Vec::new(alloc));
        }
        let mut text = Over::new(Vec::new(alloc));
        match put_state(&mut text, &self.registers, self.vlenb) {
            Ok(()) => Ok(text.into_inner()),
            Err(_) => Err(Halt::Plain(Stop::Memory)),
        }
    }

    /// Tells how the run ended.
    fn put_line<O: Sink>(&self, output: &mut O) -> Result<(), Failed>
        ensures { Told result (O.contents output.old) (O.contents output.new)
            (O.failures output.old) (O.failures output.new) (line_of self.now) }
    {
        let steps = Piece::Number(self.steps);
        match self.end {
            End::Ended => put_all(
                output,
                &[Piece::Text("ended: "), steps, Piece::Text(" steps\n")],
            ),
            End::Trapped(fault) => put_trap(fault, self.steps, output),
            End::OutOfSteps => {
                put_all(
                    output,
                    &[Piece::Text("out of steps: "), steps, Piece::Text("\n")],
                )
            }
        }
    }

    /// Prints how the run ended, and behind it these lines.
    fn print<O: Stream>(&self, shown: &[u8], output: &mut O) -> Result<(), Failed>
        ensures told { Told result (O.contents output.old) (O.contents output.new)
            (O.failures output.old) (O.failures output.new) (line_of self.now ++ shown.now) }
        ensures passed { OnOk result (IsPassedOn (O.passed output.new) (O.contents output.new)) }
    {
        self.put_line(output)?;
        print(output, shown)
    }

    /// Where a run of the image stands as it ended, if that is `asked`, and memory suffices to tell it. Its last step was
    /// done at `last`.
    pub fn stand(
        &self,
        alloc: Global,
        asked: bool,
        image: &Image,
        last: Option<u32>,
    ) -> Option<Stand>
        ensures stand { IfSome result (λ stand.
            stand_text stand ≡ stand_line image.now last self.now.registers self.now.end) }
        ensures unasked { asked ≡ false → result ≡ None }
    {
        if asked {
            stand_of(alloc, image, last, &self.registers, self.end)
        } else {
            None
        }
    }

    /// What was done where this was printed, of a run that stands there.
    fn did(&self, stand: Option<Stand>) -> Did
        ensures { result ≡ did_of self.now.end stand }
    {
        match self.end {
            End::Ended => Did::Done,
            End::Trapped(fault) => stopped_at(Some(fault), stand),
            End::OutOfSteps => stopped_at(None, stand),
        }
    }
}

/// Tells that a run met a fault after these steps.
fn put_trap<O: Sink>(fault: Fault, steps: u64, output: &mut O) -> Result<(), Failed>
    ensures { Told result (O.contents output.old) (O.contents output.new)
        (O.failures output.old) (O.failures output.new) (end_line (End.Trapped fault) steps) }
{
    put_all(
        output,
        &[
            Piece::Text("trapped: "),
            Piece::Text(fault.name()),
            Piece::Text(" "),
            Piece::Word(fault.number()),
            Piece::Text(" after "),
            Piece::Number(steps),
            Piece::Text(" steps\n"),
        ],
    )
}

/// Writes the out files of a run by place, and then prints how it ended, and behind it its registers, where they are
/// `asked` for. Want of memory for these comes before any file is written. The run stands there.
pub fn finish<'a, S: Store, O: Stream>(
    alloc: Global,
    params: &[RunParam<&'a str>; 8],
    trial: &Trial,
    stand: Option<Stand>,
    asked: bool,
    store: &mut S,
    output: &mut O,
) -> Result<Did, Halt<'a>>
    ensures done { let c = (change (S.held store.old) (S.held store.new)
        (stream (O.contents output.old) (O.failures output.old))
        (stream (O.contents output.new) (O.failures output.new))) in
        MatchResult result
        (IsFinished c asked (map run_param_lent params.now) trial.now stand)
        (StopsFinishing (files_of c.was) c asked (map run_param_lent params.now) trial.now) }
    ensures passed { OnOk result (IsPassedOn (O.passed output.new) (O.contents output.new)) }
{
    let shown = trial.shown(alloc, asked)?;
    write_outs(alloc, params, &trial.args.places, store)?;
    match trial.print(shown.as_slice(), output) {
        Ok(()) => Ok(trial.did(stand)),
        Err(_) => Err(Halt::Plain(Stop::Output)),
    }
}

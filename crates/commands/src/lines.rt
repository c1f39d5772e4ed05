//! Lines of the input, each answered before the next.
ghost use Rattle.std.specs.Prelude.{◌≡◌, ◌≤◌, ◌+◌, ◌++◌, ◌∷◌, [], ℕ, List, IfErr, IfOk, OnOk};
ghost use Rattle.monitor.specs.Commands.{order_of};
ghost use Rattle.rv_listing.specs.Sinks.{IsPassedOn};
ghost use Rattle.endings.specs.Halt.{stop_of};
ghost use Rattle.commands.specs.Mons.{IsOfInput, IsUnanswered};
ghost use Rattle.endings.specs.Streams.{Prints, stream};
ghost use Rattle.commands.specs.Changes.{exchange};
ghost use Rattle.file_store.specs.Sources.{source};
ghost use Rattle.commands.specs.Talks.{GoesOver, IsAnswered, IsBroken, IsCutOff, IsDone, IsLine};
ghost use Rattle.commands.specs.Talks.{Talks, answer_of, error_line, error_name, flow_after, watch};
ghost use Rattle.endings.specs.declared.stop.Stop.TheVariants.{Memory};

use endings::{Halt, Stop, stop_at};
use file_store::{Source, StoreError};
use monitor::{Flow, MonError, Monitor};
use rv_listing::{Over, Piece, Stream, print, put_all};
use std::alloc::Global;
use std::io;
use std::io::ErrorKind;

/// The name of an error of a command.
fn error_name(error: MonError) -> &'static str
    ensures { result.now ≡ error_name error }
{
    match error {
        MonError::Unknown => "Unknown",
        MonError::BadNumber => "BadNumber",
        MonError::TooManyBreakpoints => "TooManyBreakpoints",
        MonError::NotThere => "NotThere",
        MonError::NoBytes => "NoBytes",
        MonError::Write => "Write",
    }
}

/// The line that tells the error of a command.
fn error_line<'a>(alloc: Global, error: MonError) -> Result<Vec<u8>, Halt<'a>>
    ensures text { IfOk result (λ text. text.items ≡ error_line error) }
    ensures memory { IfErr result (λ halt. stop_of halt ≡ Memory) }
{
    let mut text = Over::new(Vec::new(alloc));
    let name = Piece::Text(error_name(error));
    match put_all(
        &mut text,
        &[Piece::Text("error: "), name, Piece::Text("\n")],
    ) {
        Ok(()) => Ok(text.into_inner()),
        Err(_) => Err(Halt::Plain(Stop::Memory)),
    }
}

/// Does what a line asks for: whether lines go on, and the answer to it.
fn carried<'a, const VLENB: usize>(
    alloc: Global,
    monitor: &mut Monitor<'_, VLENB>,
    line: &str,
) -> Result<(Flow, Vec<u8>), Halt<'a>>
    ensures same_reference { monitor.new.session.ghost_name ≡ monitor.old.session.ghost_name }
    ensures first { monitor.new.session.now.first ≡ monitor.old.session.now.first }
    ensures told { IfOk result (λ r.
        let order = order_of line.now monitor.old.breakpoints.items monitor.old.session.now in
        (r.0 ≡ flow_after order) × (r.1.items ≡ answer_of VLENB order monitor.new.session.now)) }
    ensures done { IfOk result (λ r.
        IsDone VLENB (order_of line.now monitor.old.breakpoints.items monitor.old.session.now)
        (watch monitor.old.breakpoints.items monitor.old.session.now)
        (watch monitor.new.breakpoints.items monitor.new.session.now)) }
    ensures memory { IfErr result (λ halt. stop_of halt ≡ Memory) }
{
    let mut text = Over::new(Vec::new(alloc));
    match monitor.command(line, &mut text) {
        Ok(flow) => Ok((flow, text.into_inner())),
        Err(MonError::Write) => Err(Halt::Plain(Stop::Memory)),
        Err(error) => Ok((Flow::Go, error_line(alloc, error)?)),
    }
}

/// What a line comes to, which is no command where it is not UTF-8: whether lines go on, and the answer to it.
fn answered<'a, const VLENB: usize>(
    alloc: Global,
    monitor: &mut Monitor<'_, VLENB>,
    line: &[u8],
) -> Result<(Flow, Vec<u8>), Halt<'a>>
    ensures same_reference { monitor.new.session.ghost_name ≡ monitor.old.session.ghost_name }
    ensures first { monitor.new.session.now.first ≡ monitor.old.session.now.first }
    ensures answered { IfOk result (λ r. IsAnswered VLENB line.now
        (watch monitor.old.breakpoints.items monitor.old.session.now)
        (watch monitor.new.breakpoints.items monitor.new.session.now)
        r.1.items r.0) }
    ensures memory { IfErr result (λ halt. stop_of halt ≡ Memory) }
{
    match std::str::from_utf8(line) {
        Ok(line) => carried(alloc, monitor, line),
        Err(_) => Ok((Flow::Go, error_line(alloc, MonError::Unknown)?)),
    }
}

/// Answers a line, and tells whether lines go on.
fn answer<'a, const VLENB: usize, O: Stream>(
    alloc: Global,
    monitor: &mut Monitor<'_, VLENB>,
    line: &[u8],
    output: &mut O,
) -> Result<Flow, Halt<'a>>
    ensures same_reference { monitor.new.session.ghost_name ≡ monitor.old.session.ghost_name }
    ensures first { monitor.new.session.now.first ≡ monitor.old.session.now.first }
    ensures answered { IfOk result (λ f. (text : List ℕ)
        × Prints (stream (O.contents output.old) (O.failures output.old))
        (stream (O.contents output.new) (O.failures output.new)) text
        × IsAnswered VLENB line.now
        (watch monitor.old.breakpoints.items monitor.old.session.now)
        (watch monitor.new.breakpoints.items monitor.new.session.now) text f) }
    ensures passed { OnOk result (IsPassedOn (O.passed output.new) (O.contents output.new)) }
    ensures unanswered { IfErr result (λ halt. IsCutOff VLENB line.now (10 ∷ [])
        (stream (O.contents output.old) (O.failures output.old))
        (stream (O.contents output.new) (O.failures output.new))
        (watch monitor.old.breakpoints.items monitor.old.session.now) (stop_of halt)) }
{
    let (flow, text) = answered(alloc, monitor, line)?;
    match print(output, text.as_slice()) {
        Ok(()) => Ok(flow),
        Err(_) => Err(Halt::Plain(Stop::Output)),
    }
}

/// Takes one more byte of a line, or its end, at which the line is answered.
fn answer_byte<'a, const VLENB: usize, O: Stream>(
    alloc: Global,
    monitor: &mut Monitor<'_, VLENB>,
    line: &mut Vec<u8>,
    byte: u8,
    output: &mut O,
) -> Result<Flow, Halt<'a>>
    ensures same_reference { monitor.new.session.ghost_name ≡ monitor.old.session.ghost_name }
    ensures first { monitor.new.session.now.first ≡ monitor.old.session.now.first }
    ensures answered { IfOk result (λ f. IsLine line.old.items → GoesOver VLENB
        (line.old.items ++ (byte ∷ [])) line.new.items
        (stream (O.contents output.old) (O.failures output.old))
        (stream (O.contents output.new) (O.failures output.new))
        (watch monitor.old.breakpoints.items monitor.old.session.now)
        (watch monitor.new.breakpoints.items monitor.new.session.now) f) }
    ensures passed { OnOk result (IsPassedOn (O.passed output.old) (O.contents output.old)
        → IsPassedOn (O.passed output.new) (O.contents output.new)) }
    ensures unanswered { IfErr result (λ halt. IsLine line.old.items → IsBroken VLENB
        (line.old.items ++ (byte ∷ []))
        (stream (O.contents output.old) (O.failures output.old))
        (stream (O.contents output.new) (O.failures output.new))
        (watch monitor.old.breakpoints.items monitor.old.session.now) (stop_of halt)) }
{
    if byte != b'\n' {
        return match line.push(byte) {
            Ok(()) => Ok(Flow::Go),
            Err(_) => Err(Halt::Plain(Stop::Memory)),
        };
    }
    let flow = answer(alloc, monitor, line.as_slice(), output)?;
    line.clear();
    Ok(flow)
}

/// Answers each line that ends in these bytes. `line` holds the beginning of the first line, and then that of the next.
fn answer_bytes<'a, const VLENB: usize, O: Stream>(
    alloc: Global,
    monitor: &mut Monitor<'_, VLENB>,
    line: &mut Vec<u8>,
    bytes: &[u8],
    output: &mut O,
) -> Result<Flow, Halt<'a>>
    ensures same_reference { monitor.new.session.ghost_name ≡ monitor.old.session.ghost_name }
    ensures first { monitor.new.session.now.first ≡ monitor.old.session.now.first }
    ensures answered { IfOk result (λ f. IsLine line.old.items → GoesOver VLENB
        (line.old.items ++ bytes.now) line.new.items
        (stream (O.contents output.old) (O.failures output.old))
        (stream (O.contents output.new) (O.failures output.new))
        (watch monitor.old.breakpoints.items monitor.old.session.now)
        (watch monitor.new.breakpoints.items monitor.new.session.now) f) }
    ensures passed { OnOk result (IsPassedOn (O.passed output.old) (O.contents output.old)
        → IsPassedOn (O.passed output.new) (O.contents output.new)) }
    ensures unanswered { IfErr result (λ halt. IsLine line.old.items → IsBroken VLENB
        (line.old.items ++ bytes.now)
        (stream (O.contents output.old) (O.failures output.old))
        (stream (O.contents output.new) (O.failures output.new))
        (watch monitor.old.breakpoints.items monitor.old.session.now) (stop_of halt)) }
{
    for byte in bytes {
        match answer_byte(alloc, monitor, line, *byte, output)? {
            Flow::Go => {}
            Flow::Quit => return Ok(Flow::Quit),
        }
    }
    Ok(Flow::Go)
}

/// Why no line is read where the input fails, with what the system says of it, unless memory ran out.
fn unread<'a>(alloc: Global, error: io::Error) -> Halt<'a>
    ensures { IsOfInput (stop_of result) }
{
    let kind = error.kind();
    stop_at(alloc, StoreError::from(error), Some(kind), "-")
}

/// Answers the lines of the input, up to the command `q` or the end, in at most `reads` reads. The last line needs no end.
/// Where the input fails, the reason has what the system says of it. Of too many reads it says nothing.
pub fn answer_lines<'a, const VLENB: usize, I: Source, O: Stream>(
    alloc: Global,
    monitor: &mut Monitor<'_, VLENB>,
    input: &mut I,
    output: &mut O,
    reads: u64,
) -> Result<(), Halt<'a>>
    ensures same_reference { monitor.new.session.ghost_name ≡ monitor.old.session.ghost_name }
    ensures first { monitor.new.session.now.first ≡ monitor.old.session.now.first }
    ensures answered { OnOk result (Talks VLENB
        (I.remaining input.old) (I.remaining input.new)
        (stream (O.contents output.old) (O.failures output.old))
        (stream (O.contents output.new) (O.failures output.new))
        (watch monitor.old.breakpoints.items monitor.old.session.now)
        (watch monitor.new.breakpoints.items monitor.new.session.now)) }
    ensures few { I.reads input.new ≤ I.reads input.old + reads }
    ensures heard { OnOk result (I.failures input.new ≡ I.failures input.old) }
    ensures passed { OnOk result (IsPassedOn (O.passed output.old) (O.contents output.old)
        → IsPassedOn (O.passed output.new) (O.contents output.new)) }
    ensures unanswered { IfErr result (λ halt. IsUnanswered reads VLENB
        (exchange
        (source (I.remaining input.old) (I.reads input.old) (I.failures input.old))
        (source (I.remaining input.new) (I.reads input.new) (I.failures input.new))
        (stream (O.contents output.old) (O.failures output.old))
        (stream (O.contents output.new) (O.failures output.new)))
        (watch monitor.old.breakpoints.items monitor.old.session.now) (stop_of halt)) }
{
    let mut line = Vec::new(alloc);
    let mut chunk = [0u8; 4096];
    for _ in 0..reads {
        match input.read(&mut chunk) {
            Ok(0) if line.is_empty() => return Ok(()),
            Ok(0) => {
                answer(alloc, monitor, line.as_slice(), output)?;
                return Ok(());
            }
            Ok(n) => match answer_bytes(alloc, monitor, &mut line, &chunk[..n], output)? {
                Flow::Go => {}
                Flow::Quit => return Ok(()),
            },
            Err(error) if error.kind() == ErrorKind::Interrupted => {}
            Err(error) => return Err(unread(alloc, error)),
        }
    }
    Err(Halt::Plain(Stop::File("-")))
}

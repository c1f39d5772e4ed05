//! `check`: an image against its certificate, and the bound of its runs.
ghost use Rattle.std.specs.Prelude.{◌≡◌, MatchResult, OnOk};
ghost use Rattle.rv_listing.specs.Sinks.{IsPassedOn, Told};
ghost use Rattle.cert_note.specs.Values.{budget_text, product_text};
ghost use Rattle.commands.specs.Checks.{Checks, StopsCheck, bound_line, second_text};
ghost use Rattle.endings.specs.Ending.{Ends, PassesOn};
ghost use Rattle.file_store.specs.Store.{files_of};
ghost use Rattle.endings.specs.Halt.{stop_of};
ghost use Rattle.endings.specs.Streams.{IsCut, Prints, stream};
ghost use Rattle.endings.specs.declared.stop.Stop.TheVariants.{Output};
ghost use Rattle.commands.specs.Changes.{change};

use crate::files::read_image;
use cert_note::Budget;
use endings::{Did, Halt, Status, Stop, accept, ended};
use file_store::Store;
use rv_listing::{Failed, Piece, Sink, Stream, put_all};
use std::alloc::Global;

/// `check`: checks the image at `path` against its certificate, at the certificate's length of vector registers, and prints
/// the bound that the certificate states.
///
/// In this order, up to the first that is refused or fails, which is reported: the image file, the image, the certificate, the
/// check, the printed line. Where it is to `explain`, the explanation is printed behind the reason's line.
pub fn check_image<S: Store, O: Stream, E: Sink>(
    alloc: Global,
    path: &str,
    explain: bool,
    store: &mut S,
    output: &mut O,
    errors: &mut E,
) -> Status
    ensures ends { let c = (change (S.held store.old) (S.held store.new)
        (stream (O.contents output.old) (O.failures output.old))
        (stream (O.contents output.new) (O.failures output.new))) in
        Ends explain (Checks (files_of c.was) path.now c) (StopsCheck (files_of c.was) c path.now)
        (stream (E.contents errors.old) (E.failures errors.old))
        (stream (E.contents errors.new) (E.failures errors.new)) result }
    ensures passed { PassesOn result (O.passed output.new) (O.contents output.new) }
{
    let done = check_at(alloc, path, store, output);
    ended(alloc, done, explain, errors)
}

fn check_at<'a, S: Store, O: Stream>(
    alloc: Global,
    path: &'a str,
    store: &mut S,
    output: &mut O,
) -> Result<Did, Halt<'a>>
    ensures done { let c = (change (S.held store.old) (S.held store.new)
        (stream (O.contents output.old) (O.failures output.old))
        (stream (O.contents output.new) (O.failures output.new))) in
        MatchResult result (Checks (files_of c.was) path.entry.now c)
        (StopsCheck (files_of c.was) c path.entry.now) }
    ensures passed { OnOk result (IsPassedOn (O.passed output.new) (O.contents output.new)) }
{
    let image = read_image(alloc, path, store)?;
    let budget = accept(alloc, image, None)?.budget();
    print_bound(&budget, output)
}

/// Tells how many instructions a run takes for each one in a register's value.
fn put_product<O: Sink>(factor: u32, register: u8, output: &mut O) -> Result<(), Failed>
    ensures { Told result (O.contents output.old) (O.contents output.new)
        (O.failures output.old) (O.failures output.new) (product_text factor register) }
{
    put_all(
        output,
        &[
            Piece::Text(" + "),
            Piece::Number(factor as u64),
            Piece::Text(" * x"),
            Piece::Number(register as u64),
        ],
    )
}

/// Tells the second register of a budget, where there is one.
fn put_second<O: Sink>(budget: &Budget, output: &mut O) -> Result<(), Failed>
    ensures { Told result (O.contents output.old) (O.contents output.new)
        (O.failures output.old) (O.failures output.new) (second_text budget.now) }
{
    if budget.second_factor == 0 {
        put_all(output, &[])
    } else {
        put_product(budget.second_factor, budget.second_register, output)
    }
}

/// Tells a budget, as its `Display` does.
fn put_budget<O: Sink>(budget: &Budget, output: &mut O) -> Result<(), Failed>
    ensures { Told result (O.contents output.old) (O.contents output.new)
        (O.failures output.old) (O.failures output.new) (budget_text budget.now) }
{
    put_all(output, &[Piece::Number(budget.constant as u64)])?;
    put_product(budget.factor, budget.register, output)?;
    put_second(budget, output)
}

/// Tells what an accepted image's runs take at most.
fn put_bound<O: Sink>(budget: &Budget, output: &mut O) -> Result<(), Failed>
    ensures { Told result (O.contents output.old) (O.contents output.new)
        (O.failures output.old) (O.failures output.new) (bound_line budget.now) }
{
    put_all(output, &[Piece::Text("accepted: bound ")])?;
    put_budget(budget, output)?;
    put_all(output, &[Piece::Text("\n")])
}

/// The same, and nothing is kept back.
fn pass_bound<O: Stream>(budget: &Budget, output: &mut O) -> Result<(), Failed>
    ensures told { Told result (O.contents output.old) (O.contents output.new)
        (O.failures output.old) (O.failures output.new) (bound_line budget.now) }
    ensures passed { OnOk result (IsPassedOn (O.passed output.new) (O.contents output.new)) }
{
    put_bound(budget, output)?;
    output.pass_on()
}

/// Prints what an accepted image's runs take at most. It is the last thing that is done.
pub fn print_bound<'a, O: Stream>(budget: &Budget, output: &mut O) -> Result<Did, Halt<'a>>
    ensures told { let old = (stream (O.contents output.old) (O.failures output.old)) in
        let new = (stream (O.contents output.new) (O.failures output.new)) in
        MatchResult result
        (λ did. Prints old new (bound_line budget.now) × (did ≡ Did.Done))
        (λ why. (stop_of why ≡ Output) × IsCut old new (bound_line budget.now)) }
    ensures passed { OnOk result (IsPassedOn (O.passed output.new) (O.contents output.new)) }
{
    match pass_bound(budget, output) {
        Ok(()) => Ok(Did::Done),
        Err(_) => Err(Halt::Plain(Stop::Output)),
    }
}

//! Laws of memory, for those who stand on its definitions: functions that do nothing, with the law as contract.
ghost use Rattle.std.specs.List.{AllByRecursion};
ghost use Rattle.region_mem.specs.Laws.{BringsBytes, StartsInOrder, StartsInside};
ghost use Rattle.region_mem.specs.Laws.{GivesArgumentsBack, StoresKeepExtents};
ghost use Rattle.region_mem.specs.Laws.{StoresKeepUnwritable, FetchesNothingAbove, StartsWithCode};
ghost use Rattle.region_mem.specs.Laws.{StartsCodeSafe, StoresKeepCode, StartsWithBytes};
ghost use Rattle.region_mem.specs.Laws.{StoresKeepBytes, NumbersFit, LoadsFit, WindowsToRead};
ghost use Rattle.region_mem.specs.Laws.{LoadsInWindows, WindowsToWrite, StoresInWindows};
ghost use Rattle.region_mem.specs.Laws.{StoresFillWindows, LentWindowsAreWritten};
ghost use Rattle.region_mem.specs.StartLaws.{StartsWithNothingElse};

use crate::arguments::{Arg, Args, Bytes};
use crate::memory::Regions;
use std::alloc::Allocator;

/// The regions that a run starts with stand in the order of their first addresses, and no address lies in two of them.
pub fn starts_in_order()
    ensures { StartsInOrder }
{}

/// No region that a run starts with passes the last address.
pub fn starts_inside()
    ensures { StartsInside }
{}

/// The regions that a run starts with are those of the image's segments, the stack and the buffers, each once. There is
/// no other.
pub fn starts_with_nothing_else()
    ensures { StartsWithNothingElse }
{}

/// The arguments that a run starts with come back as they were, where nothing was stored.
pub fn gives_arguments_back()
    ensures { GivesArgumentsBack }
{}

/// A store moves no region, and changes neither its rights nor what was passed.
pub fn stores_keep_extents()
    ensures { StoresKeepExtents }
{}

/// A store changes no byte that may not be written.
pub fn stores_keep_unwritable()
    ensures { StoresKeepUnwritable }
{}

/// No word is fetched from 0xC000_0000 on, at the start of a run or after any stores. So the end of a run, which lies
/// there, is no code.
pub fn fetches_nothing_above()
    ensures { FetchesNothingAbove }
{}

/// A run starts with the code of its image in memory: each word that the image has at an address is fetched there.
pub fn starts_with_code()
    ensures { StartsWithCode }
{}

/// At the start of a run no byte that may be fetched may be written.
pub fn starts_code_safe()
    ensures { StartsCodeSafe }
{}

/// Where no byte that may be fetched may be written a store keeps it so, and each fetch gives what it gave before.
pub fn stores_keep_code()
    ensures { StoresKeepCode }
{}

/// The bytes of the memory that a run starts with are below 256, where those of each buffer are.
pub fn starts_with_bytes()
    ensures { StartsWithBytes }
{}

fn brings_bytes<A: Allocator>(arg: &Arg<Bytes<A>>)
    ensures { BringsBytes arg.now }
{
    match arg {
        Arg::Buffer(bytes) => bytes.are_bytes(),
        Arg::None | Arg::Scalar(_) => (),
    }
}

/// The bytes of each buffer that a caller passes are below 256.
pub fn args_bring_bytes<A: Allocator>(args: &Args<Bytes<A>>)
    ensures { AllByRecursion BringsBytes args.now.places }
{
    let [a, b, c, d, e, f, g, h] = &args.places;
    brings_bytes(a);
    brings_bytes(b);
    brings_bytes(c);
    brings_bytes(d);
    brings_bytes(e);
    brings_bytes(f);
    brings_bytes(g);
    brings_bytes(h);
}

/// A store leaves bytes below 256 where they were so.
pub fn stores_keep_bytes()
    ensures { StoresKeepBytes }
{}

/// Where a memory's bytes are below 256 the number in n of them is below 256 to the n, and what a load gives below
/// 2 to the 32.
pub fn loads_fit()
    ensures numbers { NumbersFit }
    ensures loads { LoadsFit }
{}

/// A load of bytes that lie in a window is permitted, and gives the number of these bytes. The window has as many bytes
/// as were asked for, and ends at the last address or before it.
pub fn loads_in_windows<A: Allocator>(memory: &Regions<A>)
    ensures bounds { WindowsToRead memory.now }
    ensures loads { LoadsInWindows memory.now }
{
    memory.is_placed();
}

/// A store of bytes that lie in a window to write is permitted, and values that are stored one after another fill it
/// with their bytes. The window ends at the last address or before it.
pub fn stores_in_windows<A: Allocator>(memory: &Regions<A>)
    ensures bounds { WindowsToWrite memory.now }
    ensures permitted { StoresInWindows memory.now }
    ensures filled { StoresFillWindows memory.now }
{
    memory.is_placed();
}

/// What was written to a window that was lent stands there, and nothing else has changed.
pub fn lent_windows_are_written<A: Allocator>(memory: &Regions<A>)
    ensures { LentWindowsAreWritten memory.now }
{
    memory.is_placed();
}

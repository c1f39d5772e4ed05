//! The registers that a run left, told as the monitor tells them.
ghost use Rattle.std.specs.Io.KnownBytes.{Appends};
ghost use Rattle.std.specs.Prelude.{OnOk};
ghost use Rattle.commands.specs.Trial.{state_text};

use monitor::{put_csrs, put_registers};
use rv_listing::{Failed, Sink};
use sandbox_run::Registers;

/// Tells the integer registers, and then pc and the state of the vector unit.
pub fn put_state<S: Sink>(out: &mut S, registers: &Registers, vlenb: usize) -> Result<(), Failed>
    ensures { OnOk result
        (Appends (S.contents out.old) (S.contents out.new) (state_text registers.now vlenb)) }
{
    put_registers(out, &registers.x)?;
    put_csrs(out, registers, vlenb)
}

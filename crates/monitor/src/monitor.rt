//! Commands on a run, carried out and told.
ghost use Rattle.std.specs.Prelude.{◌≡◌, [], None, Some, IfErr, IfOk, IfSome, OnOk};
ghost use Rattle.monitor.specs.Commands.{Answers, Carries, IsRefused, fault_in, order_of, text_of};
ghost use Rattle.rv_listing.specs.Sinks.{Told};
ghost use Rattle.sandbox_run.specs.Stops.{IsStop};

use crate::breakpoints::{delete, set};
use crate::commands::{Command, Flow, MonError};
use crate::moves::{go_on, step_at_most};
use crate::texts::{put_break, put_csrs, put_gone, put_registers, put_stop, put_vector};
use crate::views::View;
use crate::words::parse;
use arrayvec::ArrayVec;
use rv_listing::{Failed, Sink, put_all};
use sandbox_run::Session;

/// A run, and the addresses at which it stops.
#[derive(Drop)]
pub struct Monitor<'a, const VLENB: usize> {
    pub(crate) session: &'a mut Session<VLENB>,
    pub(crate) breakpoints: ArrayVec<u32, 16>,
}

impl<'a, const VLENB: usize> Monitor<'a, VLENB> {
    /// A monitor on a run, without breakpoints.
    pub fn new(session: &'a mut Session<VLENB>) -> Monitor<'a, VLENB>
        ensures same_reference { result.session.ghost_name ≡ session.entry.ghost_name }
        ensures run { result.session.now ≡ session.old }
        ensures none { result.breakpoints.items ≡ [] }
    {
        Monitor {
            session,
            breakpoints: ArrayVec::new(),
        }
    }

    /// Does what a command asks for.
    fn carry(&mut self, command: &Command) -> Result<(), MonError>
        ensures same_reference { self.new.session.ghost_name ≡ self.old.session.ghost_name }
        ensures refused { IfErr result (λ e.
            (fault_in command.now self.old.breakpoints.items self.old.session.now ≡ Some e)
            × (self.new.session.now ≡ self.old.session.now)
            × (self.new.breakpoints.items ≡ self.old.breakpoints.items)) }
        ensures done { OnOk result
            ((fault_in command.now self.old.breakpoints.items self.old.session.now ≡ None)
            × Carries VLENB command.now self.old.breakpoints.items self.new.breakpoints.items
            self.old.session.now self.new.session.now) }
    {
        match command {
            Command::Break(address) => set(&mut self.breakpoints, *address),
            Command::Delete(address) => delete(&mut self.breakpoints, *address),
            Command::Step(most) => {
                step_at_most(self.session, *most);
                Ok(())
            }
            Command::Continue => {
                go_on(self.session, &self.breakpoints);
                Ok(())
            }
            Command::Memory { address, count } => {
                if View::new(self.session, *address, *count).has_bytes() {
                    Ok(())
                } else {
                    Err(MonError::NoBytes)
                }
            }
            Command::List { address, count } => {
                if View::new(self.session, *address, *count).has_words() {
                    Ok(())
                } else {
                    Err(MonError::NoBytes)
                }
            }
            Command::Registers | Command::Vector(_) | Command::Csrs | Command::Quit => Ok(()),
        }
    }

    /// Tells what a command that was carried out left.
    fn tell<W: Sink>(&self, command: &Command, out: &mut W) -> Result<(), Failed>
        ensures { Told result (W.contents out.old) (W.contents out.new) (W.failures out.old)
            (W.failures out.new) (text_of VLENB command.now self.now.session.now) }
    {
        match command {
            Command::Break(address) => put_break(out, *address),
            Command::Delete(address) => put_gone(out, *address),
            Command::Step(_) | Command::Continue => put_stop(
                out,
                self.session.is_ended(),
                self.session.pc(),
                self.session.steps(),
            ),
            Command::Registers => put_registers(out, &self.session.registers().x),
            Command::Vector(register) => {
                put_vector(out, *register, self.session.vector(*register))
            }
            Command::Csrs => put_csrs(out, &self.session.registers(), VLENB),
            Command::Memory { address, count } => {
                View::new(self.session, *address, *count).put_memory(out)
            }
            Command::List { address, count } => {
                View::new(self.session, *address, *count).put_lines(out)
            }
            Command::Quit => put_all(out, &[]),
        }
    }

    /// Carries a command out, and tells what came of it.
    fn obey<W: Sink>(&mut self, command: &Command, out: &mut W) -> Result<Flow, MonError>
        ensures same_reference { self.new.session.ghost_name ≡ self.old.session.ghost_name }
        ensures refused { IfSome
            (fault_in command.now self.old.breakpoints.items self.old.session.now)
            (IsRefused result self.old.session.now self.new.session.now
            self.old.breakpoints.items self.new.breakpoints.items out.old out.new) }
        ensures carried { fault_in command.now self.old.breakpoints.items self.old.session.now
            ≡ None → Carries VLENB command.now self.old.breakpoints.items self.new.breakpoints.items
            self.old.session.now self.new.session.now }
        ensures told { fault_in command.now self.old.breakpoints.items self.old.session.now ≡ None
            → Answers VLENB result command.now self.new.session.now
            (W.contents out.old) (W.contents out.new) (W.failures out.old) (W.failures out.new) }
        ensures stop { IsStop VLENB self.new.session.now.first self.new.session.now.steps
            self.new.session.now.machine }
    {
        match self.carry(command) {
            Ok(()) => {
                self.session.stands();
                match self.tell(command, out) {
                    Ok(()) => Ok(command.flow()),
                    Err(_) => Err(MonError::Write),
                }
            }
            Err(error) => {
                self.session.stands();
                Err(error)
            }
        }
    }

    /// Does what a line asks for, and writes the text for it.
    ///
    /// # Errors
    /// The first of: `Unknown`, `BadNumber`, `TooManyBreakpoints`, `NotThere`, `NoBytes`; then
    /// nothing was done, and nothing written. `Write` where the sink failed: the command is carried
    /// out all the same, and its text may be cut.
    pub fn command<W: Sink>(&mut self, line: &str, out: &mut W) -> Result<Flow, MonError>
        ensures same_reference { self.new.session.ghost_name ≡ self.old.session.ghost_name }
        ensures refused { IfErr
            (order_of line.now self.old.breakpoints.items self.old.session.now)
            (IsRefused result self.old.session.now self.new.session.now
            self.old.breakpoints.items self.new.breakpoints.items out.old out.new) }
        ensures carried { IfOk
            (order_of line.now self.old.breakpoints.items self.old.session.now)
            (λ command. Carries VLENB command self.old.breakpoints.items self.new.breakpoints.items
            self.old.session.now self.new.session.now) }
        ensures told { IfOk
            (order_of line.now self.old.breakpoints.items self.old.session.now)
            (λ command. Answers VLENB result command self.new.session.now
            (W.contents out.old) (W.contents out.new) (W.failures out.old) (W.failures out.new)) }
        ensures stop { IsStop VLENB self.new.session.now.first self.new.session.now.steps
            self.new.session.now.machine }
    {
        match parse(line) {
            Ok(command) => self.obey(&command, out),
            Err(error) => {
                self.session.stands();
                Err(error)
            }
        }
    }
}

//! Runs of accepted images, for hosts that do not know the length of their vector registers.
ghost use Rattle.std.specs.Prelude.{◌≡◌, ◌≤◌, ◌-◌, ◌+◌, ◌*◌, ◌↔◌, None, Ok, true, length};
ghost use Rattle.std.specs.Prelude.{IfErr, IfOk, IfSome, IsErrAnd, IsNone, IsSome};
ghost use Rattle.block_checker.specs.Bound.{scalars_of};
ghost use Rattle.region_mem.specs.Memory.{args_of, byte_of, fetch_of};
ghost use Rattle.region_mem.specs.Parameter.{AreArguments};
ghost use Rattle.machine.specs.MachineStep.{step as step_of};
ghost use Rattle.machine.specs.Run.{Ended, after, has_ended, outcome_from};
ghost use Rattle.vreg_groups.specs.Elements.{bytes_from};
ghost use Rattle.vreg_groups.specs.VectorLength.{vlenb_of};
ghost use Rattle.machine.specs.Registers.{registers_of};
ghost use Rattle.sandbox_run.specs.AnySession.{run_in, vlenb_in};
ghost use Rattle.sandbox_run.specs.Back.{ComesBack};
ghost use Rattle.sandbox_run.specs.Session.{IsOpened, open_fault};
ghost use Rattle.sandbox_run.specs.Stops.{IsStop};

use crate::outcome::OpenError;
use crate::session::Session;
use block_checker::Accepted;
use machine::{Registers, Spare};
use region_mem::Args;
use rv_decode::Reg;
use std::alloc::Global;
use vreg_groups::{Agnostic, Vlen};

/// A [`Session`] at the length of vector registers that its image was accepted for.
#[derive(Drop)]
pub enum AnySession {
    /// 128 bits.
    V128(Session<16>),
    /// 256 bits.
    V256(Session<32>),
    /// 512 bits.
    V512(Session<64>),
}

/// A call on the run, whatever its length of vector registers.
macro_rules! on_run {
    ($any:expr, $session:ident, $call:expr) => {
        match $any {
            AnySession::V128($session) => $call,
            AnySession::V256($session) => $call,
            AnySession::V512($session) => $call,
        }
    };
}

impl AnySession {
    /// Opens a run of an accepted image on arguments, which are moved in, as [`Session::open`] does
    /// at the image's own length of vector registers.
    ///
    /// # Errors
    /// The first of: arguments that do not match the image's parameters, in the order of
    /// [`Parameters::matches`](region_mem::Parameters::matches); `BoundTooLarge` where the bound is
    /// above `max`; and `NoMemory` where memory for the run was refused. The arguments come back as
    /// they were.
    pub fn open(
        alloc: Global,
        accepted: &Accepted,
        args: Args,
        agnostic: Agnostic,
        max: u64,
    ) -> Result<AnySession, (OpenError, Args)>
        ensures vlenb { IfOk result (λ s. vlenb_in s ≡ vlenb_of accepted.now.vlen) }
        ensures opened { IfOk result (λ s. IsOpened (vlenb_of accepted.now.vlen) agnostic
            accepted.now args.places max (run_in s)) }
        ensures refused { IfSome
            (open_fault (vlenb_of accepted.now.vlen) accepted.now args.places max)
            (λ error. IsErrAnd result (λ e. e.0 ≡ error)) }
        ensures memory { open_fault (vlenb_of accepted.now.vlen) accepted.now args.places max ≡ None
            → IfErr result (λ e. e.0 ≡ OpenError.NoMemory) }
        ensures back { IfErr result (λ e. e.1 ≡ args) }
    {
        AnySession::open_with(alloc, accepted, args, agnostic, max, &mut None)
    }

    /// The same on what `spare` holds, as [`Session::open_with`].
    ///
    /// # Errors
    /// Those of [`AnySession::open`].
    pub fn open_with(
        alloc: Global,
        accepted: &Accepted,
        args: Args,
        agnostic: Agnostic,
        max: u64,
        spare: &mut Option<Spare>,
    ) -> Result<AnySession, (OpenError, Args)>
        ensures vlenb { IfOk result (λ s. vlenb_in s ≡ vlenb_of accepted.now.vlen) }
        ensures opened { IfOk result (λ s. IsOpened (vlenb_of accepted.now.vlen) agnostic
            accepted.now args.places max (run_in s)) }
        ensures refused { IfSome
            (open_fault (vlenb_of accepted.now.vlen) accepted.now args.places max)
            (λ error. IsErrAnd result (λ e. e.0 ≡ error)) }
        ensures memory { open_fault (vlenb_of accepted.now.vlen) accepted.now args.places max ≡ None
            → IfErr result (λ e. e.0 ≡ OpenError.NoMemory) }
        ensures back { IfErr result (λ e. e.1 ≡ args) }
    {
        match accepted.vlen() {
            Vlen::V128 => {
                match Session::<16>::open_with(alloc, accepted, args, agnostic, max, spare) {
                    Ok(session) => Ok(AnySession::V128(session)),
                    Err(refused) => Err(refused),
                }
            }
            Vlen::V256 => {
                match Session::<32>::open_with(alloc, accepted, args, agnostic, max, spare) {
                    Ok(session) => Ok(AnySession::V256(session)),
                    Err(refused) => Err(refused),
                }
            }
            Vlen::V512 => {
                match Session::<64>::open_with(alloc, accepted, args, agnostic, max, spare) {
                    Ok(session) => Ok(AnySession::V512(session)),
                    Err(refused) => Err(refused),
                }
            }
        }
    }

    /// The length of its vector registers.
    pub fn vlen(&self) -> Vlen
        ensures { vlenb_of result ≡ vlenb_in self.now }
    {
        match self {
            AnySession::V128(_) => Vlen::V128,
            AnySession::V256(_) => Vlen::V256,
            AnySession::V512(_) => Vlen::V512,
        }
    }

    /// Does one step, or nothing where the run has ended. The answer is `Some` after a step, and
    /// else `None`.
    pub fn step(&mut self) -> Option<()>
        ensures vlenb { vlenb_in self.new ≡ vlenb_in self.old }
        ensures end { IsNone result ↔ (has_ended (run_in self.old).machine ≡ true) }
        ensures stays { IsNone result → self.new ≡ self.old }
        ensures moves { IsSome result
            → step_of (vlenb_in self.old) (run_in self.old).machine ≡ Ok (run_in self.new).machine }
        ensures counts { IsSome result → (run_in self.new).steps ≡ (run_in self.old).steps + 1 }
        ensures bound { (run_in self.new).bound ≡ (run_in self.old).bound }
        ensures within { (run_in self.new).steps ≤ (run_in self.new).bound }
        ensures first { (run_in self.new).first ≡ (run_in self.old).first }
        ensures parameters { (run_in self.new).parameters ≡ (run_in self.old).parameters }
    {
        on_run!(self, session, session.step())
    }

    /// Goes on to the end of the run, and answers how many steps have been done since it was
    /// opened. A run that has ended stays as it is.
    pub fn run(&mut self) -> u64
        ensures vlenb { vlenb_in self.new ≡ vlenb_in self.old }
        ensures ended { has_ended (run_in self.new).machine ≡ true }
        ensures steps { result ≡ (run_in self.new).steps }
        ensures grows { (run_in self.old).steps ≤ (run_in self.new).steps }
        ensures after { after (vlenb_in self.old) (run_in self.old).machine
            ((run_in self.new).steps - (run_in self.old).steps) ≡ Ok (run_in self.new).machine }
        ensures first { outcome_from (vlenb_in self.old)
            ((run_in self.old).bound - (run_in self.old).steps) (run_in self.old).steps
            (run_in self.old).machine ≡ Ended result (run_in self.new).machine }
        ensures bound { (run_in self.new).bound ≡ (run_in self.old).bound }
        ensures within { (run_in self.new).steps ≤ (run_in self.new).bound }
        ensures opened { (run_in self.new).first ≡ (run_in self.old).first }
        ensures parameters { (run_in self.new).parameters ≡ (run_in self.old).parameters }
    {
        on_run!(self, session, session.run())
    }

    /// How many steps have been done.
    pub fn steps(&self) -> u64
        ensures { result ≡ (run_in self.now).steps }
    {
        on_run!(self, session, session.steps())
    }

    /// A law, which does nothing when it runs: the steps that have been done, at most the bound,
    /// lead here from the state that the run was opened in, and in none before had it ended.
    pub fn stands(&self)
        ensures stop { IsStop (vlenb_in self.now) (run_in self.now).first (run_in self.now).steps
            (run_in self.now).machine }
        ensures within { (run_in self.now).steps ≤ (run_in self.now).bound }
    {
        on_run!(self, session, session.stands())
    }

    /// The program counter.
    pub fn pc(&self) -> u32
        ensures { result ≡ (run_in self.now).machine.hart.pc }
    {
        on_run!(self, session, session.pc())
    }

    /// Whether the run has ended.
    pub fn is_ended(&self) -> bool
        ensures { result ≡ has_ended (run_in self.now).machine }
    {
        on_run!(self, session, session.is_ended())
    }

    /// pc, x0 to x31, vl, vtype, vxrm and vxsat.
    pub fn registers(&self) -> Registers
        ensures { result ≡ registers_of (run_in self.now).machine }
    {
        on_run!(self, session, session.registers())
    }

    /// The bytes of a vector register, the lowest element's first: 16, 32 or 64 of them.
    pub fn vector(&self, register: Reg) -> &[u8]
        ensures { result.now ≡ bytes_from (register * vlenb_in self.now) (vlenb_in self.now)
            (run_in self.now).machine.vectors.registers }
    {
        on_run!(self, session, session.vector(register))
    }

    /// The byte at an address, whatever the rights; `None` where no region of memory holds it.
    pub fn peek(&self, address: u32) -> Option<u8>
        ensures { result ≡ byte_of address (run_in self.now).machine.memory }
    {
        on_run!(self, session, session.peek(address))
    }

    /// The word at an address, the lowest byte first; `None` where one of its bytes may not be
    /// fetched.
    pub fn fetch(&self, address: u32) -> Option<u32>
        ensures { result ≡ fetch_of address (run_in self.now).machine.memory }
    {
        on_run!(self, session, session.fetch(address))
    }

    /// Ends the session, wherever the run stands. The arguments come out: buffers as they stand,
    /// scalars as they were passed. So they match the parameters again; and a buffer that is only
    /// read is as it was passed.
    pub fn close(self) -> Args
        ensures places { result.places ≡ args_of (run_in self).machine.memory }
        ensures back { ComesBack (run_in self).parameters (args_of (run_in self).first.memory)
            result.places }
        ensures scalars { scalars_of result.places
            ≡ scalars_of (args_of (run_in self).first.memory) }
        ensures matching { AreArguments (run_in self).parameters result.places }
    {
        on_run!(self, session, session.close())
    }

    /// The same. What the run leaves for the next one goes into `spare`.
    pub fn close_into(self, spare: &mut Option<Spare>) -> Args
        ensures places { result.places ≡ args_of (run_in self).machine.memory }
        ensures back { ComesBack (run_in self).parameters (args_of (run_in self).first.memory)
            result.places }
        ensures scalars { scalars_of result.places
            ≡ scalars_of (args_of (run_in self).first.memory) }
        ensures matching { AreArguments (run_in self).parameters result.places }
    {
        on_run!(self, session, session.close_into(spare))
    }
}

//! Runs of images that were accepted.
ghost use Rattle.std.specs.Prelude.{◌≡◌, ◌≤◌, ◌⊎◌, ◌+◌, ◌-◌, ◌*◌, ◌↔◌, None, Ok, true, length};
ghost use Rattle.std.specs.Prelude.{IfErr, IfOk, IfSome, IsErrAnd, IsNone, IsSome};
ghost use Rattle.block_checker.specs.Bound.{scalar_of, scalars_of};
ghost use Rattle.region_mem.specs.Memory.{args_of, byte_of, fetch_of};
ghost use Rattle.region_mem.specs.Parameter.{AreArguments};
ghost use Rattle.machine.specs.MachineStep.{step as step_of};
ghost use Rattle.machine.specs.Run.{Ended, after, has_ended, outcome_from};
ghost use Rattle.vreg_groups.specs.Elements.{bytes_from};
ghost use Rattle.vreg_groups.specs.VectorLength.{IsVlenb};
ghost use Rattle.machine.specs.Registers.{registers_of};
ghost use Rattle.sandbox_run.specs.Back.{ComesBack};
ghost use Rattle.machine.specs.Rooms.{StateFitsInMemory};
ghost use Rattle.sandbox_run.specs.Session.{IsOpened, open_fault};
ghost use Rattle.sandbox_run.specs.Stops.{IsStop};

use crate::outcome::OpenError;
use block_checker::Accepted;
use machine::laws::runs_keep_memory;
use machine::{Machine, Registers, Spare, start_with};
use region_mem::{Arg, Args, Bytes, Parameters, args_bring_bytes};
use rv_decode::Reg;
use std::alloc::{Allocator, Global};
use std::marker::Model;
use std::snapshot::Snapshot;
use vreg_groups::Agnostic;

/// A run of an accepted image, between two steps. It ends without a fault, within a number of steps
/// that was known when it was opened.
///
/// `VLENB` is the length of a vector register in bytes, 16, 32 or 64. `A` is the allocator of the
/// run's memory. Only [`Session::open`] takes memory.
#[derive(Drop)]
pub struct Session<const VLENB: usize, A: Allocator = Global> {
    machine: Machine<VLENB, A>,
    steps: u64,
    bound: u64,
    // What the run was opened with. Clauses alone read it, and it takes no room.
    first: Snapshot<Machine<VLENB, A>>,
    parameters: Snapshot<Parameters>,
}

impl<const VLENB: usize, A: Allocator> Model for Session<VLENB, A> {
    ghost use Rattle.std.specs.Prelude.{◌≤◌, ◌-◌};
    ghost use Rattle.block_checker.specs.Sound.{IsWellBehaved};
    ghost use Rattle.sandbox_run.specs.Session.{HandsBack, SessionView};
    ghost use Rattle.sandbox_run.specs.Stops.{IsStop};

    ghost Value = { SessionView };

    ghost view = { λ s. record {
      machine = s.machine;
      steps = s.steps;
      bound = s.bound;
      first = s.first.value;
      parameters = s.parameters.value;
    } };

    // From here the run ends without a fault, in at most the steps that are left of the bound. It
    // came here from its first state, and had not ended before; and what it was passed comes back.
    ghost invariant = { λ s. (s.steps ≤ s.bound) × IsWellBehaved VLENB (s.bound - s.steps) s.machine
        × IsStop VLENB s.first.value s.steps s.machine
        × HandsBack s.parameters.value s.first.value.memory };
}

/// What a scalar argument is, and 0 for any other.
fn scalar<A: Allocator>(arg: &Arg<Bytes<A>>) -> u32
    ensures { result ≡ scalar_of arg.now }
{
    match arg {
        Arg::None | Arg::Buffer(_) => 0,
        Arg::Scalar(value) => *value,
    }
}

/// The scalars of arguments, by place.
fn scalars<A: Allocator>(places: &[Arg<Bytes<A>>; 8]) -> [u32; 8]
    ensures made { result ≡ scalars_of places.now }
    ensures eight { length places.now ≡ 8 }
{
    let mut made = [0; 8];
    for place in 0..8 {
        made[place] = scalar(&places[place]);
    }
    made
}

impl<const VLENB: usize> Session<VLENB> {
    /// Opens a run of an accepted image on arguments, which are moved in.
    ///
    /// No run is opened whose bound, which the image was accepted with for these scalars, is above
    /// `max` steps.
    ///
    /// # Errors
    /// The first of: arguments that do not match the image's parameters, in the order of
    /// [`Parameters::matches`](region_mem::Parameters::matches); `BoundTooLarge`; `WrongVlen` where
    /// the image was accepted for another length of vector registers; and `NoMemory` where memory
    /// for the run was refused. The arguments come back as they were.
    pub fn open(
        alloc: Global,
        accepted: &Accepted,
        args: Args,
        agnostic: Agnostic,
        max: u64,
    ) -> Result<Session<VLENB>, (OpenError, Args)>
        requires { IsVlenb VLENB }
        ensures opened { IfOk result (IsOpened VLENB agnostic accepted.now args.places max) }
        ensures refused { IfSome (open_fault VLENB accepted.now args.places max)
            (λ error. IsErrAnd result (λ e. e.0 ≡ error)) }
        ensures memory { open_fault VLENB accepted.now args.places max ≡ None
            → IfErr result (λ e. e.0 ≡ OpenError.NoMemory) }
        ensures back { IfErr result (λ e. e.1 ≡ args) }
    {
        open_in(alloc, accepted, args, agnostic, max)
    }

    /// The same on what `spare` holds, which a run left in [`Session::close_into`]. Where it holds
    /// nothing, memory is asked for. Where no run is opened, what it held is there again.
    ///
    /// # Errors
    /// Those of [`Session::open`].
    pub fn open_with(
        alloc: Global,
        accepted: &Accepted,
        args: Args,
        agnostic: Agnostic,
        max: u64,
        spare: &mut Option<Spare>,
    ) -> Result<Session<VLENB>, (OpenError, Args)>
        requires { IsVlenb VLENB }
        ensures opened { IfOk result (IsOpened VLENB agnostic accepted.now args.places max) }
        ensures refused { IfSome (open_fault VLENB accepted.now args.places max)
            (λ error. IsErrAnd result (λ e. e.0 ≡ error)) }
        ensures memory { open_fault VLENB accepted.now args.places max ≡ None
            → IfErr result (λ e. e.0 ≡ OpenError.NoMemory) }
        ensures back { IfErr result (λ e. e.1 ≡ args) }
    {
        open_in_with(alloc, accepted, args, agnostic, max, spare)
    }
}

/// As [`Session::open`], with the run's memory and the buffers of the arguments from any allocator,
/// whose values are small enough for the state of a run, which holds some, to fit in memory.
pub fn open_in<const VLENB: usize, A: Allocator + Copy, B: Allocator>(
    alloc: A,
    accepted: &Accepted<B>,
    args: Args<Bytes<A>>,
    agnostic: Agnostic,
    max: u64,
) -> Result<Session<VLENB, A>, (OpenError, Args<Bytes<A>>)>
    requires length { IsVlenb VLENB }
    requires fits { StateFitsInMemory VLENB.row A.row A.Allocator }
    ensures opened { IfOk result (IsOpened VLENB agnostic accepted.now args.places max) }
    ensures refused { IfSome (open_fault VLENB accepted.now args.places max)
        (λ error. IsErrAnd result (λ e. e.0 ≡ error)) }
    ensures memory { open_fault VLENB accepted.now args.places max ≡ None
        → IfErr result (λ e. e.0 ≡ OpenError.NoMemory) }
    ensures back { IfErr result (λ e. e.1 ≡ args) }
{
    open_in_with(alloc, accepted, args, agnostic, max, &mut None)
}

/// As [`Session::open_with`], from any allocator, as [`open_in`].
#[tactic(auto, unfolding(crate::specs::Session::open_fault))]
pub fn open_in_with<const VLENB: usize, A: Allocator + Copy, B: Allocator>(
    alloc: A,
    accepted: &Accepted<B>,
    args: Args<Bytes<A>>,
    agnostic: Agnostic,
    max: u64,
    spare: &mut Option<Spare<A>>,
) -> Result<Session<VLENB, A>, (OpenError, Args<Bytes<A>>)>
    requires length { IsVlenb VLENB }
    requires fits { StateFitsInMemory VLENB.row A.row A.Allocator }
    ensures opened { IfOk result (IsOpened VLENB agnostic accepted.now args.places max) }
    ensures refused { IfSome (open_fault VLENB accepted.now args.places max)
        (λ error. IsErrAnd result (λ e. e.0 ≡ error)) }
    ensures memory { open_fault VLENB accepted.now args.places max ≡ None
        → IfErr result (λ e. e.0 ≡ OpenError.NoMemory) }
    ensures back { IfErr result (λ e. e.1 ≡ args) }
{
    let parameters = accepted.parameters();
    if let Err(error) = parameters.matches(&args) {
        return Err((OpenError::from(error), args));
    }
    let bound = accepted.bound(&scalars(&args.places));
    if bound > u128::from(max) {
        return Err((OpenError::BoundTooLarge, args));
    }
    if accepted.vlen().bytes() != VLENB {
        return Err((OpenError::WrongVlen, args));
    }
    accepted.runs_end();
    args_bring_bytes(&args);
    let _segments = accepted.image().segments();
    let _contents = accepted.certificate().contents();
    match start_with::<VLENB, A, B>(alloc, accepted.image(), parameters, args, agnostic, spare) {
        Ok(machine) => Ok(Session {
            first: Snapshot::of(&machine),
            parameters: Snapshot::of(parameters),
            machine,
            steps: 0,
            bound: bound as u64,
        }),
        Err((_, args)) => Err((OpenError::NoMemory, args)),
    }
}

impl<const VLENB: usize, A: Allocator> Session<VLENB, A> {
    /// Does one step, or nothing where the run has ended. The answer is `Some` after a step, and
    /// else `None`.
    pub fn step(&mut self) -> Option<()>
        ensures end { IsNone result ↔ (has_ended self.old.machine ≡ true) }
        ensures stays { IsNone result → self.new ≡ self.old }
        ensures moves { IsSome result → step_of VLENB self.old.machine ≡ Ok self.new.machine }
        ensures counts { IsSome result → self.new.steps ≡ self.old.steps + 1 }
        ensures bound { self.new.bound ≡ self.old.bound }
        ensures within { self.new.steps ≤ self.new.bound }
        ensures first { self.new.first ≡ self.old.first }
        ensures parameters { self.new.parameters ≡ self.old.parameters }
    {
        if self.machine.has_ended() {
            return None;
        }
        match self.machine.step() {
            Ok(()) => {
                self.steps += 1;
                Some(())
            }
            Err(_) => unreachable!(),
        }
    }

    /// Goes on to the end of the run, and answers how many steps have been done since it was
    /// opened. A run that has ended stays as it is.
    pub fn run(&mut self) -> u64
        ensures ended { has_ended self.new.machine ≡ true }
        ensures steps { result ≡ self.new.steps }
        ensures grows { self.old.steps ≤ self.new.steps }
        ensures after { after VLENB self.old.machine (self.new.steps - self.old.steps)
            ≡ Ok self.new.machine }
        ensures first { outcome_from VLENB (self.old.bound - self.old.steps) self.old.steps
            self.old.machine ≡ Ended result self.new.machine }
        ensures bound { self.new.bound ≡ self.old.bound }
        ensures within { self.new.steps ≤ self.new.bound }
        ensures opened { self.new.first ≡ self.old.first }
        ensures parameters { self.new.parameters ≡ self.old.parameters }
    {
        'stepping: while self.step().is_some() {}
        self.steps
    }

    /// How many steps have been done.
    pub fn steps(&self) -> u64
        ensures { result ≡ self.now.steps }
    {
        self.steps
    }

    /// A law, which does nothing when it runs: the steps that have been done, at most the bound,
    /// lead here from the state that the run was opened in, and in none before had it ended.
    pub fn stands(&self)
        ensures stop { IsStop VLENB self.now.first self.now.steps self.now.machine }
        ensures within { self.now.steps ≤ self.now.bound }
    {
        let _steps = &self.steps;
    }

    /// The program counter.
    pub fn pc(&self) -> u32
        ensures { result ≡ self.now.machine.hart.pc }
    {
        self.machine.hart.pc()
    }

    /// Whether the run has ended.
    pub fn is_ended(&self) -> bool
        ensures { result ≡ has_ended self.now.machine }
    {
        self.machine.hart.has_ended()
    }

    /// pc, x0 to x31, vl, vtype, vxrm and vxsat.
    pub fn registers(&self) -> Registers
        ensures { result ≡ registers_of self.now.machine }
    {
        self.machine.registers()
    }

    /// The bytes of a vector register, the lowest element's first: `VLENB` of them.
    pub fn vector(&self, register: Reg) -> &[u8]
        ensures { result.now
            ≡ bytes_from (register * VLENB) VLENB self.now.machine.vectors.registers }
    {
        self.machine.vectors.registers().group(register, 1)
    }

    /// The byte at an address, whatever the rights; `None` where no region of memory holds it.
    pub fn peek(&self, address: u32) -> Option<u8>
        ensures { result ≡ byte_of address self.now.machine.memory }
    {
        self.machine.memory.byte(address)
    }

    /// The word at an address, the lowest byte first; `None` where one of its bytes may not be
    /// fetched.
    pub fn fetch(&self, address: u32) -> Option<u32>
        ensures { result ≡ fetch_of address self.now.machine.memory }
    {
        self.machine.memory.fetch(address)
    }

    /// Ends the session, wherever the run stands. The arguments come out: buffers as they stand,
    /// scalars as they were passed. So they match the parameters again; and a buffer that is only
    /// read is as it was passed.
    pub fn close(self) -> Args<Bytes<A>>
        ensures places { result.places ≡ args_of self.machine.memory }
        ensures back { ComesBack self.parameters (args_of self.first.memory) result.places }
        ensures scalars { scalars_of result.places ≡ scalars_of (args_of self.first.memory) }
        ensures matching { AreArguments self.parameters result.places }
    {
        runs_keep_memory();
        let Session { machine, .. } = self;
        let Machine { memory, .. } = machine;
        memory.into_args()
    }

    /// The same. What the run leaves for the next one goes into `spare`.
    pub fn close_into(self, spare: &mut Option<Spare<A>>) -> Args<Bytes<A>>
        ensures places { result.places ≡ args_of self.machine.memory }
        ensures back { ComesBack self.parameters (args_of self.first.memory) result.places }
        ensures scalars { scalars_of result.places ≡ scalars_of (args_of self.first.memory) }
        ensures matching { AreArguments self.parameters result.places }
    {
        runs_keep_memory();
        let Session { machine, .. } = self;
        let (args, left) = machine.into_spare();
        *spare = left;
        args
    }
}

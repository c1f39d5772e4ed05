//! What a host learns of a kernel.
ghost use Rattle.std.specs.Prelude.{◌≡◌, ◌≢◌, ◌*◌, IfSome, None, Some, length};
ghost use Rattle.std.specs.Option.{option_map};
ghost use Rattle.block_checker.specs.Bound.{bound_of as bound_for};
ghost use Rattle.block_checker.specs.Passes.{block_at};
ghost use Rattle.rvvbox_c.specs.Holds.{IsFailure};
ghost use Rattle.rvvbox_c.specs.Scalars.{by_place};
ghost use Rattle.rvvbox_c.specs.Slots.{image_kept};
ghost use Rattle.rvvbox_c.specs.Status.{code_of, halves};
ghost use Rattle.rvvbox_c.specs.Told.{budget_of as budget_told, parameter_of, parameters_told};
ghost use Rattle.rvvbox_c.specs.declared.status.Status.TheVariants.{BadCount, NothingKept};
ghost use Rattle.vreg_groups.specs.VectorLength.{vlenb_of};

use crate::kept::Kernel;
use crate::status::{Bound, Status};
use block_checker::Accepted;
use region_mem::{Mode, Param};
use std::alloc::Global;
use std::sync::Arc;

/// The numbers at the eight places.
#[repr(C)]
#[derive(Clone, Copy)]
pub struct Scalars {
    pub a0: u32,
    pub a1: u32,
    pub a2: u32,
    pub a3: u32,
    pub a4: u32,
    pub a5: u32,
    pub a6: u32,
    pub a7: u32,
}

/// What a kernel takes at one place, of the kinds of a form: a number from `lo` to `hi`, or a buffer
/// of `size` bytes.
#[repr(C)]
#[derive(Clone, Copy)]
pub struct Parameter {
    pub kind: u32,
    pub lo: u32,
    pub hi: u32,
    pub size: u32,
}

/// The most steps of a run: `constant`, and `factor` for each one in the value of the register of
/// this number at its start, and the same of a second register.
#[repr(C)]
#[derive(Clone, Copy)]
pub struct Budget {
    pub constant: u32,
    pub factor: u32,
    pub number: u32,
    pub second_factor: u32,
    pub second_number: u32,
    pub reserved: u32,
}

fn told(param: Param) -> Parameter
    ensures { result ≡ parameter_of param }
{
    let nothing = Parameter {
        kind: 0,
        lo: 0,
        hi: 0,
        size: 0,
    };
    match param {
        Param::None => nothing,
        Param::Scalar { lo, hi } => Parameter {
            kind: 1,
            lo,
            hi,
            ..nothing
        },
        Param::Buffer { mode, size } => Parameter {
            kind: match mode {
                Mode::ReadWrite => 2,
                Mode::Read => 3,
            },
            size,
            ..nothing
        },
    }
}

/// What eight parameters are, in numbers.
fn all_told(params: [Param; 8]) -> [Parameter; 8]
    ensures { result ≡ parameters_told params }
{
    let [a, b, c, d, e, f, g, h] = params;
    [
        told(a),
        told(b),
        told(c),
        told(d),
        told(e),
        told(f),
        told(g),
        told(h),
    ]
}

/// The most steps that a run takes with these numbers at the places of scalars.
pub(crate) fn most_of(accepted: &Accepted, scalars: &Scalars) -> u128
    ensures { result ≡ bound_for accepted.now (by_place scalars.now) }
{
    accepted.bound(&[
        scalars.a0, scalars.a1, scalars.a2, scalars.a3, scalars.a4, scalars.a5, scalars.a6,
        scalars.a7,
    ])
}

/// The bits of a vector register that a kernel was accepted for, or 0 where it keeps nothing.
#[unsafe(no_mangle)]
pub extern "C" fn rvvbox_vlen_of(alloc: Global, kernel: &mut Kernel) -> u32
    ensures kept { kernel.new.kept ≡ kernel.old.kept }
    ensures some { IfSome (image_kept kernel.old.kept) (λ a. result ≡ vlenb_of a.vlen * 8) }
    ensures nothing { kernel.old.kept ≡ None → result ≡ 0 }
{
    match kernel.take(alloc) {
        None => 0,
        Some(held) => {
            let owner: &Arc<Accepted> = held.accepted();
            let accepted: &Accepted = owner;
            let bits = accepted.vlen().bytes() as u32 * 8;
            kernel.keep(alloc, held);
            bits
        }
    }
}

/// Tells what a kernel takes, by place: into eight of `parameters`.
#[unsafe(no_mangle)]
pub extern "C" fn rvvbox_parameters_of(
    alloc: Global,
    kernel: &mut Kernel,
    parameters: &mut [Parameter],
) -> u32
    ensures kept { kernel.new.kept ≡ kernel.old.kept }
    ensures length { length parameters.new ≡ length parameters.old }
    ensures counted { length parameters.old ≢ 8 → result ≡ code_of BadCount }
    ensures nothing { length parameters.old ≡ 8 → kernel.old.kept ≡ None
        → result ≡ code_of NothingKept }
    ensures done { length parameters.old ≡ 8 → IfSome kernel.old.kept (λ _. result ≡ 0) }
    ensures told { result ≡ 0 → IfSome (image_kept kernel.old.kept)
        (λ a. parameters.new ≡ parameters_told a.certificate.parameters) }
    ensures refused { IsFailure result → parameters.new ≡ parameters.old }
{
    if parameters.len() != 8 {
        return Status::BadCount.code();
    }
    match kernel.take(alloc) {
        None => Status::NothingKept.code(),
        Some(held) => {
            let owner: &Arc<Accepted> = held.accepted();
            let accepted: &Accepted = owner;
            parameters.copy_from_slice(&all_told(accepted.parameters().to_array()));
            kernel.keep(alloc, held);
            Status::Done.code()
        }
    }
}

/// The budget of an accepted image, in numbers.
fn budget_of(accepted: &Accepted) -> Budget
    ensures { option_map (λ block. budget_told block.budget)
        (block_at accepted.now.image.entry accepted.now.certificate.blocks) ≡ Some result }
{
    let budget = accepted.budget();
    Budget {
        constant: budget.constant,
        factor: budget.factor,
        number: budget.register as u32,
        second_factor: budget.second_factor,
        second_number: budget.second_register as u32,
        reserved: 0,
    }
}

/// Tells how many steps a run of a kernel takes at most, by its registers at its start.
#[unsafe(no_mangle)]
pub extern "C" fn rvvbox_budget_of(alloc: Global, kernel: &mut Kernel, budget: &mut Budget) -> u32
    ensures kept { kernel.new.kept ≡ kernel.old.kept }
    ensures done { IfSome kernel.old.kept (λ _. result ≡ 0) }
    ensures told { IfSome (image_kept kernel.old.kept) (λ a. option_map (λ block.
        budget_told block.budget) (block_at a.image.entry a.certificate.blocks)
        ≡ Some budget.new) }
    ensures nothing { kernel.old.kept ≡ None → result ≡ code_of NothingKept }
    ensures refused { IsFailure result → budget.new ≡ budget.old }
{
    match kernel.take(alloc) {
        None => Status::NothingKept.code(),
        Some(held) => {
            let owner: &Arc<Accepted> = held.accepted();
            let accepted: &Accepted = owner;
            *budget = budget_of(accepted);
            kernel.keep(alloc, held);
            Status::Done.code()
        }
    }
}

/// Tells the most steps that a run of what is kept takes with these numbers at the places of
/// scalars. What stands at any other place says nothing.
#[unsafe(no_mangle)]
pub extern "C" fn rvvbox_bound_of(
    alloc: Global,
    kernel: &mut Kernel,
    scalars: &Scalars,
    bound: &mut Bound,
) -> u32
    ensures kept { kernel.new.kept ≡ kernel.old.kept }
    ensures done { IfSome kernel.old.kept (λ _. result ≡ 0) }
    ensures bound { IfSome (image_kept kernel.old.kept) (λ a.
        bound.new ≡ halves (bound_for a (by_place scalars.now))) }
    ensures nothing { kernel.old.kept ≡ None → result ≡ code_of NothingKept }
    ensures refused { IsFailure result → bound.new ≡ bound.old }
{
    match kernel.take(alloc) {
        None => Status::NothingKept.code(),
        Some(held) => {
            let owner: &Arc<Accepted> = held.accepted();
            let accepted: &Accepted = owner;
            *bound = Bound::of(most_of(accepted, scalars));
            kernel.keep(alloc, held);
            Status::Done.code()
        }
    }
}

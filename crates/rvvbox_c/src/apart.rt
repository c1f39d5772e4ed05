//! Whether the bytes of eight arguments are there, and those that are put back lie apart.
ghost use Rattle.std.specs.Prelude.{◌≡◌, ◌≢◌, ◌<◌, ℕ, IfNone, IfSome, None, Some, length};
ghost use Rattle.rvvbox_c.specs.Apart.{AreNamed, IsFirstFault, IsToldOf, do_meet, is_bytes};
ghost use Rattle.rvvbox_c.specs.Apart.{is_nowhere, meets_one, place_fault};
ghost use Rattle.rvvbox_c.specs.Holds.{IsFailure};
ghost use Rattle.rvvbox_c.specs.Status.{plain};
ghost use Rattle.rvvbox_c.specs.declared.status.Status.TheVariants.{BadCount, Done};

use crate::status::{Refusal, Status};

/// Where an argument lies: its kind, and the `size` bytes from the address `from` on.
#[repr(C)]
#[derive(Clone, Copy)]
pub struct Place {
    pub kind: u32,
    pub value: u32,
    pub from: usize,
    pub size: usize,
}

/// Whether it has bytes.
fn is_bytes(place: Place) -> bool
    ensures { result ≡ is_bytes place }
{
    place.size > 0 && (place.kind == 2 || place.kind == 3)
}

/// Whether it has bytes at NULL, or beyond the end of memory.
fn is_nowhere(place: Place) -> bool
    ensures { result ≡ is_nowhere place }
{
    is_bytes(place)
        && (place.from == 0 || place.from as u128 + place.size as u128 > 0x1_0000_0000_0000_0000)
}

/// Whether two have a byte in common.
fn do_meet(one: Place, other: Place) -> bool
    ensures { result ≡ do_meet one other }
{
    is_bytes(one)
        && is_bytes(other)
        && (one.from as u128) < other.from as u128 + other.size as u128
        && (other.from as u128) < one.from as u128 + one.size as u128
}

/// Whether it has a byte in common with one of the others.
fn meets_one(place: Place, others: &[Place]) -> bool
    ensures { result ≡ meets_one place others.now }
{
    others.iter().any(|other| do_meet(place, *other))
}

/// What is wrong with a place between those before it and those behind it.
fn fault_of(place: Place, before: &[Place], behind: &[Place]) -> Option<Status>
    ensures fault { result ≡ place_fault place before.now behind.now }
    ensures failed { IfSome result (λ status. status ≢ Done) }
{
    if place.kind > 3 {
        Some(Status::BadKind)
    } else if is_nowhere(place) {
        Some(Status::BadRange)
    } else if place.kind == 2 && (meets_one(place, before) || meets_one(place, behind)) {
        Some(Status::Overlap)
    } else {
        None
    }
}

/// What is wrong at the first place at which something is.
fn first_fault(places: &[Place]) -> Option<(Status, usize)>
    ensures none { IfNone result (AreNamed places.now) }
    ensures some { IfSome result (λ found. IsFirstFault places.now found.0 found.1) }
    ensures failed { IfSome result (λ found. found.0 ≢ Done) }
{
    for k in 0..places.len() {
        if let Some(fault) = fault_of(places[k], &places[..k], &places[k + 1..]) {
            return Some((fault, k));
        }
    }
    None
}

/// Whether eight arguments name bytes that are there, and those that are put back share none with
/// another. Else `refusal` names the first place at which it is otherwise.
#[unsafe(no_mangle)]
pub extern "C" fn rvvbox_apart(places: &[Place], refusal: &mut Refusal) -> u32
    ensures status { result ≡ refusal.new.status }
    ensures counted { length places.now ≢ 8 → refusal.new ≡ plain BadCount }
    ensures named { result ≡ 0 → AreNamed places.now }
    ensures refused { length places.now ≡ 8 → IsFailure result
        → IsToldOf places.now refusal.new }
{
    *refusal = judged(places);
    refusal.status
}

/// The answer for places.
fn judged(places: &[Place]) -> Refusal
    ensures counted { length places.now ≢ 8 → result ≡ plain BadCount }
    ensures named { result.status ≡ 0 → AreNamed places.now }
    ensures refused { length places.now ≡ 8 → IsFailure result.status → IsToldOf places.now result }
{
    if places.len() != 8 {
        return Refusal::of(Status::BadCount);
    }
    match first_fault(places) {
        None => Refusal::of(Status::Done),
        Some((fault, place)) => Refusal::at(fault, place),
    }
}

//! The eight arguments of a run, where the host has their bytes.
ghost use Rattle.std.specs.Prelude.{◌≡◌, ◌≢◌, ◌∷◌, [], IfErr, IfOk, IfSome, length};
ghost use Rattle.rvvbox_c.specs.Forms.{all_in, all_left, argument_in, bytes_of, eight, forms_of};
ghost use Rattle.rvvbox_c.specs.Forms.{left_in, number_in, numbers_in, place_of_no_kind};

use crate::facts::Scalars;
use region_mem::{Arg, Args, Bytes};
use std::alloc::{AllocError, Global};

/// What stands at a place: nothing (kind 0), the number `value` (kind 1), bytes that are put back
/// after the run (kind 2), or bytes that are only read (kind 3).
#[repr(C)]
#[derive(Clone, Copy)]
pub struct Form {
    pub kind: u32,
    pub value: u32,
}

/// What stands at the eight places.
#[repr(C)]
#[derive(Clone, Copy)]
pub struct Forms {
    pub a0: Form,
    pub a1: Form,
    pub a2: Form,
    pub a3: Form,
    pub a4: Form,
    pub a5: Form,
    pub a6: Form,
    pub a7: Form,
}

/// The host's bytes at the eight places.
#[derive(Clone, Copy)]
pub(crate) struct Slices<'a> {
    pub(crate) a0: &'a [u8],
    pub(crate) a1: &'a [u8],
    pub(crate) a2: &'a [u8],
    pub(crate) a3: &'a [u8],
    pub(crate) a4: &'a [u8],
    pub(crate) a5: &'a [u8],
    pub(crate) a6: &'a [u8],
    pub(crate) a7: &'a [u8],
}

impl Forms {
    /// The first place whose form is of no kind.
    pub(crate) fn place_of_no_kind(&self) -> Option<usize>
        ensures { result ≡ place_of_no_kind self.now }
    {
        if self.a0.kind > 3 {
            Some(0)
        } else if self.a1.kind > 3 {
            Some(1)
        } else if self.a2.kind > 3 {
            Some(2)
        } else if self.a3.kind > 3 {
            Some(3)
        } else if self.a4.kind > 3 {
            Some(4)
        } else if self.a5.kind > 3 {
            Some(5)
        } else if self.a6.kind > 3 {
            Some(6)
        } else if self.a7.kind > 3 {
            Some(7)
        } else {
            None
        }
    }

    /// The numbers at the places of scalars, and 0 at all others.
    pub(crate) fn numbers(&self) -> Scalars
        ensures { result ≡ numbers_in self.now }
    {
        Scalars {
            a0: self.a0.number(),
            a1: self.a1.number(),
            a2: self.a2.number(),
            a3: self.a3.number(),
            a4: self.a4.number(),
            a5: self.a5.number(),
            a6: self.a6.number(),
            a7: self.a7.number(),
        }
    }
}

impl Form {
    /// Its number, and 0 where it is no scalar.
    fn number(self) -> u32
        ensures { result ≡ number_in self }
    {
        if self.kind == 1 { self.value } else { 0 }
    }
}

/// What a form names, with a copy of its bytes.
fn argument(alloc: Global, form: Form, read: &[u8], put: &[u8]) -> Result<Arg, AllocError>
    ensures { IfOk result (λ arg. arg ≡ argument_in form read.now put.now) }
{
    match form.kind {
        0 => Ok(Arg::None),
        1 => Ok(Arg::Scalar(form.value)),
        3 => Ok(Arg::Buffer(Bytes::new(Vec::from_slice(alloc, read)?))),
        _ => Ok(Arg::Buffer(Bytes::new(Vec::from_slice(alloc, put)?))),
    }
}

/// What four forms name, with copies of their bytes.
fn four(
    alloc: Global,
    first: Form,
    second: Form,
    third: Form,
    fourth: Form,
    r0: &[u8],
    r1: &[u8],
    r2: &[u8],
    r3: &[u8],
    b0: &[u8],
    b1: &[u8],
    b2: &[u8],
    b3: &[u8],
) -> Result<(Arg, Arg, Arg, Arg), AllocError>
    ensures first { IfOk result (λ args. args.0 ≡ argument_in first r0.now b0.now) }
    ensures second { IfOk result (λ args. args.1 ≡ argument_in second r1.now b1.now) }
    ensures third { IfOk result (λ args. args.2 ≡ argument_in third r2.now b2.now) }
    ensures fourth { IfOk result (λ args. args.3 ≡ argument_in fourth r3.now b3.now) }
{
    let a0 = argument(alloc, first, r0, b0)?;
    let a1 = argument(alloc, second, r1, b1)?;
    let a2 = argument(alloc, third, r2, b2)?;
    let a3 = argument(alloc, fourth, r3, b3)?;
    Ok((a0, a1, a2, a3))
}

/// What eight forms name, with copies of their bytes.
pub(crate) fn arguments(
    alloc: Global,
    forms: &Forms,
    reads: &Slices,
    puts: &Slices,
) -> Result<Args, AllocError>
    ensures { IfOk result (λ args. args.places
        ≡ all_in (forms_of forms.now) (bytes_of reads.now) (bytes_of puts.now)) }
{
    let (a0, a1, a2, a3) = four(
        alloc, forms.a0, forms.a1, forms.a2, forms.a3, reads.a0, reads.a1, reads.a2, reads.a3,
        puts.a0, puts.a1, puts.a2, puts.a3,
    )?;
    let (a4, a5, a6, a7) = four(
        alloc, forms.a4, forms.a5, forms.a6, forms.a7, reads.a4, reads.a5, reads.a6, reads.a7,
        puts.a4, puts.a5, puts.a6, puts.a7,
    )?;
    let places = [a0, a1, a2, a3, a4, a5, a6, a7];
    Ok(Args { places })
}

/// Leaves in bytes what a run has left of the argument.
fn put_back(arg: &Arg, form: Form, bytes: &mut [u8])
    ensures length { length bytes.new ≡ length bytes.old }
    ensures value { bytes.new ≡ left_in arg.now form bytes.old }
    ensures read { form.kind ≢ 2 → bytes.new ≡ bytes.old }
{
    let Arg::Buffer(now) = arg else {
        return;
    };
    if form.kind == 2 && now.len() == bytes.len() {
        bytes.copy_from_slice(now.as_slice());
    }
}

/// Leaves at each place what a run has left of its argument.
pub(crate) fn put_all(
    args: &[Arg; 8],
    forms: &Forms,
    b0: &mut [u8],
    b1: &mut [u8],
    b2: &mut [u8],
    b3: &mut [u8],
    b4: &mut [u8],
    b5: &mut [u8],
    b6: &mut [u8],
    b7: &mut [u8],
)
    ensures { eight b0.new b1.new b2.new b3.new b4.new b5.new b6.new b7.new
        ≡ all_left args.now (forms_of forms.now)
        (eight b0.old b1.old b2.old b3.old b4.old b5.old b6.old b7.old) }
{
    let [p0, p1, p2, p3, p4, p5, p6, p7] = args;
    put_back(p0, forms.a0, b0);
    put_back(p1, forms.a1, b1);
    put_back(p2, forms.a2, b2);
    put_back(p3, forms.a3, b3);
    put_back(p4, forms.a4, b4);
    put_back(p5, forms.a5, b5);
    put_back(p6, forms.a6, b6);
    put_back(p7, forms.a7, b7);
}

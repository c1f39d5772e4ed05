//! What a kernel's eight parameters say.
ghost use Rattle.std.specs.Prelude.{◌≡◌, ◌≤◌, ◌<◌, ◌^◌, sum_by, IfSome, OnOk};
ghost use Rattle.std.specs.Prelude.{position};
ghost use Rattle.std.specs.List.{slice_get, list_all, zip, AllByRecursion};
ghost use Rattle.std.specs.Option.{option_map};
ghost use Rattle.region_mem.specs.Parameter.{is_valid, parameters_of, is_buffer, room_of};
ghost use Rattle.region_mem.specs.Parameter.{address_of, is_wrong_kind, is_out_of_interval};
ghost use Rattle.region_mem.specs.Parameter.{is_wrong_size, argument_error, refused_by, size_of};
ghost use Rattle.region_mem.specs.Parameter.{AreArguments};
ghost use Rattle.region_mem.specs.Areas.{ArePlaced};
ghost use Rattle.region_mem.specs.Start.{start_memory};

use crate::arguments::{Arg, Args, Bytes};
use crate::layout::{BUFFERS, BUFFERS_END, MAX_BUFFER_SIZE, PAGE_SIZE};
use elf_image::Image;
use std::alloc::Allocator;
use std::error::Error;
use std::fmt;
use std::marker::Model;

/// How a kernel may use a buffer.
#[derive(Clone, Copy, PartialEq, Eq)]
pub enum Mode {
    Read,
    ReadWrite,
}

/// What a kernel takes at one place.
#[derive(Clone, Copy, PartialEq, Eq)]
pub enum Param {
    None,
    /// A number from `lo` to `hi`, both included.
    Scalar { lo: u32, hi: u32 },
    /// A buffer of this many bytes.
    Buffer { mode: Mode, size: u32 },
}

impl Param {
    #[tactic(auto, unfolding(crate::specs::Parameter::is_valid))]
    fn is_valid(self) -> bool
        ensures { result ≡ is_valid self }
    {
        match self {
            Param::None => true,
            Param::Scalar { lo, hi } => lo <= hi,
            Param::Buffer { size, .. } => size <= MAX_BUFFER_SIZE,
        }
    }

    #[tactic(auto, unfolding(crate::specs::Parameter::is_buffer))]
    fn is_buffer(self) -> bool
        ensures { result ≡ is_buffer self }
    {
        match self {
            Param::Buffer { .. } => true,
            Param::None | Param::Scalar { .. } => false,
        }
    }

    #[tactic(auto, unfolding(crate::specs::Parameter::room_of))]
    fn room(self) -> u64
        ensures { result ≡ room_of self }
    {
        match self {
            Param::None | Param::Scalar { .. } => 0,
            Param::Buffer { size, .. } => {
                let page = u64::from(PAGE_SIZE);
                (u64::from(size) + page - 1) / page * page + page
            }
        }
    }
}

/// Why arguments don't match their parameters: the place, from 0 on.
#[derive(Clone, Copy, Debug, PartialEq, Eq)]
pub enum ArgError {
    /// The argument is of another kind than the parameter.
    WrongKind(usize),
    /// The scalar lies outside the parameter's interval.
    ScalarOutOfInterval(usize),
    /// The buffer is not of the parameter's size.
    WrongSize(usize),
}

impl fmt::Display for ArgError {
    ghost use Rattle.std.specs.Prelude.{Some};
    ghost use Rattle.region_mem.specs.Parameter.{error_text};

    ghost output = { λ error. Some (error_text error) };

    fn fmt<W: fmt::Write>(&self, f: &mut fmt::Formatter<W>) -> fmt::Result {
        match self {
            ArgError::WrongKind(place) => write!(f, "argument {place} is of the wrong kind"),
            ArgError::ScalarOutOfInterval(place) => write!(
                f,
                "argument {place} is out of its interval"
            ),
            ArgError::WrongSize(place) => write!(
                f,
                "argument {place} is a buffer of the wrong size"
            ),
        }
    }
}

impl Error for ArgError {}

fn are_valid(params: &[Param]) -> bool
    ensures { result ≡ list_all is_valid params.now }
{
    params.iter().all(|param| param.is_valid())
}

/// How many bytes lie from the first buffer's address to that of one behind these parameters.
fn room_before(params: &[Param]) -> u64
    requires { sum_by room_of params.now < 2 ^ 31 }
    ensures { result ≡ sum_by room_of params.now }
{
    params.iter().map(|param| param.room()).sum()
}

/// A kernel's parameters, by place, each of them valid.
#[derive(Clone, Copy)]
pub struct Parameters {
    params: [Param; 8],
}

impl Model for Parameters {
    ghost use Rattle.std.specs.Prelude.{◌≡◌, List, true};
    ghost use Rattle.std.specs.List.{list_all};
    ghost use Rattle.region_mem.specs.declared.parameter.Param.{Param};
    ghost use Rattle.region_mem.specs.Parameter.{is_valid};

    ghost Value = { List Param };

    ghost view = { λ p. p.params };

    ghost invariant = { λ p. list_all is_valid p.params ≡ true };

    ghost inverse = { λ params. record { params = params } };
}

impl Parameters {
    /// The parameters, or None where a scalar's `lo` is above its `hi` or a buffer is larger than 16 MiB.
    #[tactic(auto, unfolding(crate::specs::Parameter::parameters_of))]
    pub fn new(params: [Param; 8]) -> Option<Parameters>
        ensures { result ≡ parameters_of params }
    {
        if are_valid(&params) {
            Some(Parameters { params })
        } else {
            None
        }
    }

    /// What the kernel takes at a place.
    pub fn param(&self, place: usize) -> Param
        requires { place < 8 }
        ensures { slice_get self.now place ≡ Some result }
    {
        self.params[place]
    }

    /// What the kernel takes, by place.
    pub fn to_array(&self) -> [Param; 8]
        ensures { result ≡ self.now }
    {
        self.params
    }

    /// The address of the buffer at a place, None where the place has no buffer.
    #[tactic(auto, using(crate::specs::RoomLemmas::sum_by_room), unfolding(crate::specs::Parameter::address_of))]
    pub fn address(&self, place: usize) -> Option<u32>
        ensures value { result ≡ address_of place self.now }
        ensures low { IfSome result (λ address. address < BUFFERS_END) }
    {
        let param = *self.params.get(place)?;
        if param.is_buffer() {
            Some(BUFFERS + room_before(&self.params[..place]) as u32)
        } else {
            None
        }
    }

    /// The buffers of arguments that match have at most 16 MiB.
    #[tactic(auto, using(crate::specs::MatchingLemmas::sizes_of_matching))]
    pub(crate) fn sizes_are_bounded<A: Allocator>(&self, args: &Args<Bytes<A>>)
        requires { AreArguments self.now args.now.places }
        ensures { AllByRecursion (λ arg. size_of arg ≤ MAX_BUFFER_SIZE) args.now.places }
    {
        let _param = &self.params[7];
        let _arg = &args.places[7];
    }

    /// The regions that a run starts with stand in order, and none passes the last address.
    pub(crate) fn start_is_placed<A: Allocator, B: Allocator>(
        &self,
        image: &Image<B>,
        args: &Args<Bytes<A>>,
    )
        requires { AreArguments self.now args.now.places }
        ensures { ArePlaced (start_memory image.now self.now args.now.places).areas }
    {
        let _entry = image.entry();
        let _param = &self.params[7];
        let _arg = &args.places[7];
    }

    /// Whether the arguments are of the parameters' kinds, then whether each scalar lies in its interval, then whether
    /// each buffer has its parameter's size. The first of these that fails is the answer, at the lowest place where it does.
    #[tactic(auto, unfolding(crate::specs::Parameter::argument_error, crate::specs::Parameter::refused_by))]
    pub fn matches<A: Allocator>(&self, args: &Args<Bytes<A>>) -> Result<(), ArgError>
        ensures meaning { result ≡ refused_by (argument_error self.now args.now.places) }
        ensures matching { OnOk result (AreArguments self.now args.now.places) }
    {
        if let Some(place) = wrong_kind(&self.params, &args.places) {
            return Err(ArgError::WrongKind(place));
        }
        if let Some(place) = out_of_interval(&self.params, &args.places) {
            return Err(ArgError::ScalarOutOfInterval(place));
        }
        if let Some(place) = wrong_size(&self.params, &args.places) {
            return Err(ArgError::WrongSize(place));
        }
        Ok(())
    }
}

fn wrong_kind<A: Allocator>(params: &[Param], args: &[Arg<Bytes<A>>]) -> Option<usize>
    ensures { result ≡ position is_wrong_kind (zip params.now args.now) }
{
    params
        .iter()
        .zip(args)
        .position(|(param, arg)| is_wrong_kind(param, arg))
}

fn out_of_interval<A: Allocator>(params: &[Param], args: &[Arg<Bytes<A>>]) -> Option<usize>
    ensures { result ≡ position is_out_of_interval (zip params.now args.now) }
{
    params
        .iter()
        .zip(args)
        .position(|(param, arg)| is_out_of_interval(param, arg))
}

fn wrong_size<A: Allocator>(params: &[Param], args: &[Arg<Bytes<A>>]) -> Option<usize>
    ensures { result ≡ position is_wrong_size (zip params.now args.now) }
{
    params
        .iter()
        .zip(args)
        .position(|(param, arg)| is_wrong_size(param, arg))
}

#[tactic(auto, unfolding(crate::specs::Parameter::is_wrong_kind))]
fn is_wrong_kind<A: Allocator>(param: &Param, arg: &Arg<Bytes<A>>) -> bool
    ensures { result ≡ is_wrong_kind (param.now, arg.now) }
{
    match (param, arg) {
        (Param::None, Arg::None) => false,
        (Param::Scalar { .. }, Arg::Scalar(_)) => false,
        (Param::Buffer { .. }, Arg::Buffer(_)) => false,
        _ => true,
    }
}

#[tactic(auto, unfolding(crate::specs::Parameter::is_out_of_interval))]
fn is_out_of_interval<A: Allocator>(param: &Param, arg: &Arg<Bytes<A>>) -> bool
    ensures { result ≡ is_out_of_interval (param.now, arg.now) }
{
    match (param, arg) {
        (Param::Scalar { lo, hi }, Arg::Scalar(value)) => !(*lo <= *value && *value <= *hi),
        _ => false,
    }
}

#[tactic(auto, unfolding(crate::specs::Parameter::is_wrong_size))]
fn is_wrong_size<A: Allocator>(param: &Param, arg: &Arg<Bytes<A>>) -> bool
    ensures { result ≡ is_wrong_size (param.now, arg.now) }
{
    match (param, arg) {
        (Param::Buffer { size, .. }, Arg::Buffer(bytes)) => bytes.len() != *size as usize,
        _ => false,
    }
}

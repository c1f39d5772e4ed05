//! Arguments with parameters that they match, and the memory of an image with them.

ghost use Rattle.std.specs.Prelude.{◌<◌};

use crate::fields::RowError;
use elf_image::Image;
use region_mem::{Arg, Args, Bytes, Mode, Param, Parameters, Regions};
use std::alloc::Global;

/// Arguments, and for each of them a parameter that takes just these.
#[derive(Drop)]
pub struct Given {
    pub params: [Param; 8],
    pub args: Args,
}

impl Given {
    /// No argument at any place.
    pub(crate) fn none() -> Given {
        Given {
            params: [Param::None; 8],
            args: Args::none(),
        }
    }

    /// Gives a scalar at a place.
    pub(crate) fn put_scalar(&mut self, place: usize, value: u32)
        requires { place < 8 }
    {
        self.params[place] = Param::Scalar {
            lo: value,
            hi: value,
        };
        self.args.places[place] = Arg::Scalar(value);
    }

    /// Gives a buffer at a place.
    pub(crate) fn put_buffer(&mut self, place: usize, mode: Mode, bytes: Vec<u8>)
        requires { place < 8 }
    {
        let size = u32::try_from(bytes.len()).unwrap_or(u32::MAX);
        self.params[place] = Param::Buffer { mode, size };
        self.args.places[place] = Arg::Buffer(Bytes::new(bytes));
    }
}

/// The memory in which a run of the image starts.
pub(crate) fn regions(alloc: Global, image: &Image, given: Given) -> Result<Regions, RowError> {
    let Given { params, args } = given;
    let parameters = Parameters::new(params).ok_or(RowError::NoRow)?;
    if parameters.matches(&args).is_err() {
        return Err(RowError::NoRow);
    }
    match Regions::new(alloc, image, &parameters, args) {
        Ok(regions) => Ok(regions),
        Err(_) => Err(RowError::NoMemory),
    }
}

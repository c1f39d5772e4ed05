//! The memory of a kernel's run: the image's segments, the stack and the caller's buffers, each a region with its
//! rights, behind loads, stores and fetches that test every byte.
//!
//! Contracts see `Regions` as a `Memory`: a list of areas in the order of their first addresses, and what the eight
//! places were passed.
#![tactic(auto)]

mod areas;
mod arguments;
mod digits;
mod faults;
mod laws;
mod layout;
mod memory;
mod parameter;
mod region;
mod stack;
mod start;
mod walk;

pub use arguments::{Arg, Args, Bytes, Passed};
pub use digits::Digits;
pub use faults::{Fault, Right};
pub use laws::{
    args_bring_bytes, fetches_nothing_above, gives_arguments_back, lent_windows_are_written,
    loads_fit, loads_in_windows, starts_code_safe, starts_in_order, starts_inside,
    starts_with_bytes, starts_with_code, starts_with_nothing_else, stores_in_windows,
    stores_keep_bytes, stores_keep_code, stores_keep_extents, stores_keep_unwritable,
};
pub use layout::{
    BUFFERS, BUFFERS_END, MAX_BUFFER_SIZE, PAGE_SIZE, STACK, STACK_END, STACK_SIZE,
    layout_in_numbers,
};
pub use memory::Regions;
pub use parameter::{ArgError, Mode, Param, Parameters};
pub use stack::Stack;

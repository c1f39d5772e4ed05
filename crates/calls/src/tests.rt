//! The tests, by what they try.

mod accesses;
mod assertions;
mod attached;
mod chunks;
mod fixed_point;
mod fixture;
mod forms;
mod groups;
mod images;
mod integers;
mod lanes;
mod masks;
mod memory;
mod scalar_steps;
mod vector_steps;
mod words;

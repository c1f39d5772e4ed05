//! Kernels at lengths around whole chunks. What is expected of an element comes from the call on one element.

mod fixed_point;
mod integers;
mod lengths;
mod masks;
mod registers;

//! Instructions as text: the mnemonic, and the operands by name, written to whatever takes bytes.
#![tactic(auto)]

mod accesses;
mod arithmetic;
mod fields;
mod listing;
mod masks;
mod moves;
mod names;
mod permutations;
mod pieces;
mod reductions;
mod scalar;
mod shapes;
mod sink;

pub use listing::put_listing;
pub use pieces::{Piece, put_all};
pub use sink::{Failed, Outlet, Over, Sink, Stream, print, put};

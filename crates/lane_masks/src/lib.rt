//! Lanes of masks, folds and permutations: mask logic, set-before-first and its kin, counts, folds over active elements,
//! slides, gathers and compressions, each over whole slices.
#![tactic(auto)]

mod chunks;
mod counts;
mod folds;
mod lane;
mod logic;
mod permutations;

pub use chunks::chunk_u8;
pub use counts::{count, first, index, iota, set_first};
pub use folds::{fold, fold_extended};
pub use lane::FoldLane;
pub use logic::combine;
pub use permutations::{compress, gather, slide_down, slide_one_down, slide_one_up, slide_up};

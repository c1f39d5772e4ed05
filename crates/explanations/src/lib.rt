//! Why a file is no image, or a note no certificate: what stands there, and what is wanted.
//!
//! Each reason is a value, whose text is one or more lines. Each line begins with two spaces and ends in a newline.
#![tactic(auto)]

mod address;
mod certificate;
mod headers;
mod image;
mod refusal;
mod words;

pub use address::Address;
pub use certificate::{CertificateReason, LastBytes, refusal_reason};
pub use image::ImageReason;
pub use refusal::Refusal;
pub use words::{WordLine, listed};

//! How certificates, the check and runs are used: tests of the public calls of `machine`,
//! `cert_note`, `block_checker` and `sandbox_run`, and of calls that are refused memory.
#![tactic(auto)]

#[cfg(test)]
mod refusing;
#[cfg(test)]
mod tests;

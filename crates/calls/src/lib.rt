//! How the libraries' calls are used: tests that need public calls alone stand here, so that each library is proved without tests
//! of its own.
#![tactic(auto)]

#[cfg(test)]
mod tests;

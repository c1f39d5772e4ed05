//! How the program is called, and how reasons are told: tests of what it does over files in memory, and of the calls that tell
//! reasons, each once. The text for each kind of error is tried by `program_rows`, on tables.
#![tactic(auto)]

#[cfg(test)]
mod tests;

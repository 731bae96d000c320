//! Tests in Rust of the cycle and the crates that it is built from: runs in memory, copies,
//! measures and writers that fail, a clock of a test's own for the lines about progress, and calls
//! of the public functions.
#![tactic(auto)]

#[cfg(test)]
mod copied;
#[cfg(test)]
mod found;
#[cfg(test)]
mod in_memory;
#[cfg(test)]
mod keepers;
#[cfg(test)]
mod outputs;
#[cfg(test)]
mod progress_lines;
#[cfg(test)]
mod repositories;
#[cfg(test)]
mod surface;

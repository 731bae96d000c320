//! Tests in Rust of `leaves`: runs that are cut off at each of their calls, on files in memory.
#![tactic(auto)]

#[cfg(test)]
mod histories;
#[cfg(test)]
mod memory;
#[cfg(test)]
mod surface;

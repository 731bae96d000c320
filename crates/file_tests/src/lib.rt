//! Tests in Rust of the crates for files, keys and folders; and what tests of a cycle share with
//! them: a folder in memory that fails, single files and a destination of copies in memory, and a
//! judge that is out of memory once.
#![tactic(auto)]

mod desk;
#[cfg(test)]
mod doubles;
#[cfg(test)]
mod folders;
#[cfg(test)]
mod forms;
mod judges;
mod kept;
#[cfg(test)]
mod measures;
#[cfg(test)]
mod sealing;
mod stored;
#[cfg(test)]
mod surface;
#[cfg(test)]
mod thresholds;

pub use desk::Desk;
pub use judges::Counting;
pub use kept::{Kept, Piece};
pub use stored::Memory;

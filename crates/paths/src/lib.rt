//! Lists of paths.
//!
//! - [`read_list`] gives the paths of a list in a file: each path ends with a line feed or another
//!   byte.
//! - [`paths_of_names`] gives the paths that names of target files stand for.
//! - [`once_in_order`] sorts paths, and drops those that are there already.
#![tactic(auto)]

mod list;
mod names;

pub use list::read_list;
pub use names::{once_in_order, paths_of_names};

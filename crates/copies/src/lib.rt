//! Copies of files below a folder, each stored in one step.
//!
//! - [`Destination`] is what copies are stored in. A copy is written to a temporary file, which
//!   then takes its path or is removed. One that is there already is compared, and stays if it has
//!   the same bytes.
//! - [`Compared`] is an open file that is compared.
//! - [`is_below`] is whether a copy may have a path, and [`are_below`] whether copies may have all
//!   of a list.
//! - [`Below`] is a folder of the file system.
//! - [`CopyFault`] is why a copy can't be made.
#![tactic(auto)]

mod below;
mod destination;
mod fault;
mod path;
mod standing;
mod temporary;

pub use below::{Below, NewFile};
pub use destination::Destination;
pub use fault::{CopyFault, copy_fault};
pub use path::{are_below, is_below};
pub use standing::{Compared, Whole};

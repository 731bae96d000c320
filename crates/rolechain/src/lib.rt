//! The trusted state, and the client workflow up to the top-level targets file (TUF 1.0 sections
//! 5.3 to 5.6).
#![tactic(auto)]

mod end;
mod expected;
mod fault;
mod header;
mod role;
mod roots;
mod rotation;
mod state;
mod steps;
mod text;
mod workflow;

pub use end::{End, Step};
pub use expected::{due_root, due_snapshot, due_timestamp, place_of};
pub use fault::StateFault;
pub use header::headers;
pub use role::{Role, examine_role};
pub use roots::{LAST_VERSION, MOST_ROOTS};
pub use state::Trusted;
pub use workflow::advance;

//! A board of checks that several threads decide, each check once. Each thread has a seat. A seat
//! claims a check and publishes its verdict, or looks at what other seats published, and a verdict
//! that is seen is the truth. No call waits, and none after [`Board::new`] allocates.
#![tactic(auto)]

mod board;
mod checks;
mod look;
mod rule;
mod seat;
mod truths;
mod view;

pub use board::Board;
pub use checks::{Checks, MOST_CHECKS};
pub use look::Look;
pub use seat::{Seat, done, retire};
pub use view::View;

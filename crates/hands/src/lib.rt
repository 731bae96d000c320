//! The numbers of checks, dealt to workers in even parts: one deque a worker, from which the others
//! may steal.
//!
//! - [`deal`] makes a [`Hand`] for each worker.
//! - [`Hand::next`] gives a worker its next number: one of its own, and one of another hand's only
//!   if its own deque is empty.
//! - [`Hand::turn`] gives a number's place if the parts are taken in turns.
#![tactic(auto)]

mod dealing;
mod deck;
mod hand;
mod rule;
mod source;
mod turn;

pub use dealing::deal;
pub use hand::Hand;

//! What a seat knows, for contracts only.

use std::collections::LinkedList;

/// What a seat knows. No value of this type is made: it is for contracts only, which read the lists
/// as plain lists.
pub struct View {
    /// The truths of the board's checks, in order.
    pub truths: LinkedList<bool>,
    /// The check that the seat has claimed.
    pub right: Option<usize>,
    /// The checks whose verdicts the seat has seen.
    pub seen: LinkedList<usize>,
    /// The checks whose verdicts the seat published, its own and those of seats that joined it.
    pub done: LinkedList<usize>,
    /// Whether the seat knows of a stop.
    pub halted: bool,
    /// The word that the seat's last look found, if it has looked.
    pub found: Option<u64>,
}

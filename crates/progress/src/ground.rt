//! The clock and the place for lines.

use std::rt::Clock;

/// A clock, and a place where lines are printed.
pub trait Ground {
    /// Returns the milliseconds of a steady clock, or None if it can't be read.
    fn millis(&self) -> Option<u64>;

    /// Prints a line, which it ends with a line feed.
    fn print(&self, line: &str);
}

/// The system's steady clock and standard error. A line that can't be printed is left out.
impl Ground for HostRuntime {
    fn millis(&self) -> Option<u64> {
        let Ok(time) = self.monotonic() else {
            return None;
        };
        match u64::try_from(time.as_millis()) {
            Ok(millis) => Some(millis),
            Err(_) => None,
        }
    }

    fn print(&self, line: &str) {
        let _ = eprintln!(self; "{line}");
    }
}

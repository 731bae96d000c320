//! Comparison of a step's output with the expected one.

use anyhow::Result;
use std::alloc::Global;

/// Returns whether the lines are as expected. An expected `...` matches any lines, and `...` at a
/// line's end any text.
pub fn is_as_expected(alloc: Global, expected: &[String], given: &[String]) -> Result<bool> {
    // for each count of given lines, whether the expected lines so far match that number of them
    let mut reached = of_no_line(alloc, given)?;
    for line in expected {
        reached = if line.as_str() == "..." {
            after_any(alloc, reached.as_slice())?
        } else {
            after_line(alloc, reached.as_slice(), line.as_str(), given)?
        };
    }
    Ok(reached.last() == Some(&true))
}

fn of_no_line(alloc: Global, given: &[String]) -> Result<Vec<bool>> {
    let mut reached = Vec::new(alloc);
    reached.push(true)?;
    for _ in given {
        reached.push(false)?;
    }
    Ok(reached)
}

fn after_any(alloc: Global, reached: &[bool]) -> Result<Vec<bool>> {
    let mut next = Vec::new(alloc);
    let mut is_reached = false;
    for here in reached {
        is_reached = is_reached || *here;
        next.push(is_reached)?;
    }
    Ok(next)
}

fn after_line(alloc: Global, reached: &[bool], line: &str, given: &[String]) -> Result<Vec<bool>> {
    let mut next = Vec::new(alloc);
    next.push(false)?;
    for (here, given) in reached.iter().zip(given.iter()) {
        next.push(*here && fits(line, given.as_str()))?;
    }
    Ok(next)
}

fn fits(expected: &str, given: &str) -> bool {
    match expected.strip_suffix("...") {
        Some(front) => given.starts_with(front),
        None => given == expected,
    }
}

//! A small repository, from which the tests begin.

use crate::repositories::{made, string};
use cycle::Repo;
use std::process::Abort;

/// One key for all roles, a target of three bytes, and a delegated role with one of one byte.
const SCRIPT: &str = "key 1 5 4
top root 1 1
top timestamp 1 1
top snapshot 1 1
top targets 1 1
target targets abc.txt 616263 sha256
delegate targets a 1 1 go paths x/*
target a x/1 31 sha256
write root 1 1
write targets 1 1
write a 1 1
write snapshot 1 1
write timestamp 1 1
";

/// Makes the repository.
pub fn repository<R: Abort + AllocGlobal>(rt: &R) -> Repo {
    made(rt, SCRIPT)
}

/// Returns the paths of the two targets.
pub fn wanted<R: Abort + AllocGlobal>(rt: &R) -> [String; 2] {
    [string(rt, "abc.txt"), string(rt, "x/1")]
}

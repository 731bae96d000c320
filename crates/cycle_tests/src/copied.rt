//! Copies of the files that searches found.

use crate::found::{LINES, PLAIN, course, wanted};
use crate::repositories::made;
use copies::CopyFault;
use cycle::Outcome;
use file_tests::{Kept, Memory, Piece};
use folder::Folder;
use measured::{Copied, close, measure_into};
use report::{Told, tell};
use std::process::Abort;

/// An outcome, and the copies by position.
#[derive(Drop)]
struct Ended {
    outcome: Outcome,
    copies: Vec<Option<Piece>>,
}

/// Ends the course of the wanted paths `a`, `b`, `a` and `d`, with copies. The file `b` has that
/// text.
fn copied<R: Abort + AllocGlobal>(rt: &R, b: &str, to: &mut Kept) -> Result<Ended, CopyFault> {
    let files = [("a", "a"), ("b", b), ("c", "ccc")];
    let mut targets = Memory::of(rt.alloc(), &files, u64::MAX).expect(rt, "memory");
    closed(rt, &mut targets, to)
}

/// Ends the course with the files of that folder.
fn closed<R: Abort + AllocGlobal, F: Folder>(
    rt: &R,
    targets: &mut F,
    to: &mut Kept,
) -> Result<Ended, CopyFault> {
    let course = course(rt, &made(rt, PLAIN), &wanted(rt));
    let names = targets.names(rt.alloc()).expect(rt, "names");
    let copied = measure_into(rt.alloc(), &course, targets, names, to)?;
    let Copied { known, copies } = copied;
    let outcome = close(rt.alloc(), course, &known).expect(rt, "memory");
    Ok(Ended { outcome, copies })
}

/// Returns the bytes of the copy at that place, if there is one.
fn copy_at(copied: &Ended, place: usize) -> Option<&[u8]> {
    Some(copied.copies.get(place)?.as_ref()?.bytes())
}

#[test]
fn each_found_file_is_copied_once(rt: HostRuntime) {
    let mut to = Kept::working();
    let copied = copied(&rt, "bb", &mut to).expect(&rt, "copies");
    assert!(rt; copied.copies.len() == 4);
    assert!(rt; copy_at(&copied, 0) == Some(b"a".as_slice()));
    assert!(rt; copy_at(&copied, 1) == Some(b"bb".as_slice()));
    assert!(rt; copy_at(&copied, 2).is_none() && copy_at(&copied, 3).is_none());
    assert!(rt; to.made() == 2 && to.left() == 2);
    let Ended { outcome, copies } = copied;
    drop(copies);
    let told = Told::plain(rt.alloc(), outcome);
    let mut lines = Vec::new(rt.alloc());
    tell(rt.alloc(), &told, &wanted(&rt), &mut lines).expect(&rt, "memory");
    assert!(rt; lines.as_slice() == LINES.as_bytes());
}

#[test]
fn a_copy_of_other_bytes_is_removed(rt: HostRuntime) {
    let mut to = Kept::working();
    let copied = copied(&rt, "bc", &mut to).expect(&rt, "copies");
    assert!(rt; copy_at(&copied, 0) == Some(b"a".as_slice()));
    assert!(rt; copy_at(&copied, 1).is_none());
    assert!(rt; to.made() == 2 && to.left() == 1);
}

#[test]
fn a_copy_that_cant_be_written_is_an_output_error(rt: HostRuntime) {
    for (begins, finishes) in [(false, true), (true, false)] {
        let mut to = Kept::with(begins, finishes);
        assert!(rt; matches!(copied(&rt, "bb", &mut to), Err(CopyFault::Output)));
    }
}

#[test]
fn a_copy_that_is_there_stays_if_it_has_the_same_bytes(rt: HostRuntime) {
    let mut to = Kept::holding("bb");
    let copied = copied(&rt, "bb", &mut to).expect(&rt, "copies");
    assert!(rt; copy_at(&copied, 0) == Some(b"a".as_slice()));
    assert!(rt; copy_at(&copied, 1) == Some(b"bb".as_slice()));
    assert!(rt; to.made() == 1 && to.left() == 1);
}

#[test]
fn a_copy_that_is_there_is_replaced_if_it_has_other_bytes(rt: HostRuntime) {
    for there in ["cb", "bc", "b", "bbb", ""] {
        let mut to = Kept::holding(there);
        let copied = copied(&rt, "bb", &mut to).expect(&rt, "copies");
        assert!(rt; copy_at(&copied, 1) == Some(b"bb".as_slice()));
        assert!(rt; to.made() == 2 && to.left() == 2);
    }
}

#[test]
fn a_copy_that_is_there_is_none_of_a_file_that_is_refused(rt: HostRuntime) {
    let mut to = Kept::holding("bc");
    let copied = copied(&rt, "bc", &mut to).expect(&rt, "copies");
    assert!(rt; copy_at(&copied, 1).is_none());
    assert!(rt; to.made() == 1 && to.left() == 1);
}

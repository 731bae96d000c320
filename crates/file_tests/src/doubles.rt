//! Single files and a destination of copies in memory.

use crate::desk::Desk;
use crate::kept::Kept;
use copies::Destination;
use folder::Sink;
use std::io::ErrorKind;
use std::process::Abort;
use system::System;

#[test]
fn what_was_stored_is_read(rt: HostRuntime) {
    let mut desk = Desk::new(rt.alloc(), None);
    assert!(rt; matches!(desk.read("a", 9), Err(error) if error.kind() == ErrorKind::NotFound));
    desk.store("a", b"1").expect(&rt, "memory");
    desk.store("a", b"22").expect(&rt, "memory");
    assert!(rt; desk.read_locked("a", 2).expect(&rt, "a file").as_slice() == b"22".as_slice());
    assert!(rt; desk.is_locked("a") && !desk.is_locked("b"));
    assert!(rt; matches!(desk.read("a", 1), Err(error) if error.kind() == ErrorKind::FileTooLarge));
    assert!(rt; desk.file("a") == Some(b"22".as_slice()) && desk.seconds().is_none());
}

#[test]
fn a_temporary_file_is_installed(rt: HostRuntime) {
    let (mut desk, mut to) = (Desk::new(rt.alloc(), Some(7)), Kept::working());
    let mut file = to.begin(rt.alloc()).expect(&rt, "a file");
    file.take(b"1");
    file.take(b"2");
    to.finish(&mut file).expect(&rt, "a file");
    let place = to.place_for(rt.alloc(), "a").expect(&rt, "a place");
    desk.install(&file, place.as_str()).expect(&rt, "memory");
    assert!(rt; file.bytes() == b"12".as_slice() && place.as_str() == "to/a");
    assert!(rt; desk.is_installed("to/a") && !desk.is_installed("a"));
    to.clear(rt.alloc());
    assert!(rt; to.left() == 0 && desk.seconds() == Some(7));
}

//! Texts that are written, and failures that are printed.

use failure::{Failure, tell_failure};
use inout::put;
use report::root_line;
use std::io::{self, ErrorKind, Write};

/// A writer whose writes all fail.
#[derive(Drop)]
struct Refuses;

impl Write for Refuses {
    fn write(&mut self, _bytes: &[u8]) -> io::Result<usize> {
        Err(io::Error::from(ErrorKind::BrokenPipe))
    }

    fn flush(&mut self) -> io::Result<()> {
        Ok(())
    }
}

#[test]
fn lines_are_put(rt: HostRuntime) {
    let line = root_line(rt.alloc(), u64::MAX).expect(&rt, "memory");
    let mut out = Vec::new(rt.alloc());
    put(&mut out, line.as_str()).expect(&rt, "memory");
    assert_eq!(rt; out.as_slice(), b"root 18446744073709551615\n".as_slice());
    assert_eq!(rt;
        put(&mut Refuses, line.as_str()).err(),
        Some(Failure::Output)
    );
}

#[test]
fn failures_are_printed(rt: HostRuntime) {
    let rows = [
        (Failure::Words, 3, "tufcheck: words\n"),
        (Failure::Now, 3, "tufcheck: now\n"),
        (Failure::State, 3, "tufcheck: state file\n"),
        (Failure::Script(12), 3, "tufcheck: script 12\n"),
        (Failure::Input, 4, "tufcheck: input\n"),
        (Failure::Folder, 4, "tufcheck: folder\n"),
        (Failure::Clock, 4, "tufcheck: clock\n"),
        (Failure::Output, 4, "tufcheck: output\n"),
        (Failure::Memory, 4, "tufcheck: memory\n"),
    ];
    for (failure, status, line) in rows {
        let mut err = Vec::new(rt.alloc());
        tell_failure(failure, &mut err).expect(&rt, "memory");
        assert_eq!(rt; failure.status(), status);
        assert_eq!(rt; err.as_slice(), line.as_bytes());
        assert!(rt; tell_failure(failure, &mut Refuses).is_err());
    }
}

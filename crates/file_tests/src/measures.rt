//! Measures of what a reader returns, a piece at a time.

use folder::{Measure, Need};
use std::io::{self, ErrorKind, Read};
use std::process::Abort;

/// Lengths, and what `sha256sum` and `sha512sum` print of that many first bytes of the pattern,
/// which another program wrote.
const DIGESTS: [(usize, &str, &str); 4] = [
    (
        0,
        "e3b0c44298fc1c149afbf4c8996fb92427ae41e4649b934ca495991b7852b855",
        "cf83e1357eefb8bdf1542850d66d8007d620e4050b5715dc83f4a921d36ce9ce\
47d0d13c5d85f2b0ff8318d2877eec2f63b931bd47417a81a538327af927da3e",
    ),
    (
        1,
        "6e340b9cffb37a989ca544e6bb780a2c78901d3fb33738768511a30617afa01d",
        "b8244d028981d693af7b456af8efa4cad63d282e19ff14942c246e50d9351d22\
704a802a71c3580b6370de4ceb293c324a8423342557d4e5c38438f0e36910ee",
    ),
    (
        65_536,
        "4b640d85ab3ba30fd02c9fc9db4a8928f416322ad27022ea58a65aaee68a4df2",
        "ca073ef2daf10b6e3b761d5db007b8f609c7de85419ed2319fdfd35cc4c4e1f7\
feb61e5618d9d574552b7e2788d674d7144ea2062b1500173528afb3352e55a4",
    ),
    (
        65_537,
        "237356e18b503616912abb8ffaed3a72591e397d4ac294c4637917d48a3f529d",
        "40224346b91b835ee1ed51d2c849bc6701ea8d969c8038bea206d19118ef30ec\
5a37d52330d38ef3c8938fc86319dc9869fc65935223753c54535abc8980bac3",
    ),
];

/// A reader of bytes in memory that returns pieces up to a size. Its first calls succeed, and all
/// later ones fail.
struct Pieces {
    bytes: Vec<u8>,
    at: usize,
    piece: usize,
    calls: u64,
}

impl Drop for Pieces {
    fn drop(self) {
        let Pieces {
            bytes,
            at,
            piece,
            calls,
        } = self;
    }
}

impl Read for Pieces {
    fn read(&mut self, room: &mut [u8]) -> io::Result<usize> {
        if self.calls == 0 {
            return Err(io::Error::from(ErrorKind::ConnectionReset));
        }
        self.calls -= 1;
        let rest = self.bytes.get(self.at..).unwrap_or(&[]);
        let count = rest.len().min(room.len()).min(self.piece);
        room[..count].copy_from_slice(&rest[..count]);
        self.at = self.at.saturating_add(count);
        Ok(count)
    }
}

/// Returns the reader of `count` bytes of the pattern, which goes through 0 to 250 again and again.
fn reader_of<R: Abort + AllocGlobal>(rt: &R, count: usize, piece: usize, calls: u64) -> Pieces {
    let mut bytes = Vec::with_capacity(rt.alloc(), count).expect(rt, "memory");
    for place in 0..count {
        bytes.push((place % 251) as u8).expect(rt, "memory");
    }
    Pieces {
        bytes,
        at: 0,
        piece,
        calls,
    }
}

/// Returns the need for both digests of at most `up_to` bytes.
fn both(up_to: u64) -> Need {
    Need {
        up_to,
        sha256: true,
        sha512: true,
    }
}

/// Returns whether the measure has this length and both digests, in lower case.
fn is<R: Abort + AllocGlobal>(
    rt: &R,
    measure: &Measure,
    length: usize,
    digests: (&str, &str),
) -> bool {
    let (Some(sha256), Some(sha512)) = (measure.sha256, measure.sha512) else {
        return false;
    };
    let sha256 = hex::encode(rt.alloc(), sha256.as_slice()).expect(rt, "memory");
    let sha512 = hex::encode(rt.alloc(), sha512.as_slice()).expect(rt, "memory");
    measure.length == length as u64 && sha256.as_str() == digests.0 && sha512.as_str() == digests.1
}

/// Returns whether all lengths are measured right by pieces of that size, if `more` bytes than
/// there are may be read.
fn are_right<R: Abort + AllocGlobal>(rt: &R, piece: usize, more: u64) -> bool {
    for (count, sha256, sha512) in DIGESTS {
        let mut reader = reader_of(rt, count, piece, u64::MAX);
        let need = both((count as u64).saturating_add(more));
        let measure = Measure::of_reader(rt.alloc(), need, &mut reader).expect(rt, "a measure");
        if !is(rt, &measure, count, (sha256, sha512)) {
            return false;
        }
    }
    true
}

#[test]
fn pieces_of_any_size_are_measured(rt: HostRuntime) {
    for piece in [1_000, 32_768, 65_535, 65_536, 65_537, 100_000] {
        for more in [0, 1, 100_000] {
            assert!(rt; are_right(&rt, piece, more), "{piece} {more}");
        }
    }
}

/// Returns whether no more than `up_to` bytes of 65,537 are read and measured.
fn is_cut<R: Abort + AllocGlobal>(rt: &R, (up_to, sha256, sha512): (usize, &str, &str)) -> bool {
    let mut reader = reader_of(rt, 65_537, 100_000, u64::MAX);
    let need = both(up_to as u64);
    let measure = Measure::of_reader(rt.alloc(), need, &mut reader).expect(rt, "a measure");
    is(rt, &measure, up_to, (sha256, sha512)) && reader.at == up_to
}

#[test]
fn no_more_is_read_than_is_needed(rt: HostRuntime) {
    for row in DIGESTS {
        assert!(rt; is_cut(&rt, row), "{}", row.0);
    }
}

/// Returns the length that is measured of `count` bytes if the first `calls` calls of the reader
/// succeed, or the kind of its error.
fn length_after<R: Abort + AllocGlobal>(
    rt: &R,
    (count, piece, up_to): (usize, usize, u64),
    calls: u64,
) -> Result<u64, ErrorKind> {
    let mut reader = reader_of(rt, count, piece, calls);
    match Measure::of_reader(rt.alloc(), both(up_to), &mut reader) {
        Ok(measure) => Ok(measure.length),
        Err(error) => Err(error.kind()),
    }
}

/// Returns whether a measure needs exactly that many calls of the reader, and fails at each of
/// them.
fn takes<R: Abort + AllocGlobal>(
    rt: &R,
    row: (usize, usize, u64),
    calls: u64,
    length: u64,
) -> bool {
    for fewer in 0..calls {
        if length_after(rt, row, fewer) != Err(ErrorKind::ConnectionReset) {
            return false;
        }
    }
    length_after(rt, row, calls) == Ok(length)
}

/// Rows of how many bytes there are, how many the reader returns at once, and how many are read at
/// most; and then of how many calls that takes, and how many bytes are measured. One more call
/// finds the end, unless all is read that may be. No more than 65,536 bytes are taken at once.
#[test]
fn measures_fail_at_each_read(rt: HostRuntime) {
    let rows = [
        ((0, 100_000, 0), 0, 0),
        ((0, 100_000, 1), 1, 0),
        ((1, 100_000, 0), 0, 0),
        ((1, 100_000, 1), 1, 1),
        ((1, 100_000, 2), 2, 1),
        ((1, 100_000, u64::MAX), 2, 1),
        ((65_536, 100_000, 65_536), 1, 65_536),
        ((65_536, 100_000, 65_537), 2, 65_536),
        ((65_536, 40_000, 65_537), 3, 65_536),
        ((65_537, 100_000, 65_536), 1, 65_536),
        ((65_537, 100_000, 65_537), 2, 65_537),
        ((65_537, 100_000, 65_538), 3, 65_537),
        ((65_537, 65_535, 65_538), 3, 65_537),
    ];
    for (row, calls, length) in rows {
        assert!(rt; takes(&rt, row, calls, length), "{calls} {length}");
    }
}

#[test]
fn only_wanted_digests_are_made(rt: HostRuntime) {
    for (sha256, sha512) in [(false, false), (true, false), (false, true), (true, true)] {
        let need = Need {
            up_to: 2,
            sha256,
            sha512,
        };
        let mut reader = reader_of(&rt, 1, 1, 2);
        let measure = Measure::of_reader(rt.alloc(), need, &mut reader).expect(&rt, "a measure");
        assert_eq!(rt; measure.length, 1);
        assert_eq!(rt; measure.sha256.is_some(), sha256);
        assert_eq!(rt; measure.sha512.is_some(), sha512);
    }
}

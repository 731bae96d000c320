//! Checks of signatures and digests, and the judges that make them.

ghost use Rattle.std.specs.Prelude.{◌≡◌, ◌↔◌, IsTrue, IfOk};
ghost use Rattle.keys.specs.Keys.{question_of, truth};

use cjson::NoMemory;
use lms::Public;

/// A known hash algorithm (TUF 1.0 section 4.4).
#[derive(Clone, Copy, Debug, PartialEq, Eq)]
pub enum Algorithm {
    /// `sha256`, of 32 bytes.
    Sha256,
    /// `sha512`, of 64 bytes.
    Sha512,
}

/// Whether the text of an entry is the hexadecimal, in either case, of a valid signature of the
/// message (TUF 1.0 section 4.2).
#[derive(Clone, Copy, PartialEq)]
pub struct SignatureAsk<'a> {
    /// The name of the file that has the entry.
    pub file: &'a str,
    /// The entry's place in the file's `signatures`, from 0.
    pub place: usize,
    /// The key's public value.
    pub public: &'a Public,
    /// The canonical text of the file's `signed`.
    pub message: &'a [u8],
    /// The entry's `sig`, as the file writes it.
    pub sig: &'a str,
}

/// Whether the digest equals that of the bytes (TUF 1.0 section 4.4).
#[derive(Clone, Copy, PartialEq)]
pub struct DigestAsk<'a> {
    /// The name of the file that has the bytes.
    pub file: &'a str,
    /// The algorithm of the digest.
    pub algorithm: Algorithm,
    /// The file's bytes.
    pub bytes: &'a [u8],
    /// The digest, as bytes. One of another length than the algorithm's never matches.
    pub digest: &'a [u8],
}

/// A check of a metadata file or a target. Its result is a matter of computing: it depends on no
/// role, version or date. Names and place say where the check comes from, and don't affect the
/// result.
#[derive(Clone, Copy, PartialEq)]
pub enum Ask<'a> {
    Signature(SignatureAsk<'a>),
    Digest(DigestAsk<'a>),
}

impl Ask<'_> {
    /// Returns whether all parts of the two checks are equal, the file's name and the place
    /// included. Equal checks have one result. Does not allocate.
    pub fn same(&self, other: &Ask) -> bool
        ensures parts { IsTrue result ↔ (question_of self.now ≡ question_of other.now) }
        ensures truth { IsTrue result → truth self.now ≡ truth other.now }
    {
        self == other
    }
}

/// Makes checks, and returns only true results, either by computing or from a cache.
pub trait Judge {
    /// Returns whether the check holds. Fails only if out of memory, and can then be called again.
    fn valid(&mut self, ask: &Ask) -> Result<bool, NoMemory>
        ensures truth { IfOk result (λ b. b ≡ truth ask.now) };
}

//! Verdicts on signatures, by the file that contains them.

ghost use Rattle.std.specs.Prelude.{◌≡◌, ◌≤◌, All, IfOk, IfSome, string_bytes};
ghost use Rattle.std.specs.BTreeMap.{values};
ghost use Rattle.keys.specs.Keys.{is_signed_by, is_valid_in};

use cjson::NoMemory;
use keys::SignatureAsk;
use lms::Public;
use lru::LruCache;
use sha2::{Digest, Sha256};
use std::alloc::Global;
use std::collections::BTreeMap;
use std::num::NonZeroUsize;

/// Number of signed bytes for each file of a cache's capacity. All its files together have no more.
const BYTES_EACH: usize = 16_384;

/// Number of bytes at each end of a message by which its file is found.
const END: usize = 1_024;

/// A verdict on a signature: a key's public value, the signature's text, and whether it is valid.
struct Verdict {
    public: Public,
    sig: String,
    valid: bool,
}

impl Drop for Verdict {
    fn drop(self) {
        let Verdict { public, sig, valid } = self;
    }
}

/// A file's name and signed bytes, and verdicts by the signature's place and the key's public
/// value. Each verdict is the truth for the parts cached with it. The name serves look-up only, and
/// doesn't affect the truth.
struct Remembered {
    name: String,
    message: Vec<u8>,
    verdicts: BTreeMap<(usize, [u8; 56]), Verdict>,
    ghost truth: { All (λ v. v.valid ≡ is_signed_by v.public message.items (string_bytes v.sig))
        (values verdicts) },
}

impl Drop for Remembered {
    fn drop(self) {
        let Remembered {
            name,
            message,
            verdicts,
        } = self;
    }
}

impl Remembered {
    /// Returns a file without verdicts. Fails only if out of memory.
    fn new(alloc: Global, name: &str, message: &[u8]) -> Result<Remembered, NoMemory>
        ensures { IfOk result (λ r. r.message.items ≡ message.now) }
    {
        Ok(Remembered {
            name: String::from_str(alloc, name)?,
            message: Vec::from_slice(alloc, message)?,
            verdicts: BTreeMap::new(alloc),
        })
    }

    /// Returns the cached verdict, if all parts of the check are equal.
    fn find(&self, question: &SignatureAsk) -> Option<bool>
        ensures { IfSome result (λ b. b ≡ is_valid_in question.now) }
    {
        let key = (question.place, *question.public.bytes());
        let verdict = self.verdicts.get(&key)?;
        if self.message.as_slice() != question.message {
            return None;
        }
        answer_of(verdict, question.public, question.sig)
    }

    /// Caches a verdict in place of an earlier one at its place for its key. Fails only if out of
    /// memory.
    fn learn(&mut self, place: usize, verdict: Verdict) -> Result<(), NoMemory>
        requires { verdict.valid
            ≡ is_signed_by verdict.public self.old.message.items (string_bytes verdict.sig) }
    {
        let key = (place, *verdict.public.bytes());
        self.verdicts.insert(key, verdict)?;
        Ok(())
    }
}

/// Returns the verdict, if public value and signature's text are equal.
fn answer_of(verdict: &Verdict, public: &Public, sig: &str) -> Option<bool>
    ensures { IfSome result (λ b. (b ≡ verdict.now.valid)
        × (verdict.now.public ≡ public.now) × (string_bytes verdict.now.sig ≡ sig.now)) }
{
    if verdict.public == *public && verdict.sig.as_str() == sig {
        Some(verdict.valid)
    } else {
        None
    }
}

/// Returns a verdict with copies of the check's parts. Fails only if out of memory.
fn verdict_on(alloc: Global, question: &SignatureAsk, valid: bool) -> Result<Verdict, NoMemory>
    ensures { IfOk result (λ v. (v.valid ≡ valid) × (v.public ≡ question.now.public.now)
        × (string_bytes v.sig ≡ question.now.sig.now)) }
{
    Ok(Verdict {
        public: *question.public,
        sig: String::from_str(alloc, question.sig)?,
        valid,
    })
}

/// Verdicts on the signatures of the files that were used last, found by a digest of a file's name
/// and of the two ends of its signed bytes. Each is the truth, and is used only if the signed bytes
/// themselves are equal.
pub struct Cache {
    alloc: Global,
    files: LruCache<[u8; 32], Remembered>,
    /// Maximum number of signed bytes of all files together.
    most: usize,
    /// How many more of them there is room for.
    left: usize,
}

impl Drop for Cache {
    fn drop(self) {
        let Cache {
            alloc,
            files,
            most,
            left,
        } = self;
    }
}

impl Cache {
    /// Returns an empty cache for `capacity` files, 1 to 4,096, which together have at most 16,384
    /// signed bytes for each. The least recently used files are dropped for one more; a file that
    /// has more bytes than that alone isn't cached. Fails only if out of memory.
    pub fn new(alloc: Global, capacity: usize) -> Result<Cache, NoMemory>
        requires least { 1 ≤ capacity }
        requires most { capacity ≤ 4096 }
    {
        let capacity = match NonZeroUsize::new(capacity) {
            Some(capacity) => capacity,
            None => unreachable!(),
        };
        let most = BYTES_EACH.saturating_mul(capacity.get());
        Ok(Cache {
            alloc,
            files: LruCache::sparse(alloc, capacity)?,
            most,
            left: most,
        })
    }

    /// Returns whether the check's file may be cached. A text of another length than the key's
    /// signatures is refused without a hash, so it isn't looked up either.
    pub(crate) fn takes(&self, question: &SignatureAsk) -> bool {
        question.sig.len() / 2 == question.public.signature_len()
            && question.message.len() <= self.most
    }

    /// Returns the digest by which the check's file is found. Doesn't compute it again if the file
    /// that was used last has this name and this very message.
    pub(crate) fn digest_of(&self, question: &SignatureAsk) -> [u8; 32] {
        if let Some((digest, file)) = self.files.peek_mru() {
            if file.name.as_str() == question.file && file.message.as_slice() == question.message {
                return *digest;
            }
        }
        digest_of_parts(question.file, question.message)
    }

    /// Returns the cached verdict in the file with this digest, if all parts of the check are
    /// equal.
    pub(crate) fn find(&mut self, digest: &[u8; 32], question: &SignatureAsk) -> Option<bool>
        ensures { IfSome result (λ b. b ≡ is_valid_in question.now) }
    {
        self.files.get(digest)?.find(question)
    }

    /// Caches a verdict in the file with this digest. Fails only if out of memory, and may then
    /// have dropped verdicts.
    pub(crate) fn learn(
        &mut self,
        digest: [u8; 32],
        question: &SignatureAsk,
        valid: bool,
    ) -> Result<(), NoMemory>
        requires { valid ≡ is_valid_in question.now }
    {
        let verdict = verdict_on(self.alloc, question, valid)?;
        if let Some(file) = self.files.get_mut(&digest) {
            if file.message.as_slice() == question.message {
                return file.learn(question.place, verdict);
            }
        }
        let mut file = Remembered::new(self.alloc, question.file, question.message)?;
        file.learn(question.place, verdict)?;
        self.forget(&digest);
        self.make_room(question.message.len());
        self.files.put(digest, file)?;
        self.left = self.left.saturating_sub(question.message.len());
        Ok(())
    }

    /// Drops the file with this digest, if there is one.
    fn forget(&mut self, digest: &[u8; 32]) {
        if let Some(file) = self.files.pop(digest) {
            self.left = self.left.saturating_add(file.message.len());
        }
    }

    /// Drops the files that were used least recently, until there is room for one more of this
    /// size.
    fn make_room(&mut self, size: usize) {
        for _ in 0..self.files.len() {
            if size <= self.left && self.files.len() < self.files.cap().get() {
                return;
            }
            if let Some((_, file)) = self.files.pop_lru() {
                self.left = self.left.saturating_add(file.message.len());
            }
        }
    }
}

/// Returns the SHA-256 of the lengths of name and message, the name, and the first and the last
/// 1,024 bytes of the message, or all of a short one.
fn digest_of_parts(name: &str, message: &[u8]) -> [u8; 32] {
    let mut hasher = Sha256::new();
    hasher.update(&(name.len() as u64).to_be_bytes());
    hasher.update(&(message.len() as u64).to_be_bytes());
    hasher.update(name.as_bytes());
    if message.len() <= 2 * END {
        hasher.update(message);
    } else {
        hasher.update(message.split_at(END).0);
        hasher.update(message.split_at(message.len() - END).1);
    }
    hasher.finalize()
}

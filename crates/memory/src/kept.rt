//! A judge with a cache.

use crate::cache::Cache;
use cjson::NoMemory;
use keys::{Ask, Judge};

/// A judge that takes verdicts on signatures from a cache, if message, public value and signature's
/// text equal the cached ones. Passes all other checks to the inner judge, and caches its verdicts
/// on signatures. Digests, texts of another length than the key's signatures, and files with more
/// bytes than the cache has room for are never cached.
///
/// If there is no memory to cache a verdict, continues without caching it: fails only if the inner
/// judge does.
#[derive(Drop)]
pub struct Kept<'a, J: Judge> {
    cache: &'a mut Cache,
    inner: &'a mut J,
    taken_over: u64,
}

impl<'a, J: Judge> Kept<'a, J> {
    /// Returns a judge over this cache and this inner judge.
    pub fn new(cache: &'a mut Cache, inner: &'a mut J) -> Kept<'a, J> {
        Kept {
            cache,
            inner,
            taken_over: 0,
        }
    }

    /// Returns the number of cache hits. Saturates.
    pub fn taken_over_count(&self) -> u64 {
        self.taken_over
    }
}

impl<J: Judge> Judge for Kept<'_, J> {
    fn valid(&mut self, ask: &Ask) -> Result<bool, NoMemory> {
        let Ask::Signature(question) = ask else {
            return self.inner.valid(ask);
        };
        if !self.cache.takes(question) {
            return self.inner.valid(ask);
        }
        let digest = self.cache.digest_of(question);
        if let Some(valid) = self.cache.find(&digest, question) {
            self.taken_over = self.taken_over.saturating_add(1);
            return Ok(valid);
        }
        let valid = self.inner.valid(ask)?;
        let _ = self.cache.learn(digest, question, valid);
        Ok(valid)
    }
}

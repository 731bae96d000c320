//! The search for a path.

ghost use Rattle.std.specs.Prelude.{◌≡◌, ◌≤◌, IfOk, IsTrue, Some};
ghost use Rattle.meta.specs.Metadata.{Snapshot};
ghost use Rattle.examine.specs.Checks.{file_in};
ghost use Rattle.rolechain.specs.Advance.{is_ready};
ghost use Rattle.deleg.specs.Search as spec;
ghost use Rattle.deleg.specs.Cache.{IsCacheIn, IsCacheOf, examination_in};

use crate::accepted::Search;
use crate::cache::{Entered, RoleCache};
use crate::found::Found;
use crate::frame::Frame;
use crate::hashed::HashedPath;
use crate::query::{Query, target_of};
use crate::walk::walk;
use cjson::NoMemory;
use cjson::list::Items;
use cjson::text::Text;
use examine::Context;
use keys::Judge;
use meta::{Moment, Part, Repo, Targets};
use rolechain::Trusted;
use std::alloc::Global;

/// Searches for one path after another, below one trusted state, in one repository and at one
/// moment.
///
/// Caches the outcome of each role's examination, its file or its fault. A later visit, of any
/// search, uses it only if the delegation has an equal role name, ring, list of ids and threshold.
/// So nothing that one delegator's keys accept is accepted for another.
///
/// Caches at most 16,384 examinations, and at most 16 of one role; the others are done again. Drops
/// the cache if a search is out of memory.
#[derive(Drop)]
pub struct Searcher<'a> {
    /// The allocator.
    pub alloc: Global,
    /// The trusted state.
    pub trusted: &'a Trusted,
    /// The repository.
    pub repo: &'a Repo,
    /// The moment, in UTC.
    pub moment: Moment,
    cache: RoleCache,
    ghost truth: { IsCacheIn (file_in repo.now.metadata) moment trusted.now cache },
}

impl<'a> Searcher<'a> {
    /// Returns a searcher with an empty cache. Does not allocate.
    pub fn new(alloc: Global, trusted: &'a Trusted, repo: &'a Repo, moment: Moment) -> Searcher<'a>
        ensures trusted { result.trusted.now ≡ trusted.now }
        ensures repo { result.repo.now ≡ repo.now }
        ensures moment { result.moment ≡ moment }
    {
        Searcher {
            alloc,
            trusted,
            repo,
            moment,
            cache: RoleCache::new(alloc),
        }
    }

    /// Searches for `path` as the function [`search`] does, with a `limit` of 1 to 256; earlier
    /// searches have no influence. The trusted state must be ready.
    pub fn search<J: Judge>(
        &mut self,
        path: &str,
        limit: usize,
        judge: &mut J,
    ) -> Result<Search, NoMemory>
        requires ready { IsTrue (is_ready self.old.trusted.now) }
        requires limit { 1 ≤ limit }
        requires most { limit ≤ 256 }
        ensures preorder { let s = self.old in (v : spec.Visits) → spec.IsPreorderOf
            (file_in s.repo.now.metadata) s.moment s.trusted.now path.now limit v
            → IfOk result (λ found. spec.search_by v s.trusted.now path.now ≡ Some found) }
        ensures solved { let s = self.old in (snapshot : Snapshot)
            → spec.IsSolved (file_in s.repo.now.metadata) s.moment s.trusted.now.root.reading
            snapshot path.now limit }
        ensures searched { let s = self.old in IfOk result (λ found. spec.search_in
            (file_in s.repo.now.metadata) s.moment s.trusted.now path.now limit ≡ Some found) }
        ensures trusted { self.new.trusted.now ≡ self.old.trusted.now }
        ensures repo { self.new.repo.now ≡ self.old.repo.now }
        ensures moment { self.new.moment ≡ self.old.moment }
    {
        let trusted = self.trusted;
        let repo = self.repo;
        let snapshot = trusted.snapshot().unwrap();
        let targets = trusted.targets().unwrap();
        let query = Query {
            context: Context {
                alloc: self.alloc,
                files: &repo.metadata,
                moment: self.moment,
            },
            root: trusted.root().reading(),
            snapshot: snapshot.reading(),
            path: &HashedPath::of(path),
            limit,
        };
        search_or_again(&query, targets, &mut self.cache, judge)
    }
}

/// Searches for `path` in preorder from the trusted top-level targets file (TUF 1.0 section 5.6.7).
/// Visits each role once and at most `limit` roles, 1 to 256, the top-level role included. The
/// trusted state must be ready. Fails only if out of memory.
///
/// A delegated role's file must be listed by the trusted snapshot and signed as the delegation that
/// leads to it requires. The search ends if a role lists `path`, if a role is refused, if one more
/// visit would exceed `limit`, or if no delegation is left. A matching terminating delegation is
/// the last one tried, whether its role is visited or was visited before.
pub fn search<J: Judge>(
    alloc: Global,
    trusted: &Trusted,
    repo: &Repo,
    now: Moment,
    path: &str,
    limit: usize,
    judge: &mut J,
) -> Result<Search, NoMemory>
    requires ready { IsTrue (is_ready trusted.now) }
    requires limit { 1 ≤ limit }
    requires most { limit ≤ 256 }
    ensures preorder { (visits : spec.Visits)
        → spec.IsPreorderOf (file_in repo.now.metadata) now trusted.now path.now limit visits
        → IfOk result (λ s. spec.search_by visits trusted.now path.now ≡ Some s) }
    ensures solved { (snapshot : Snapshot) → spec.IsSolved (file_in repo.now.metadata) now
        trusted.now.root.reading snapshot path.now limit }
    ensures searched { IfOk result (λ s.
        spec.search_in (file_in repo.now.metadata) now trusted.now path.now limit ≡ Some s) }
{
    Searcher::new(alloc, trusted, repo, now).search(path, limit, judge)
}

/// Searches from the top-level targets file. If that is out of memory and something is cached,
/// drops the cache and searches again.
fn search_or_again<J: Judge>(
    query: &Query,
    targets: &Part<Targets>,
    cache: &mut RoleCache,
    judge: &mut J,
) -> Result<Search, NoMemory>
    requires cache { IsCacheOf (examination_in query.now) cache.old }
    ensures searched { let q = query.now in IfOk result (λ s. s ≡ spec.search_from
        (file_in q.context.files.now) q.context.moment q.root.now q.snapshot.now q.path.now
        q.limit targets.now.reading) }
    ensures cache { IsCacheOf (examination_in query.now) cache.new }
{
    match search_from(query, targets, cache, judge) {
        Err(NoMemory) if !cache.is_empty() => {
            *cache = RoleCache::new(query.context.alloc);
            search_from(query, targets, cache, judge)
        }
        found => found,
    }
}

/// Searches from the top-level targets file.
fn search_from<J: Judge>(
    query: &Query,
    targets: &Part<Targets>,
    cache: &mut RoleCache,
    judge: &mut J,
) -> Result<Search, NoMemory>
    requires cache { IsCacheOf (examination_in query.now) cache.old }
    ensures searched { let q = query.now in IfOk result (λ s. s ≡ spec.search_from
        (file_in q.context.files.now) q.context.moment q.root.now q.snapshot.now q.path.now
        q.limit targets.now.reading) }
    ensures cache { IsCacheOf (examination_in query.now) cache.new }
{
    if let Some(target) = target_of(targets.reading(), query.path.as_str()) {
        let role = Text::new(String::from_str(query.context.alloc, "targets")?);
        let found = Found::Listed {
            role,
            target: target.copy(query.context.alloc)?,
            visited: 1,
        };
        let accepted = Items::new(Vec::new(query.context.alloc));
        return Ok(Search { found, accepted });
    }
    let mut stack = Vec::new(query.context.alloc);
    let top = Entered {
        file: targets.copy()?,
        held: true,
    };
    stack.push(Frame::of(query.context.alloc, top, query.path)?)?;
    walk(query, stack, cache, judge)
}

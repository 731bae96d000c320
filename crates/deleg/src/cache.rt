//! Examined roles, each cached with the delegation that it was examined for.

ghost use Rattle.std.specs.Prelude.{◌≡◌, IfSome};
ghost use Rattle.deleg.specs.Search.{edge_of};
ghost use Rattle.deleg.specs.Cache as spec;

use crate::edge::Edge;
use crate::frame::Frame;
use crate::same::is_same;
use cjson::NoMemory;
use meta::{Fault, Part, Targets};
use std::alloc::Global;
use std::collections::BTreeMap;

/// Maximum number of cached examinations.
const MOST: usize = 16_384;

/// Maximum number of cached examinations of one role.
const MOST_OF_ROLE: usize = 16;

/// Maximum length in bytes of a cached role's name. File systems have no file with a longer one.
const MOST_NAME: usize = 255;

/// A targets file that a search enters.
#[derive(Drop)]
pub(crate) struct Entered {
    /// The file.
    pub file: Part<Targets>,
    /// Whether the cache or the trusted state also has the file, so a copy needs no more memory.
    pub held: bool,
}

/// The outcome of the examination of a role, and the delegation that it was examined for: the
/// first one of the frame.
pub(crate) struct CachedRole {
    by: Frame,
    outcome: Result<Part<Targets>, Fault>,
}

impl Drop for CachedRole {
    fn drop(self) {
        let CachedRole { by, outcome } = self;
    }
}

/// Outcomes of examinations, and their places by the name of the role. Equal files of a role are
/// stored once, and so is the file of a delegator.
pub(crate) struct RoleCache {
    roles: Vec<CachedRole>,
    places: BTreeMap<String, Vec<usize>>,
}

impl Drop for RoleCache {
    fn drop(self) {
        let RoleCache { roles, places } = self;
    }
}

impl RoleCache {
    /// Returns an empty cache. Does not allocate.
    pub(crate) fn new(alloc: Global) -> RoleCache
        ensures { (x : spec.Examination) → spec.IsCacheOf x result }
    {
        RoleCache {
            roles: Vec::new(alloc),
            places: BTreeMap::new(alloc),
        }
    }

    /// Returns whether nothing is cached.
    pub(crate) fn is_empty(&self) -> bool {
        self.roles.is_empty()
    }

    /// Returns the cached outcome for the delegation's role, if it was examined for an equal name,
    /// ring, list of ids and threshold.
    pub(crate) fn find(&self, edge: &Edge) -> Option<Result<Part<Targets>, Fault>>
        ensures { (x : spec.Examination) → spec.IsCacheOf x self.now
            → IfSome result (λ r. spec.by_edge x (edge_of edge.now) ≡ r) }
    {
        for place in self.places.get(edge.name)? {
            if let Some(outcome) = self.find_at(*place, edge) {
                return Some(outcome);
            }
        }
        None
    }

    /// Returns the outcome at this place, if it is one for an equal delegation.
    fn find_at(&self, place: usize, edge: &Edge) -> Option<Result<Part<Targets>, Fault>>
        ensures { (x : spec.Examination) → spec.IsCacheOf x self.now
            → IfSome result (λ r. spec.by_edge x (edge_of edge.now) ≡ r) }
    {
        let cached = self.roles.get(place)?;
        let by = cached.by.next()?;
        if !is_same(&by, edge) {
            return None;
        }
        copy_of(&cached.outcome)
    }

    /// Returns the role's cached file if it has equal bytes, else the file itself.
    pub(crate) fn shared_file(&self, role: &str, file: Part<Targets>) -> Part<Targets>
        ensures { result ≡ file }
    {
        let Some(places) = self.places.get(role) else {
            return file;
        };
        for place in places {
            if let Some(equal) = self.equal_at(*place, &file) {
                return equal;
            }
        }
        file
    }

    /// Returns the file at this place, if it has equal bytes.
    fn equal_at(&self, place: usize, file: &Part<Targets>) -> Option<Part<Targets>>
        ensures { IfSome result (λ p. p ≡ file.now) }
    {
        match &self.roles.get(place)?.outcome {
            Ok(part) => copy_if_equal(part, file),
            Err(_) => None,
        }
    }

    /// Caches the outcome of the examination for the first delegation of `by`. Returns false, and
    /// caches nothing, if the cache is full, if it has enough examinations of the role, or if it
    /// would have to store the delegator's file for this alone. Fails only if out of memory.
    pub(crate) fn insert(
        &mut self,
        alloc: Global,
        role: &str,
        by: &Frame,
        outcome: Result<Part<Targets>, Fault>,
    ) -> Result<bool, NoMemory>
        ensures { (x : spec.Examination) → spec.IsCacheOf x self.old
            → spec.IsOutcomeOf x by.now outcome → spec.IsCacheOf x self.new }
    {
        if !by.is_held() || role.len() > MOST_NAME || !self.has_room(role) {
            return Ok(false);
        }
        let by = by.copy(alloc)?;
        let place = self.roles.len();
        self.roles.push(CachedRole { by, outcome })?;
        add_place(&mut self.places, alloc, role, place)?;
        Ok(true)
    }

    /// Returns whether one more examination of the role can be cached.
    fn has_room(&self, role: &str) -> bool {
        let of_role = self.places.get(role).map_or(0, |places| places.len());
        self.roles.len() < MOST && of_role < MOST_OF_ROLE
    }
}

/// Adds a place under the name of a role.
fn add_place(
    places: &mut BTreeMap<String, Vec<usize>>,
    alloc: Global,
    role: &str,
    place: usize,
) -> Result<(), NoMemory> {
    if let Some(found) = places.get_mut(role) {
        found.push(place)?;
        return Ok(());
    }
    let mut first = Vec::new(alloc);
    first.push(place)?;
    places.insert(String::from_str(alloc, role)?, first)?;
    Ok(())
}

/// Returns an equal outcome, which shares the file. None if it can't be copied.
fn copy_of(outcome: &Result<Part<Targets>, Fault>) -> Option<Result<Part<Targets>, Fault>>
    ensures { IfSome result (λ r. outcome.now ≡ r) }
{
    match outcome {
        Ok(part) => Some(Ok(part.copy().ok()?)),
        Err(fault) => Some(Err(*fault)),
    }
}

/// Returns a copy of the first file, if the second has equal bytes, so an equal reading. Compares
/// the versions first, since that is quick.
fn copy_if_equal(one: &Part<Targets>, other: &Part<Targets>) -> Option<Part<Targets>>
    ensures { IfSome result (λ p. p ≡ other.now) }
{
    if one.reading().header().version != other.reading().header().version
        || one.bytes() != other.bytes()
    {
        return None;
    }
    one.copy().ok()
}

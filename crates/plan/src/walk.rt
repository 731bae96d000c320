//! The targets files that the searches for the wanted paths visit if every role is accepted.

ghost use Rattle.std.specs.Prelude.{◌≡◌};

use crate::reading::{ListedAt, Reader, RoleFiles, TopLevel};
use cjson::NoMemory;
use deleg::{HashedPath, bin_of, edge_at, edge_count};
use meta::{Roles, Targets};
use std::alloc::Global;

/// Maximum length in bytes of the name of a role that is visited, and of the prefix of a file's
/// bins. File systems have no file with a longer name.
const MOST_NAME: usize = 255;

/// Maximum number of roles on the walk for a path, the top-level one included. No search visits
/// more.
const MOST_ROLES: usize = 256;

/// A file on a walk's stack: its place, the name of the path's bin in it, and the place of the
/// delegation that is tried next.
#[derive(Drop)]
struct Frame {
    file: usize,
    bin: String,
    next: usize,
}

/// The walk for a wanted path: the path's number, the path, and the files to come back to, the
/// last one first.
struct Walk<'p> {
    nth: usize,
    path: &'p HashedPath<'p>,
    stack: Vec<Frame>,
}

impl<'p> Drop for Walk<'p> {
    fn drop(self) {
        let Walk { nth, path, stack } = self;
    }
}

/// The outcome of a delegation.
#[derive(Drop)]
enum Tried {
    /// It isn't for the path, or its role was visited.
    Passed,
    /// The walk ends here.
    Ends,
    /// Its role is visited next.
    Next { role: String, terminating: bool },
}

impl Reader<'_> {
    /// Walks for each wanted path from the top-level targets file, so that a path is matched only
    /// in files to which it leads. Stops once enough targets were found for a plan, or no steps are
    /// left.
    pub(crate) fn read_roles(
        &mut self,
        top: &TopLevel,
        roles: &mut RoleFiles,
    ) -> Result<(), NoMemory>
        ensures scope { self.new.scope ≡ self.old.scope }
    {
        let first = String::from_str(self.scope.alloc, "targets")?;
        if self.place_of_role(top, first, roles)?.is_none() {
            return Ok(());
        }
        for (nth, path) in self.scope.wanted.iter().enumerate() {
            if roles.listed.len() >= self.scope.most || self.steps.are_spent() {
                break;
            }
            self.walk_for(top, nth, path.as_str(), roles)?;
        }
        Ok(())
    }

    /// Walks as a search does: in preorder and to each role once, up to the file that lists the
    /// path, to a role that can't be read, or to [`MOST_ROLES`] roles.
    fn walk_for(
        &mut self,
        top: &TopLevel,
        nth: usize,
        path: &str,
        roles: &mut RoleFiles,
    ) -> Result<(), NoMemory>
        ensures scope { self.new.scope ≡ self.old.scope }
    {
        let path = HashedPath::of(path);
        let mut walk = Walk {
            nth,
            path: &path,
            stack: Vec::new(self.scope.alloc),
        };
        let mut place = 0;
        for visited in 1..=MOST_ROLES {
            if !enter(self.scope.alloc, &mut walk, place, roles)? || visited == MOST_ROLES {
                break;
            }
            let Some(role) = self.next_role(&mut walk, roles)? else {
                break;
            };
            let Some(next) = self.place_of_role(top, role, roles)? else {
                break;
            };
            place = next;
        }
        Ok(())
    }

    /// Returns the name of the role to visit next, if any.
    fn next_role(
        &mut self,
        walk: &mut Walk,
        roles: &mut RoleFiles,
    ) -> Result<Option<String>, NoMemory>
        ensures scope { self.new.scope ≡ self.old.scope }
    {
        for _ in 0..=MOST_ROLES {
            let Some(frame) = walk.stack.pop() else {
                break;
            };
            if let Some(role) = self.next_in(walk, frame, roles)? {
                return Ok(Some(role));
            }
        }
        Ok(None)
    }

    /// Returns the name of the next role to which this file leads, if any. Puts the file back on
    /// the stack, or clears the stack if the delegation to the role is terminating.
    fn next_in(
        &mut self,
        walk: &mut Walk,
        frame: Frame,
        roles: &mut RoleFiles,
    ) -> Result<Option<String>, NoMemory>
        ensures scope { self.new.scope ≡ self.old.scope }
    {
        for place in frame.next..edge_count_of(&frame, roles) {
            match self.try_edge(walk, &frame, place, roles)? {
                Tried::Passed => {}
                Tried::Ends => {
                    walk.stack.clear();
                    return Ok(None);
                }
                Tried::Next { role, terminating } => {
                    note_followed(self.scope.alloc, &frame, place, roles)?;
                    put_back(walk, frame, place + 1, terminating)?;
                    return Ok(Some(role));
                }
            }
        }
        Ok(None)
    }

    /// Tries the delegation at this place of the file.
    fn try_edge(
        &mut self,
        walk: &Walk,
        frame: &Frame,
        place: usize,
        roles: &RoleFiles,
    ) -> Result<Tried, NoMemory>
        ensures scope { self.new.scope ≡ self.old.scope }
    {
        let Some(file) = roles.files.get(frame.file) else {
            return Ok(Tried::Ends);
        };
        let Some(edge) = edge_at(&file.targets, frame.bin.as_str(), place) else {
            return Ok(Tried::Ends);
        };
        if !self.steps.is_for(&edge, walk.path) {
            return Ok(passed_unless(self.steps.are_spent()));
        }
        self.steps.follow();
        if edge.name.len() > MOST_NAME {
            return Ok(Tried::Ends);
        }
        if is_visited(walk, edge.name, roles) {
            return Ok(passed_unless(edge.terminating));
        }
        Ok(Tried::Next {
            role: String::from_str(self.scope.alloc, edge.name)?,
            terminating: edge.terminating,
        })
    }
}

/// Returns the outcome of a delegation that is skipped, unless the walk ends there.
fn passed_unless(ends: bool) -> Tried {
    if ends { Tried::Ends } else { Tried::Passed }
}

/// Puts the file back on the stack with the delegation that is tried next. Clears the stack instead
/// after a terminating delegation.
fn put_back(walk: &mut Walk, frame: Frame, next: usize, terminating: bool) -> Result<(), NoMemory> {
    if terminating {
        walk.stack.clear();
        return Ok(());
    }
    let Frame { file, bin, .. } = frame;
    walk.stack.push(Frame { file, bin, next })?;
    Ok(())
}

/// Returns the number of the file's delegations.
fn edge_count_of(frame: &Frame, roles: &RoleFiles) -> usize {
    match roles.files.get(frame.file) {
        Some(file) => edge_count(&file.targets, frame.bin.as_str()),
        None => 0,
    }
}

/// Notes that the delegation at this place is followed.
fn note_followed(
    alloc: Global,
    frame: &Frame,
    place: usize,
    roles: &mut RoleFiles,
) -> Result<(), NoMemory> {
    let bin = String::from_str(alloc, frame.bin.as_str())?;
    if let Some(file) = roles.files.get_mut(frame.file) {
        file.followed.insert((place, bin))?;
    }
    Ok(())
}

/// Visits a file, and returns whether the walk goes on. It ends if the file lists the path, or has
/// bins whose names are too long.
fn enter(
    alloc: Global,
    walk: &mut Walk,
    place: usize,
    roles: &mut RoleFiles,
) -> Result<bool, NoMemory> {
    let Some(file) = roles.files.get_mut(place) else {
        return Ok(false);
    };
    file.visitor = Some(walk.nth);
    if let Some(target) = listed_at(&file.targets, walk.path.as_str()) {
        roles.listed.push(ListedAt {
            file: place,
            target,
        })?;
        return Ok(false);
    }
    if has_long_names(&file.targets) {
        return Ok(false);
    }
    let bin = bin_of(alloc, &file.targets, walk.path)?;
    walk.stack.push(Frame {
        file: place,
        bin: String::from_str(alloc, bin.as_str())?,
        next: 0,
    })?;
    Ok(true)
}

/// Returns whether the file has bins whose names are too long.
fn has_long_names(targets: &Targets) -> bool {
    match targets.delegations() {
        Some(delegations) => match &delegations.roles {
            Roles::Listed(_) => false,
            Roles::Binned(bins) => bins.prefix.as_str().len() > MOST_NAME,
        },
        None => false,
    }
}

/// Returns the place of the path among the targets of a file, which are in the order of their
/// paths.
fn listed_at(targets: &Targets, path: &str) -> Option<usize> {
    targets
        .targets()
        .binary_search_by(|target| target.path.as_str().cmp(path))
        .ok()
}

/// Returns whether the walk has visited the role.
fn is_visited(walk: &Walk, role: &str, roles: &RoleFiles) -> bool {
    match roles.places.get(role) {
        Some(Some(place)) => roles
            .files
            .get(*place)
            .is_some_and(|file| file.visitor == Some(walk.nth)),
        _ => false,
    }
}

//! The files on the stack of a search, and which of their delegations are left.

ghost use Rattle.std.specs.Prelude.{◌≡◌, ◌<◌, ◌^◌, IfOk, drop, length, slice_get, option_map};
ghost use Rattle.deleg.specs.Glue.{from_first_for};
ghost use Rattle.deleg.specs.Search as spec;

use crate::cache::Entered;
use crate::edge::{Edge, bin_of, edge_at, edge_count, is_for};
use crate::hashed::HashedPath;
use cjson::NoMemory;
use cjson::text::Text;
use meta::{Part, Targets};
use std::alloc::Global;
use std::marker::Model;

/// A targets file, the name of the bin of the path that is searched for, how many delegations the
/// file has, and how many of them were tried. Contracts see the delegations that are left.
pub(crate) struct Frame {
    file: Part<Targets>,
    /// Whether the cache or the trusted state also has the file.
    held: bool,
    bin: Text,
    count: usize,
    tried: usize,
}

impl Drop for Frame {
    fn drop(self) {
        let Frame {
            file,
            held,
            bin,
            count,
            tried,
        } = self;
    }
}

impl Model for Frame {
    ghost use Rattle.std.specs.Prelude.{◌≡◌, List, drop, length};
    ghost use Rattle.deleg.specs.Search as spec;

    ghost Value = { List spec.Edge };

    ghost view = { λ f. drop f.tried (spec.edges_by f.bin f.file.reading) };

    ghost invariant = { λ f. f.count ≡ length (spec.edges_by f.bin f.file.reading) };
}

impl Frame {
    /// Returns the frame of a file none of whose delegations were tried. Fails only if out of
    /// memory.
    pub(crate) fn of(alloc: Global, entered: Entered, path: &HashedPath) -> Result<Frame, NoMemory>
        ensures edges { IfOk result (λ f. f ≡ spec.edges entered.file.reading path.now) }
        ensures most { IfOk result (λ f. length f < 2 ^ 64) }
    {
        let Entered { file, held } = entered;
        let bin = bin_of(alloc, file.reading(), path)?;
        let count = edge_count(file.reading(), bin.as_str());
        Ok(Frame {
            file,
            held,
            bin,
            count,
            tried: 0,
        })
    }

    /// Returns an equal frame, which shares its file with this one. Fails only if out of memory.
    pub(crate) fn copy(&self, alloc: Global) -> Result<Frame, NoMemory>
        ensures { IfOk result (λ f. f ≡ self.now) }
    {
        let bin = Text::new(String::from_str(alloc, self.bin.as_str())?);
        Ok(Frame {
            file: self.file.copy()?,
            held: self.held,
            bin,
            count: self.count,
            tried: self.tried,
        })
    }

    /// Returns whether the cache or the trusted state also has the file.
    pub(crate) fn is_held(&self) -> bool {
        self.held
    }

    /// Returns the first delegation that is left.
    pub(crate) fn next(&self) -> Option<Edge<'_>>
        ensures { option_map spec.edge_of result ≡ slice_get self.now 0 }
    {
        edge_at(self.file.reading(), self.bin.as_str(), self.tried)
    }

    /// Drops the delegations before the first one that is for the path.
    pub(crate) fn skip_others(&mut self, path: &HashedPath)
        ensures { self.new ≡ from_first_for path.now self.old }
    {
        self.tried = first_for(self.file.reading(), self.bin.as_str(), path, self.tried);
    }

    /// Drops the first delegation that is left.
    pub(crate) fn skip(&mut self)
        ensures { self.new ≡ drop 1 self.old }
    {
        if self.tried < self.count {
            self.tried += 1;
        }
    }
}

/// Returns the place of the first delegation that is for the path, from this place on. If there is
/// none, returns a place behind the last delegation.
fn first_for(targets: &Targets, bin: &str, path: &HashedPath, from: usize) -> usize
    ensures { drop result (spec.edges_by bin.now targets.now)
        ≡ from_first_for path.now (drop from (spec.edges_by bin.now targets.now)) }
{
    let count = edge_count(targets, bin);
    let mut place = from;
    while place < count {
        match edge_at(targets, bin, place) {
            Some(edge) if !is_for(&edge, path) => place += 1,
            _ => return place,
        }
    }
    place
}

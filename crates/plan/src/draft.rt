//! A plan that is being made.

ghost use Rattle.std.specs.Prelude.{◌≡◌, ◌<◌, false, vec_len, is_some};
ghost use Rattle.plan.specs.Questions.{at, IsWhole, IsDraft, Grows};

use crate::document::Document;
use crate::mark::mark;
use crate::plan::{Planned, ask_of};
use cjson::NoMemory;
use std::alloc::Global;
use std::collections::BTreeMap;

/// The checks so far, and their index.
#[derive(Drop)]
pub(crate) struct Draft<'a> {
    /// The documents that checks refer to.
    pub documents: Vec<Document>,
    /// The checks, each once.
    pub questions: Vec<Planned<'a>>,
    /// The number of each check by its mark.
    pub index: BTreeMap<[u8; 32], usize>,
    /// Maximum number of checks.
    pub most: usize,
}

impl<'a> Draft<'a> {
    /// Returns a draft without checks.
    pub fn new(alloc: Global, documents: Vec<Document>, most: usize) -> Draft<'a>
        ensures draft { IsDraft result }
        ensures most { result.most ≡ most }
    {
        Draft {
            documents,
            questions: Vec::new(alloc),
            index: BTreeMap::new(alloc),
            most,
        }
    }

    /// Returns whether no more checks fit.
    pub fn is_full(&self) -> bool
        ensures { result ≡ false → vec_len self.now.questions < self.now.most }
    {
        self.questions.len() >= self.most
    }

    /// Returns whether there is a check of that mark.
    fn has(&self, mark: &[u8; 32]) -> bool
        ensures { result ≡ is_some (at self.now.index.entries mark.now) }
    {
        self.index.contains_key(mark)
    }
}

/// Adds a check, unless it is there already or the draft is full. Fails only if out of memory.
pub(crate) fn put<'a>(draft: &mut Draft<'a>, planned: Planned<'a>) -> Result<(), NoMemory>
    requires draft { IsDraft draft.old }
    requires whole { IsWhole draft.old.documents.items planned }
    ensures { Grows draft.old draft.new }
{
    if draft.is_full() {
        return Ok(());
    }
    let mark = mark(&ask_of(draft.documents.as_slice(), &planned));
    if draft.has(&mark) {
        return Ok(());
    }
    draft.questions.reserve(1)?;
    draft.index.insert(mark, draft.questions.len())?;
    draft.questions.push_reserved(planned);
    Ok(())
}

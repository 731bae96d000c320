//! The checks that a run probably makes.

ghost use Rattle.std.specs.Prelude.{◌≡◌, ◌≢◌, ◌≤◌, ◌<◌, ℕ, IfOk, IfSome, IfNone, All, Some, length};
ghost use Rattle.std.specs.Prelude.{slice_get, vec_len};
ghost use Rattle.plan.specs.Questions as spec;

use crate::document::Document;
use crate::draft::{Draft, put};
use crate::mark::mark;
use crate::reading::{Ahead, Scope, read_ahead};
use crate::signers::signers_of;
use crate::signing::sign_all;
use crate::wanted::{Digest, digests};
use cjson::NoMemory;
use keys::{Ask, DigestAsk, Direct, Judge, SignatureAsk};
use lms::Public;
use meta::Repo;
use rolechain::Trusted;
use std::alloc::Global;
use std::collections::BTreeMap;
use std::marker::Model;

/// A check, whose parts are in a document or in the repository.
pub(crate) enum Planned<'a> {
    Signature {
        document: usize,
        place: usize,
        public: Public,
    },
    Digest(Digest<'a>),
}

impl<'a> Drop for Planned<'a> {
    fn drop(self) {
        match self {
            Planned::Signature {
                document,
                place,
                public,
            } => {}
            Planned::Digest(part) => {}
        }
    }
}

/// Checks that a run probably makes, at most 4,096, each once. Contracts see the list of checks. An
/// index finds a check by a digest of its names, so a look-up costs one digest.
pub struct Plan<'a> {
    documents: Vec<Document>,
    questions: Vec<Planned<'a>>,
    index: BTreeMap<[u8; 32], usize>,
}

impl<'a> Drop for Plan<'a> {
    fn drop(self) {
        let Plan {
            documents,
            questions,
            index,
        } = self;
    }
}

impl<'a> Model for Plan<'a> {
    ghost use Rattle.std.specs.Prelude.{List, All, ◌≤◌, vec_len};
    ghost use Rattle.plan.specs.Questions.{Question, IsIndex};
    ghost use Rattle.plan.specs.Questions.{IsWhole, questions_in};

    ghost Value = { List Question };

    ghost view = { λ p. questions_in p.documents.items p.questions.items };

    ghost invariant = { λ p. All (IsWhole p.documents.items) p.questions.items
        × IsIndex (questions_in p.documents.items p.questions.items) p.index.entries
        × (vec_len p.questions ≤ 4096) };
}

impl<'a> Plan<'a> {
    /// Plans the checks that a run from this state probably makes for the repository and the wanted
    /// paths: at most `most`, each once. Reads the files that the searches for the wanted paths
    /// visit if every role is accepted, each at most once and without verifying it.
    ///
    /// Reads at most 4,000,000 bytes of files, and matches paths within a bound of steps, so that
    /// the files' author doesn't determine what a plan costs. A file that is missing, malformed or
    /// too long for what is left is skipped, together with all that it would lead to. Fails only if
    /// out of memory.
    ///
    /// First come the signatures: of each successive root, by the keys of the root before it and by
    /// its own; of timestamp, snapshot and top-level targets, by the last root's keys; of each
    /// delegated role, by the keys of each delegation that is followed to it. For each key that the
    /// role lists, each entry under its id is a check, whatever its text looks like. Then come the
    /// listed digests of the wanted targets whose files are there with the listed length, up to
    /// 16,000,000 bytes each. If `most` is 0, nothing is read.
    pub fn of(
        alloc: Global,
        trusted: &'a Trusted,
        repo: &'a Repo,
        wanted: &'a [String],
        most: usize,
    ) -> Result<Plan<'a>, NoMemory>
        requires most { most ≤ 4096 }
        ensures most { IfOk result (λ p. length p ≤ most) }
        ensures distinct { IfOk result (λ p. spec.IsDistinct p) }
    {
        if most == 0 {
            return Ok(Plan::of_draft(Draft::new(alloc, Vec::new(alloc), 0)));
        }
        let scope = Scope {
            alloc,
            trusted,
            repo,
            wanted,
            most,
        };
        Ok(Plan::of_draft(draft_of(&scope)?))
    }

    /// Returns the plan of a draft.
    fn of_draft(draft: Draft<'a>) -> Plan<'a>
        requires draft { spec.IsDraft draft }
        requires most { draft.most ≤ 4096 }
        ensures most { length result ≤ draft.entry.most }
        ensures distinct { spec.IsDistinct result }
    {
        let Draft {
            documents,
            questions,
            index,
            ..
        } = draft;
        Plan {
            documents,
            questions,
            index,
        }
    }

    /// Returns the number of checks, at most 4,096.
    pub fn len(&self) -> usize
        ensures count { result ≡ length self.now }
        ensures most { result ≤ 4096 }
    {
        self.questions.len()
    }

    /// Returns the check of that number, from 0.
    pub fn ask(&self, j: usize) -> Ask<'_>
        requires below { j < length self.now }
        ensures question { slice_get self.now j ≡ Some (spec.question_of result) }
    {
        ask_of(self.documents.as_slice(), &self.questions[j])
    }

    /// Computes the check of that number. Fails only if out of memory.
    pub fn answer(&self, j: usize) -> Result<bool, NoMemory>
        requires below { j < length self.now }
        ensures truth { IfOk result (λ b. slice_get (spec.truths_of self.now) j ≡ Some b) }
    {
        Direct.valid(&self.ask(j))
    }

    /// Returns the number of the check all of whose parts are equal, or None if the plan hasn't it.
    /// Costs one digest of the check's names, and at most one comparison of checks.
    pub fn place_of(&self, ask: &Ask) -> Option<usize>
        ensures some { IfSome result (λ j. slice_get self.now j ≡ Some (spec.question_of ask.now)) }
        ensures none { IfNone result
            ((j : ℕ) → slice_get self.now j ≢ Some (spec.question_of ask.now)) }
    {
        let mark = mark(ask);
        let j = *self.index.get(&mark)?;
        if self.ask(j).same(ask) { Some(j) } else { None }
    }
}

/// Drafts the checks that a run probably makes.
fn draft_of<'a>(scope: &Scope<'a>) -> Result<Draft<'a>, NoMemory>
    ensures draft { IfOk result (λ d. spec.IsDraft d) }
    ensures most { IfOk result (λ d. d.most ≡ scope.now.most) }
{
    let (ahead, documents) = read_ahead(scope)?;
    let mut draft = Draft::new(scope.alloc, documents, scope.most);
    ask_all(&mut draft, scope, &ahead)?;
    Ok(draft)
}

/// Adds the checks of what was read: the signatures, and then the digests.
#[tactic(auto, using(crate::proofs::Drafting::grows_none, crate::proofs::Drafting::grows_on))]
fn ask_all<'a>(draft: &mut Draft<'a>, scope: &Scope<'a>, ahead: &Ahead) -> Result<(), NoMemory>
    requires { spec.IsDraft draft.old }
    ensures { spec.Grows draft.old draft.new }
{
    let signers = signers_of(scope, ahead)?;
    sign_all(scope.alloc, draft, signers.as_slice())?;
    put_all(draft, digests(scope, ahead)?)
}

/// Adds the checks of digests.
#[tactic(auto, using(crate::proofs::Drafting::grows_none, crate::proofs::Drafting::grows_on))]
fn put_all<'a>(draft: &mut Draft<'a>, all: Vec<Digest<'a>>) -> Result<(), NoMemory>
    requires { spec.IsDraft draft.old }
    ensures { spec.Grows draft.old draft.new }
{
    for listed in all {
        put(draft, Planned::Digest(listed))?;
    }
    Ok(())
}

/// Returns the check with its parts.
pub(crate) fn ask_of<'b>(documents: &'b [Document], planned: &'b Planned<'_>) -> Ask<'b>
    requires { spec.IsWhole documents.now planned.now }
    ensures { spec.question_of result ≡ spec.question_in documents.now planned.now }
{
    match planned {
        Planned::Signature {
            document,
            place,
            public,
        } => {
            let document = &documents[*document];
            Ask::Signature(SignatureAsk {
                file: document.file.as_str(),
                place: *place,
                public,
                message: document.message.as_slice(),
                sig: document.sigs[*place].as_str(),
            })
        }
        Planned::Digest(listed) => Ask::Digest(DigestAsk {
            file: listed.file.as_str(),
            algorithm: listed.algorithm,
            bytes: listed.bytes,
            digest: listed.digest.as_slice(),
        }),
    }
}

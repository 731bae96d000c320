//! The checks of signatures.

ghost use Rattle.std.specs.Prelude.{◌<◌, IfSome, IsSomeAnd, slice_get, vec_len};
ghost use Rattle.plan.specs.Questions.{IsDraft, Grows};

use crate::draft::{Draft, put};
use crate::plan::Planned;
use crate::signers::Signers;
use cjson::NoMemory;
use keys::{Key, KeyRing};
use std::alloc::Global;
use std::collections::BTreeSet;

/// Plans the checks of the signatures of these signers. Those of a document under one id are
/// planned once, however many list the id.
#[tactic(auto, using(crate::proofs::Drafting::grows_none, crate::proofs::Drafting::grows_on))]
pub(crate) fn sign_all<'a>(
    alloc: Global,
    draft: &mut Draft<'a>,
    all: &[Signers],
) -> Result<(), NoMemory>
    requires { IsDraft draft.old }
    ensures { Grows draft.old draft.new }
{
    let mut planned = BTreeSet::new(alloc);
    for signers in all {
        sign(draft, signers, &mut planned)?;
    }
    Ok(())
}

/// Plans a check of each entry under the id of a key that the role lists.
#[tactic(auto, using(crate::proofs::Drafting::grows_none, crate::proofs::Drafting::grows_on))]
fn sign<'a, 'b>(
    draft: &mut Draft<'a>,
    signers: &Signers<'b>,
    planned: &mut BTreeSet<(usize, &'b str)>,
) -> Result<(), NoMemory>
    requires { IsDraft draft.old }
    ensures { Grows draft.old draft.new }
{
    for id in signers.role.ids.as_slice() {
        sign_under(draft, signers, id.as_str(), planned)?;
    }
    Ok(())
}

/// Plans a check of each entry under the id, if the ring has its key and they weren't planned yet.
#[tactic(auto, using(crate::proofs::Drafting::grows_none))]
fn sign_under<'a, 'b>(
    draft: &mut Draft<'a>,
    signers: &Signers<'b>,
    id: &str,
    planned: &mut BTreeSet<(usize, &'b str)>,
) -> Result<(), NoMemory>
    requires { IsDraft draft.old }
    ensures { Grows draft.old draft.new }
{
    let Some(key) = key_of(signers.ring, id) else {
        return Ok(());
    };
    if !planned.insert((signers.document, key.id.as_str()))? {
        return Ok(());
    }
    sign_by(draft, signers.document, key)
}

/// Returns the ring's key of that id. The keys are in the order of their ids.
fn key_of<'b>(ring: &'b KeyRing, id: &str) -> Option<&'b Key> {
    let keys = ring.keys();
    let place = keys.binary_search_by(|key| key.id.as_str().cmp(id)).ok()?;
    keys.get(place)
}

/// Plans a check of each entry under the key's id.
#[tactic(auto, using(crate::proofs::Drafting::grows_none, crate::proofs::Drafting::grows_on))]
fn sign_by<'a>(draft: &mut Draft<'a>, document: usize, key: &Key) -> Result<(), NoMemory>
    requires { IsDraft draft.old }
    ensures { Grows draft.old draft.new }
{
    for nth in 0..count_by(draft, document, key) {
        if draft.is_full() {
            break;
        }
        if let Some(place) = place_by(draft, document, key, nth) {
            let public = key.public;
            put(
                draft,
                Planned::Signature {
                    document,
                    place,
                    public,
                },
            )?;
        }
    }
    Ok(())
}

/// Returns the number of the document's entries under the key's id.
fn count_by(draft: &Draft, document: usize, key: &Key) -> usize {
    let found = draft.documents.get(document);
    found.map_or(0, |document| document.places_of(key.id.as_str()).len())
}

/// Returns the place of such an entry, by its number among those under the key's id.
fn place_by(draft: &Draft, document: usize, key: &Key, nth: usize) -> Option<usize>
    ensures { IfSome result (λ place. IsSomeAnd
        (slice_get draft.now.documents.items document) (λ d. place < vec_len d.sigs)) }
{
    let document = draft.documents.get(document)?;
    let place = *document.places_of(key.id.as_str()).get(nth)?;
    if place < document.sigs.len() {
        Some(place)
    } else {
        None
    }
}

//! The lines of reasons.

ghost use Rattle.std.specs.Prelude.{◌≡◌, ◌++◌, [], ◌∷◌, IfOk, OnOk, codes, flat_map, string_bytes};
ghost use Rattle.std.specs.Prelude.{take};
ghost use Rattle.inout.specs.Moments as moments;
ghost use Rattle.inout.specs.Quoted.{cut_text};
ghost use Rattle.whys.specs.Signed.{signing_text};
ghost use Rattle.whys.specs.Whys as spec;

use crate::place::{Listings, Place};
use crate::signed::{push_more, signing_lines};
use cjson::NoMemory;
use inout::{moment_text, quote_cut};
use moment::Moment;
use reasons::{
    Below, Differing, Malformation, NameFall, Reason, Sha256Pair, Sha512Pair, TimestampFall,
};
use signing::Signing;
use std::alloc::{AllocError, Global};

/// Maximum number of names that have a line.
const MOST_NAMES: usize = 64;

/// Returns the lines of a refusal, if there is one. Fails only if out of memory.
pub(crate) fn lines_of(
    alloc: Global,
    place: &Place,
    reason: &Option<Reason>,
) -> Result<String, NoMemory>
    ensures lines { IfOk result
        (λ text. string_bytes text ≡ spec.lines_of place.now reason.now) }
{
    let mut text = String::new(alloc);
    if let Some(reason) = reason {
        push_refusal(alloc, &mut text, place, reason)?;
    }
    Ok(text)
}

/// Adds the lines of a refusal: that of the file, if the reason is of it, and those of the reason.
fn push_refusal(
    alloc: Global,
    text: &mut String,
    place: &Place,
    reason: &Reason,
) -> Result<(), AllocError>
    ensures lines { OnOk result (string_bytes text.new
        ≡ string_bytes text.old ++ spec.refusal_text place.now reason.now) }
{
    if is_of_file(reason) {
        push_file(alloc, text, place.file.as_str(), place.length)?;
    }
    push_reason(alloc, text, place, reason)
}

fn is_of_file(reason: &Reason) -> bool
    ensures { result ≡ spec.is_of_file reason.now }
{
    !matches!(
        reason,
        Reason::NotListed | Reason::Missing | Reason::TrustedExpired(_, _)
    )
}

/// Adds the line of a file, if there is such a file.
fn push_file(
    alloc: Global,
    text: &mut String,
    name: &str,
    length: Option<u64>,
) -> Result<(), AllocError>
    ensures { OnOk result (string_bytes text.new
        ≡ string_bytes text.old ++ spec.file_text name.now length) }
{
    let Some(length) = length else {
        return Ok(());
    };
    let name = quote_cut(alloc, name)?;
    writeln!(text, "why file {name} {length}")
}

/// Adds the line of a name under which no file is.
pub(crate) fn push_absent(alloc: Global, text: &mut String, name: &str) -> Result<(), AllocError>
    ensures { OnOk result (string_bytes text.new
        ≡ string_bytes text.old ++ spec.absent_text name.now) }
{
    let name = quote_cut(alloc, name)?;
    writeln!(text, "why absent {name}")
}

fn push_reason(
    alloc: Global,
    text: &mut String,
    place: &Place,
    reason: &Reason,
) -> Result<(), AllocError>
    ensures { OnOk result (string_bytes text.new
        ≡ string_bytes text.old ++ spec.reason_text place.now reason.now) }
{
    match reason {
        Reason::NotListed => push_listings(text, place.snapshot),
        Reason::Missing => push_absent(alloc, text, place.file.as_str()),
        Reason::TooLong(found, most) => push_pair(text, "length", *found, "most", *most),
        Reason::LengthWrong(found, listed) => {
            push_pair(text, "length", *found, "listed", *listed)
        }
        Reason::HashWrong(differing) => push_differing(alloc, text, differing),
        Reason::NoKnownHash => Ok(()),
        Reason::Malformed(why) => push_malformed(text, *why),
        Reason::Unsigned(signing) => push_signing(alloc, text, place.by.as_str(), signing),
        Reason::OwnUnsigned(signing) => push_signing(alloc, text, place.file.as_str(), signing),
        Reason::VersionWrong(found, due) => push_pair(text, "version", *found, "expected", *due),
        Reason::TimestampFell(fall) => push_timestamp(text, fall),
        Reason::SnapshotFell(falls) => push_falls(alloc, text, falls.as_slice()),
        Reason::Expired(expires, now) => push_expiry(alloc, text, "why", *expires, *now),
        Reason::TrustedExpired(expires, now) => {
            push_expiry(alloc, text, "why trusted", *expires, *now)
        }
    }
}

fn push_listings(text: &mut String, listings: Option<Listings>) -> Result<(), AllocError>
    ensures { OnOk result (string_bytes text.new
        ≡ string_bytes text.old ++ spec.listings_text listings) }
{
    let Some(Listings { version, names }) = listings else {
        return Ok(());
    };
    writeln!(text, "why snapshot {version} names {names}")
}

/// Adds the line of a number, and of the one that it was compared with.
fn push_pair(
    text: &mut String,
    what: &str,
    found: u64,
    word: &str,
    other: u64,
) -> Result<(), AllocError>
    ensures { OnOk result (string_bytes text.new
        ≡ string_bytes text.old ++ spec.pair_text what.now found word.now other) }
{
    writeln!(text, "why {what} {found} {word} {other}")
}

fn push_differing(alloc: Global, text: &mut String, differing: &Differing) -> Result<(), AllocError>
    ensures { OnOk result (string_bytes text.new ≡ string_bytes text.old
        ++ spec.sha256_text differing.now.sha256 ++ spec.sha512_text differing.now.sha512) }
{
    push_sha256(alloc, text, differing.sha256)?;
    push_sha512(alloc, text, differing.sha512)
}

fn push_sha256(alloc: Global, text: &mut String, pair: Option<Sha256Pair>) -> Result<(), AllocError>
    ensures { OnOk result (string_bytes text.new
        ≡ string_bytes text.old ++ spec.sha256_text pair) }
{
    match pair {
        Some(pair) => push_digests(alloc, text, "sha256", &pair.found, &pair.listed),
        None => Ok(()),
    }
}

fn push_sha512(alloc: Global, text: &mut String, pair: Option<Sha512Pair>) -> Result<(), AllocError>
    ensures { OnOk result (string_bytes text.new
        ≡ string_bytes text.old ++ spec.sha512_text pair) }
{
    match pair {
        Some(pair) => push_digests(alloc, text, "sha512", &pair.found, &pair.listed),
        None => Ok(()),
    }
}

fn push_digests(
    alloc: Global,
    text: &mut String,
    algorithm: &str,
    found: &[u8],
    listed: &[u8],
) -> Result<(), AllocError>
    ensures { OnOk result (string_bytes text.new
        ≡ string_bytes text.old ++ spec.digest_text algorithm.now found.now listed.now) }
{
    let found = hex::encode(alloc, found)?;
    let listed = hex::encode(alloc, listed)?;
    writeln!(text, "why {algorithm} {found} listed {listed}")
}

fn push_malformed(text: &mut String, why: Malformation) -> Result<(), AllocError>
    ensures { OnOk result (string_bytes text.new
        ≡ string_bytes text.old ++ spec.why (spec.malformation_word why ∷ [])) }
{
    let word = malformation_word(why);
    writeln!(text, "why {word}")
}

fn malformation_word(why: Malformation) -> &'static str
    ensures { result.now ≡ spec.malformation_word why }
{
    match why {
        Malformation::NotJson => "json",
        Malformation::NotObject => "object",
        Malformation::Float => "float",
        Malformation::BadSignatures => "signatures",
        Malformation::NotFormed => "form",
    }
}

fn push_signing(
    alloc: Global,
    text: &mut String,
    file: &str,
    signing: &Signing,
) -> Result<(), AllocError>
    ensures { OnOk result (string_bytes text.new
        ≡ string_bytes text.old ++ signing_text file.now signing.now) }
{
    let lines = signing_lines(alloc, file, signing)?;
    text.push_str(lines.as_str())
}

fn push_timestamp(text: &mut String, fall: &TimestampFall) -> Result<(), AllocError>
    ensures { OnOk result (string_bytes text.new ≡ string_bytes text.old
        ++ spec.below_text (codes "version") fall.now.version
        ++ spec.below_text (codes "snapshot") fall.now.snapshot) }
{
    push_below(text, "version", fall.version)?;
    push_below(text, "snapshot", fall.snapshot)
}

fn push_below(text: &mut String, what: &str, below: Option<Below>) -> Result<(), AllocError>
    ensures { OnOk result (string_bytes text.new
        ≡ string_bytes text.old ++ spec.below_text what.now below) }
{
    match below {
        Some(below) => push_pair(text, what, below.found, "trusted", below.trusted),
        None => Ok(()),
    }
}

fn push_falls(alloc: Global, text: &mut String, falls: &[NameFall]) -> Result<(), AllocError>
    ensures { OnOk result (string_bytes text.new
        ≡ string_bytes text.old ++ spec.falls_text falls.now) }
{
    push_names(alloc, text, first_names(falls, MOST_NAMES))?;
    push_more(text, falls.len().saturating_sub(MOST_NAMES))
}

/// Returns the first `most` names, or all if there are fewer.
#[tactic(auto, using(std::proofs::lemmas::List::take_all))]
fn first_names(falls: &[NameFall], most: usize) -> &[NameFall]
    ensures { result.now ≡ take most falls.now }
{
    if falls.len() <= most {
        return falls;
    }
    &falls[..most]
}

fn push_names(alloc: Global, text: &mut String, falls: &[NameFall]) -> Result<(), AllocError>
    ensures { OnOk result (string_bytes text.new
        ≡ string_bytes text.old ++ flat_map spec.fall_text falls.now) }
{
    for fall in falls {
        push_fall(alloc, text, fall)?;
    }
    Ok(())
}

fn push_fall(alloc: Global, text: &mut String, fall: &NameFall) -> Result<(), AllocError>
    ensures { OnOk result (string_bytes text.new
        ≡ string_bytes text.old ++ spec.fall_text fall.now) }
{
    let name = quote_cut(alloc, fall.name.as_str())?;
    push_fall_of(text, name.as_str(), fall.found, fall.trusted)
}

fn push_fall_of(
    text: &mut String,
    name: &str,
    found: Option<u64>,
    trusted: u64,
) -> Result<(), AllocError>
    ensures { OnOk result (string_bytes text.new
        ≡ string_bytes text.old ++ spec.fall_of_text name.now found trusted) }
{
    match found {
        Some(found) => writeln!(text, "why name {name} {found} trusted {trusted}"),
        None => writeln!(text, "why name {name} gone"),
    }
}

fn push_expiry(
    alloc: Global,
    text: &mut String,
    words: &str,
    expires: Moment,
    now: Moment,
) -> Result<(), AllocError>
    ensures { OnOk result (string_bytes text.new
        ≡ string_bytes text.old ++ spec.expires_text words.now expires now) }
{
    let expires = moment_text(alloc, expires)?;
    let moment = moment_text(alloc, now)?;
    writeln!(text, "{words} expires {expires} moment {moment}")
}

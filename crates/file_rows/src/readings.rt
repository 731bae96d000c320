//! The readings of metadata files.

use crate::key_rings::{keys_of, push_role};
use crate::layers::Layers;
use crate::moments::spelled;
use crate::plain::yes_or_no;
use crate::signed::{changed, file, good};
use anyhow::{Result, bail};
use keys::{KeyRing, RoleKeys};
use meta::{
    Delegation, HashPrefix, Hashes, Header, Listing, Part, PathPattern, Paths, Reading, Roles,
    Root, Snapshot, Stop, Target, Targets, Timestamp,
};
use sessions::Step;
use std::alloc::Global;

/// Reads the valid file of a kind after the change of the lines: the first line is the old text,
/// and the second the new one.
pub fn read(layers: &Layers<'_>, step: &Step) -> Result<String> {
    let kind = step.word(0)?;
    let good = good(layers, kind)?;
    let bytes = file_after(layers.alloc, good.as_str(), step.script.as_slice())?;
    read_as(layers.alloc, kind, bytes)
}

fn file_after(alloc: Global, good: &str, lines: &[String]) -> Result<Vec<u8>> {
    match lines {
        [] => file(alloc, good),
        [old, new] => {
            let signed = changed(alloc, good, old.as_str(), new.as_str())?;
            file(alloc, signed.as_str())
        }
        _ => bail!("a change has two lines"),
    }
}

fn read_as(alloc: Global, kind: &str, bytes: Vec<u8>) -> Result<String> {
    match kind {
        "root" => output::<Root>(alloc, bytes),
        "timestamp" => output::<Timestamp>(alloc, bytes),
        "snapshot" => output::<Snapshot>(alloc, bytes),
        "targets" => output::<Targets>(alloc, bytes),
        _ => bail!("no such kind"),
    }
}

/// Returns the contents of the file, after a copy, and whether the copy has its bytes.
fn output<A: Reading + Shown + Drop>(alloc: Global, bytes: Vec<u8>) -> Result<String> {
    let given = bytes.clone()?;
    match Part::<A>::read(alloc, bytes) {
        Ok(part) => copied(alloc, &part, given.as_slice()),
        Err(Stop::Refused(fault)) => Ok(format!(in alloc; "{fault:?}\n")?),
        Err(Stop::NoMemory) => bail!("out of memory"),
    }
}

fn copied<A: Reading + Shown + Drop>(
    alloc: Global,
    part: &Part<A>,
    given: &[u8],
) -> Result<String> {
    let copy = part.copy()?;
    let mut text = String::new(alloc);
    copy.reading().push(alloc, &mut text)?;
    let same = yes_or_no(copy.bytes() == given);
    writeln!(text, "same bytes: {same}")?;
    Ok(text)
}

/// The printed form of a reading.
trait Shown {
    /// Adds the lines of the reading.
    fn push(&self, alloc: Global, text: &mut String) -> Result<()>;
}

impl Shown for Root {
    fn push(&self, alloc: Global, text: &mut String) -> Result<()> {
        push_header(alloc, text, self.header())?;
        writeln!(text, "consistent: {}", yes_or_no(self.consistent()))?;
        push_keys(alloc, text, self.ring())?;
        push_roles(text, self)
    }
}

fn push_keys(alloc: Global, text: &mut String, ring: &KeyRing) -> Result<()> {
    let keys = keys_of(alloc, ring)?;
    text.push_str(keys.as_str())?;
    Ok(())
}

fn push_roles(text: &mut String, root: &Root) -> Result<()> {
    push_named(text, "root", root.root())?;
    push_named(text, "timestamp", root.timestamp())?;
    push_named(text, "snapshot", root.snapshot())?;
    push_named(text, "targets", root.targets())
}

fn push_named(text: &mut String, name: &str, role: &RoleKeys) -> Result<()> {
    write!(text, "{name} ")?;
    push_role(text, role)
}

impl Shown for Timestamp {
    fn push(&self, alloc: Global, text: &mut String) -> Result<()> {
        push_header(alloc, text, self.header())?;
        push_listing(alloc, text, "snapshot.json", self.snapshot())
    }
}

impl Shown for Snapshot {
    fn push(&self, alloc: Global, text: &mut String) -> Result<()> {
        push_header(alloc, text, self.header())?;
        for named in self.files() {
            push_listing(alloc, text, named.name.as_str(), &named.listing)?;
        }
        Ok(())
    }
}

impl Shown for Targets {
    fn push(&self, alloc: Global, text: &mut String) -> Result<()> {
        push_header(alloc, text, self.header())?;
        for target in self.targets() {
            push_target(alloc, text, target)?;
        }
        let Some(delegations) = self.delegations() else {
            text.push_str("no delegations\n")?;
            return Ok(());
        };
        push_keys(alloc, text, &delegations.ring)?;
        push_delegated(text, &delegations.roles)
    }
}

fn push_header(alloc: Global, text: &mut String, header: &Header) -> Result<()> {
    let expires = spelled(alloc, header.expires)?;
    writeln!(text, "version {}, expires {expires}", header.version.get())?;
    Ok(())
}

fn push_listing(alloc: Global, text: &mut String, name: &str, listing: &Listing) -> Result<()> {
    write!(text, "{name} version {}", listing.version.get())?;
    if let Some(length) = listing.length {
        write!(text, " length {}", length.get())?;
    }
    text.push('\n')?;
    match listing.hashes {
        Some(hashes) => push_hashes(alloc, text, hashes),
        None => Ok(()),
    }
}

fn push_hashes(alloc: Global, text: &mut String, hashes: Hashes) -> Result<()> {
    if let Some(digest) = hashes.sha256 {
        writeln!(text, "sha256 {}", hex::encode(alloc, digest)?)?;
    }
    if let Some(digest) = hashes.sha512 {
        writeln!(text, "sha512 {}", hex::encode(alloc, digest)?)?;
    }
    Ok(())
}

fn push_target(alloc: Global, text: &mut String, target: &Target) -> Result<()> {
    let target = target.copy(alloc)?;
    writeln!(
        text,
        "target {:?} length {}",
        target.path.as_str(),
        target.length.get()
    )?;
    push_hashes(alloc, text, target.hashes)
}

fn push_delegated(text: &mut String, roles: &Roles) -> Result<()> {
    match roles {
        Roles::Listed(roles) => push_delegations(text, roles.as_slice()),
        Roles::Binned(bins) => {
            write!(text, "bins {} {:?} ", bins.bits.get(), bins.prefix.as_str())?;
            push_role(text, &bins.keys)
        }
    }
}

fn push_delegations(text: &mut String, roles: &[Delegation]) -> Result<()> {
    for role in roles {
        let end = if role.terminating { "stop" } else { "go" };
        write!(text, "role {:?} {end}", role.name.as_str())?;
        push_paths(text, &role.paths)?;
        text.push(' ')?;
        push_role(text, &role.keys)?;
    }
    Ok(())
}

fn push_paths(text: &mut String, paths: &Paths) -> Result<()> {
    match paths {
        Paths::Patterns(patterns) => push_patterns(text, patterns.as_slice()),
        Paths::Prefixes(prefixes) => push_prefixes(text, prefixes.as_slice()),
    }
}

fn push_patterns(text: &mut String, patterns: &[PathPattern]) -> Result<()> {
    text.push_str(" paths")?;
    for pattern in patterns {
        write!(text, " {:?}", pattern.as_str())?;
    }
    Ok(())
}

fn push_prefixes(text: &mut String, prefixes: &[HashPrefix]) -> Result<()> {
    text.push_str(" prefixes")?;
    for prefix in prefixes {
        write!(text, " {:?}", prefix.digits())?;
    }
    Ok(())
}

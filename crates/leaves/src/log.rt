//! A disk over single calls, whose meaning is a log of them.

ghost use Rattle.std.specs.Prelude.{◌≡◌, [], ◌∷◌, ◌++◌, List, ℕ, Bool, true, length, take};
ghost use Rattle.std.specs.Prelude.{OnErr, OnOk, option_map};
ghost use Rattle.leaves.specs.Disk.{HasNoMore, IsHanding, IsStoring, LeavesOnly, Passes};
ghost use Rattle.leaves.specs.Log.{after, after_all, after_first, is_possible};
ghost use Rattle.leaves.specs.Log.{EndsHanding, EndsStoring, Notes};
ghost use Rattle.leaves.specs.declared.log.Event.TheVariants as event;

use crate::disk::Disk;
use std::alloc::{AllocError, Global};
use std::io::{self, ErrorKind};

/// The calls that reach the leaves file, its log on another device, and the writer. What each of
/// them does is all that has to be read of a real disk: the order of the calls is proved.
pub trait Calls {
    /// Whether the new file has the text, and no other.
    ghost has: { Self → List ℕ → Bool };

    /// Whether all that the new file has is on the device.
    ghost is_flushed: { Self → Bool };

    /// Whether the leaves file is a new one that had the text and took its place.
    ghost holds: { Self → List ℕ → Bool };

    /// Whether that the file took the place is on the device too.
    ghost keeps: { Self → List ℕ → Bool };

    /// Whether the log on another device, if there is one, has the text.
    ghost records: { Self → List ℕ → Bool };

    /// Whether the signature was handed out, whole.
    ghost gives: { Self → List ℕ → Bool };

    /// Reads the leaves file, or returns None if it is missing.
    fn read(&mut self, alloc: Global) -> io::Result<Option<Vec<u8>>>;

    /// Writes the text to a new file beside the leaves file.
    fn write_new(&mut self, text: &[u8]) -> io::Result<()>
        ensures has { OnOk result (has self.new text.now ≡ true) };

    /// Flushes the new file to the device.
    fn flush_new(&mut self) -> io::Result<()>
        ensures flushed { OnOk result (is_flushed self.new ≡ true) }
        ensures same { has self.new ≡ has self.old };

    /// Moves the new file, which has the text, to the place of the leaves file, in one step. That
    /// was noted before.
    fn take_over(&mut self, text: &[u8], noted: &[Event]) -> io::Result<()>
        requires has { has self.old text.now ≡ true }
        requires flushed { is_flushed self.old ≡ true }
        requires noted { EndsStoring text.now noted.now }
        ensures moved { OnOk result (holds self.new text.now ≡ true) };

    /// Flushes the folder of the leaves file to the device.
    fn flush_folder(&mut self) -> io::Result<()>
        ensures kept { OnOk result ((text : List ℕ) → holds self.old text ≡ true
            → keeps self.new text ≡ true) };

    /// Appends the text to the log on another device, if there is one, and flushes that.
    fn record(&mut self, text: &[u8]) -> io::Result<()>
        ensures recorded { OnOk result (records self.new text.now ≡ true) }
        ensures same { keeps self.new ≡ keeps self.old };

    /// Hands out a signature. That was noted before.
    fn hand(&mut self, sig: &[u8], noted: &[Event]) -> io::Result<()>
        requires noted { EndsHanding sig.now noted.now }
        ensures given { OnOk result (gives self.new sig.now ≡ true) };
}

/// What a crash may leave from now on.
#[derive(Drop)]
pub enum Event {
    /// This text too.
    Storing(Vec<u8>),
    /// This text, and no other.
    Stored(Vec<u8>),
    /// This signature, handed out.
    Handing(Vec<u8>),
}

/// A disk over single calls. `Storing` and `Handing` are noted before their calls are made, and
/// `Stored` once all of them have succeeded. In the beginning any file is possible. Keeps each
/// signature that was handed out.
#[derive(Drop)]
pub struct Logged<C> {
    alloc: Global,
    calls: C,
    log: Vec<Event>,
}

impl<C: Calls> Logged<C> {
    /// Returns the disk over these calls.
    pub fn new(alloc: Global, calls: C) -> Logged<C> {
        Logged {
            alloc,
            calls,
            log: Vec::new(alloc),
        }
    }

    /// Returns the calls.
    pub fn into_calls(self) -> C {
        let Logged { alloc, calls, log } = self;
        calls
    }
}

/// Returns whether the text is that of the file.
fn is_text(text: &[u8], file: Option<&[u8]>) -> bool
    ensures { result ≡ is_possible text.now (option_map (λ t. t.now) file.entry) }
{
    match file {
        Some(bytes) => bytes == text,
        None => false,
    }
}

/// Returns whether a crash may leave the file after these events.
fn may_leave(log: &[Event], file: Option<&[u8]>) -> bool
    ensures { result ≡ (after log.now).may_leave (option_map (λ t. t.now) file.entry) }
{
    let mut possible = true;
    'events: for event in log {
        match event {
            Event::Storing(text) => possible = possible || is_text(text, file),
            Event::Stored(text) => possible = is_text(text, file),
            Event::Handing(_) => {}
        }
    }
    possible
}

/// Notes that the text is stored. It has to be on the device, and in the log on another one.
fn note_stored<C: Calls>(
    alloc: Global,
    log: &mut Vec<Event>,
    calls: &C,
    text: &[u8],
) -> Result<(), AllocError>
    requires kept { C.keeps calls.now text.now ≡ true }
    requires recorded { C.records calls.now text.now ≡ true }
    ensures noted { OnOk result
        (Notes (λ v. event.Stored v) text.now log.old.items log.new.items) }
    ensures err { OnErr result (log.new.items ≡ log.old.items) }
{
    log.push(Event::Stored(text.to_vec(alloc)?))?;
    Ok(())
}

impl<C: Calls> Disk for Logged<C> {
    ghost moment = { λ d. length d.log.items };

    ghost left_at = { λ d t. after (take t d.log.items) };

    /// Fails with `InvalidData` if the file isn't one that is possible.
    fn read(&mut self, alloc: Global) -> io::Result<Option<Vec<u8>>> {
        let file = self.calls.read(alloc)?;
        if !may_leave(&self.log, file.as_deref()) {
            return Err(io::Error::from(ErrorKind::InvalidData));
        }
        Ok(file)
    }

    fn store(&mut self, text: &[u8]) -> io::Result<()>
        ensures stored { OnOk result (LeavesOnly (after_all self.new.log.items) text.now) }
        ensures time { Passes (length self.old.log.items) (length self.new.log.items)
            (after_first self.old.log.items) (after_first self.new.log.items)
            (IsStoring text.now) }
        ensures kept { OnOk result (C.keeps self.new.calls text.now ≡ true) }
        ensures recorded { OnOk result (C.records self.new.calls text.now ≡ true) }
        ensures unsure { OnErr result
            (HasNoMore (after_all self.new.log.items) (after_all self.old.log.items)) }
    {
        self.calls.write_new(text)?;
        self.calls.flush_new()?;
        self.log.push(Event::Storing(text.to_vec(self.alloc)?))?;
        self.calls.take_over(text, &self.log)?;
        self.calls.flush_folder()?;
        self.calls.record(text)?;
        Ok(note_stored(self.alloc, &mut self.log, &self.calls, text)?)
    }

    fn hand(&mut self, sig: &[u8]) -> io::Result<()>
        ensures handed { OnOk result ((after_all self.new.log.items).given
            ≡ (after_all self.old.log.items).given ++ sig.now ∷ []) }
        ensures time { Passes (length self.old.log.items) (length self.new.log.items)
            (after_first self.old.log.items) (after_first self.new.log.items)
            (IsHanding sig.now) }
        ensures given { OnOk result (C.gives self.new.calls sig.now ≡ true) }
    {
        self.log.push(Event::Handing(sig.to_vec(self.alloc)?))?;
        self.calls.hand(sig, &self.log)
    }
}

//! The interface of a folder for copies.

ghost use Rattle.std.specs.Prelude.{◌≡◌, ◌≢◌, List, [], ℕ, Bool, true, false, IfErr, IfOk};
ghost use Rattle.std.specs.Prelude.{IfSome, OnOk, string_bytes};
ghost use Rattle.std.specs.IoError.{error_kind};
ghost use Rattle.copies.specs.Paths.{Site, is_below};
ghost use Rattle.folder.specs.Folders.{path_below};
ghost use Rattle.system.specs.Blocked.{is_of_path};

use std::alloc::Global;
use std::io::{self, ErrorKind};
use system::Temporary;

/// A folder for copies of files. Each copy is written to a temporary file, a piece at a time, and
/// has no path until it is complete. Then it is a [`System`](system::System) that moves it to its
/// place, which is the one that stores files. A copy that is there already and has the same bytes
/// stays in its place instead.
pub trait Destination {
    /// A temporary file.
    type Temporary: Temporary + Drop;

    /// The path of the folder, and what may keep copies from being put below it. No call changes
    /// these.
    ghost site: { Self → Site };

    /// Whether a temporary file may be left.
    ghost is_left: { Self → Bool };

    /// Whether the folders of copies that were stored are flushed to the device.
    ghost is_flushed: { Self → Bool };

    /// Makes a temporary file, which is empty.
    fn begin(&mut self, alloc: Global) -> io::Result<Self::Temporary>
        ensures empty { IfOk result (λ file. Self.Temporary.took file [] ≡ true) }
        ensures failed { IfErr result (λ e. error_kind e ≢ ErrorKind.OutOfMemory
            → (site self.old).fails ≡ true) }
        ensures same_site { site self.new ≡ site self.old };

    /// Opens the copy that is there for a path, to be compared with what it takes: it is left as it
    /// is. Returns None if there is no plain file of that length with this name alone.
    fn standing(
        &mut self,
        alloc: Global,
        path: &str,
        length: u64,
    ) -> io::Result<Option<Self::Temporary>>
        requires below { is_below path.now ≡ true }
        ensures empty { IfOk result
            (λ o. IfSome o (λ file. Self.Temporary.took file [] ≡ true)) }
        ensures failed { IfErr result (λ e. error_kind e ≢ ErrorKind.OutOfMemory
            → (site self.old).fails ≡ true) }
        ensures same_site { site self.new ≡ site self.old };

    /// Ends the comparison of a copy that is there. Returns whether it has the bytes that it was
    /// compared with, and no more.
    fn is_same(&mut self, file: &mut Self::Temporary) -> bool
        ensures whole { result ≡ true → (bytes : List ℕ) → Self.Temporary.took file.old bytes ≡ true
            → Self.Temporary.wrote file.new bytes ≡ true }
        ensures same_site { site self.new ≡ site self.old };

    /// Ends the writing of a temporary file: flushes it to the device. Fails also if a piece
    /// couldn't be written.
    fn finish(&mut self, file: &mut Self::Temporary) -> io::Result<()>
        ensures whole { OnOk result (Self.Temporary.is_lost file.old ≡ false) }
        ensures wrote { OnOk result ((bytes : List ℕ) → Self.Temporary.took file.old bytes ≡ true
            → Self.Temporary.wrote file.new bytes ≡ true) }
        ensures failed { IfErr result (λ e. error_kind e ≢ ErrorKind.OutOfMemory
            → (site self.old).fails ≡ true) }
        ensures same_site { site self.new ≡ site self.old };

    /// Returns the place of the copy for a path, and makes the folders of the path.
    fn place_for(&self, alloc: Global, path: &str) -> io::Result<String>
        requires below { is_below path.now ≡ true }
        ensures place { IfOk result (λ text.
            string_bytes text ≡ path_below (site self.now).path path.now) }
        ensures blocked { IfErr result (λ e. is_of_path (error_kind e) ≡ true
            → (site self.now).blocks path.now ≡ true) }
        ensures failed { IfErr result (λ e. error_kind e ≢ ErrorKind.OutOfMemory
            → (site self.now).fails ≡ true) };

    /// Flushes the folders of the paths whose copy was stored to the device, and those above them
    /// up to this one; if this one was made, also the one that it is in. Leaves out those in which
    /// all copies stayed. `stored` has by position whether the copy was stored.
    fn flush(&mut self, alloc: Global, paths: &[String], stored: &[bool]) -> io::Result<()>
        ensures flushed { OnOk result (is_flushed self.new ≡ true) }
        ensures failed { IfErr result (λ e. error_kind e ≢ ErrorKind.OutOfMemory
            → (site self.old).fails ≡ true) }
        ensures same_site { site self.new ≡ site self.old };

    /// Removes a temporary file.
    fn discard(&mut self, file: Self::Temporary)
        ensures same_site { site self.new ≡ site self.old };

    /// Removes all temporary files.
    fn clear(&mut self, alloc: Global)
        ensures gone { is_left self.new ≡ false }
        ensures flushed { is_flushed self.new ≡ is_flushed self.old }
        ensures same_site { site self.new ≡ site self.old };
}

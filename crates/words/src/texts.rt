//! The texts of the help.

/// The end of the program's help.
pub const HELP_END: &str = "\
EXAMPLES:
  tufcheck init 1.root.json --out state
  tufcheck verify --state state --metadata repo/metadata --targets repo/targets --out state abc.txt
  tufcheck next --state state --metadata repo/metadata --targets repo/targets abc.txt
  tufcheck show state
  tufcheck key vendor.pub --out key.json
  tufcheck text draft.json > to-sign
  tufcheck attach draft.json key.json sig --out draft.json
  tufcheck signers draft.json --root 1.root.json --role timestamp
  tufcheck make first.script repo

EXIT STATUS:
  0  all wanted targets were accepted, a state was written or shown, or files, help or the version
  1  some wanted target, a key or a signature was refused, too few have signed, or `show` found a
     file that expires before --before
  2  the update stopped, or `init` refused the root file, or a metadata file or key object was
     refused
  3  the command line, the moment, the state file, the script or a listed path was refused
  4  a file, a folder, the clock, the output or memory failed";

/// The end of the help of `init`.
pub const INIT_END: &str = "\
It prints `root N`, with the root's version, or `end root FAULT`. A refused root writes no state.
Without --new a state that is there is replaced, and what it guarded against is forgotten.

EXAMPLES:
  tufcheck init --new 1.root.json --out state

EXIT STATUS:
  0  the state was written
  2  the root file was refused
  3  the command line, or with --new a state file that is there, was refused
  4  the root file, the output or memory failed";

/// The end of the help of `verify`.
pub const VERIFY_END: &str = "\
It writes the new state first, even if the update stopped, and then prints
  root N                  the version of the trusted root
  end ready               or `end STEP FAULT`, if the update stopped
  role NAME VERSION       for each delegated role that was accepted
  ok NAME LENGTH ROLE     or `no NAME WHY`, for each wanted target in order

Put `--` before the first PATH if one begins with `-`. Links in the folders are ignored.
The paths of --paths-from come after these, in its order. Each ends with a line feed, or with NUL if
there is --null; after the last one it may be missing. A path that is empty or isn't UTF-8 is an
error.
With --every each file of the targets folder is wanted, and PATH and --paths-from may not be given:
each path once, in byte order. Where names are consistent, a path is the name without `HASH.`.
With --into each accepted target is copied below DIR, under its path, from the very bytes that were
checked. A copy takes its place in one step, after the state was written and before the lines are
printed. A wanted path that is empty or absolute, has an empty part, `.` or `..`, or begins with
`.tufcheck.` is then an error, and so is a DIR that isn't apart from the other files and folders.
An accepted path that can't be written has the line `no NAME NoPlace`.
The trusted state is locked until the run has ended; another run with it waits. A file that can't be
locked is an error, unless there is --unlocked.
Workers check signatures in advance, and then digest the target files. For them at most 4 MB of
metadata are read twice. Lines, state and status are the same for any number of workers.
With --why a line `end STEP FAULT`, or `no NAME FAULT` of a target's file, is followed by lines that
begin with `why`: the file that was refused, and what the check compared that it failed. Nothing
else changes.
With --progress it also prints to standard error, at most once a second,
  tufcheck: N files read, N signatures checked, N of N bytes digested

EXAMPLES:
  tufcheck verify --state state --metadata repo/metadata --targets repo/targets --out state abc.txt
  tufcheck verify --state old --metadata m --targets t --now 2026-01-01T00:00:00Z --out new -- -c
  tufcheck verify --state old --metadata m --targets t --paths-from list --out new
  tufcheck verify --state old --metadata m --targets t --every --out new
  tufcheck verify --state state --metadata m --targets t --into new --out state abc.txt

EXIT STATUS:
  0  all wanted targets were accepted
  1  some wanted target was refused, or can have no copy
  2  the update stopped
  3  the command line, a listed path, the moment or the state file was refused
  4  the file of paths, a folder, the clock, the output or memory failed";

/// The end of the help of `replay`.
pub const REPLAY_END: &str = "\
Each DIR is a repository, with the folders `metadata` and `targets`. All are listed first. Then each
is verified in order, from the state of the one before and at one moment. It writes the last state,
even if an update stopped, and then prints for each DIR, from 1,
  cycle K
and the lines of `verify`. What it caches changes no line. The paths of --paths-from come after
PATH, and --why prints its lines, as for `verify`. --progress prints the lines of `verify`
--progress, for all DIR together.

EXAMPLES:
  tufcheck replay --state state --out state abc.txt monday tuesday wednesday
  tufcheck replay --state old --now 2026-01-01T00:00:00Z --keep 16 --out new -- -c mirror.1 mirror.2

EXIT STATUS:
  that of `verify` for the last DIR:
  0  the wanted target was accepted
  1  the wanted target was refused
  2  the last update stopped
  3  the command line, a listed path, the moment or the state file was refused
  4  the file of paths, a folder, the clock, the output or memory failed";

/// The end of the help of `next`.
pub const NEXT_END: &str = "\
It prints, in the order of `verify`, a line for each file that `verify` would look up and not find,
  maybe NAME MOST         a file that may be absent for good: the next root, or that of a target
                          under a name that isn't its last
  need NAME MOST          any other file
with the most bytes that the file may have. Names of metadata files come first, and then those of
target files. Each line comes once. It stores nothing, and reads no target file.
Fetch the files of new lines, and run it again, until no line is new. Then run `verify`.
--progress prints the same lines to standard error as for `verify`.

EXAMPLES:
  tufcheck next --state state --metadata m --targets t abc.txt
  tufcheck next --state state --metadata m --targets t --only targets --paths-from list

EXIT STATUS:
  0  the lines were printed, or there are none
  3  the command line, a listed path, the moment or the state file was refused
  4  the file of paths, a folder, the clock, the output or memory failed";

/// The end of the help of `show`.
pub const SHOW_END: &str = "\
It prints, for the root and for each other file that is trusted,
  root VERSION EXPIRES
  timestamp VERSION EXPIRES
  snapshot VERSION EXPIRES
  targets VERSION EXPIRES
where EXPIRES is the moment at which the file expires, as YYYY-MM-DDTHH:MM:SSZ. With --file it
prints the bytes of that file instead. It stores nothing.

EXAMPLES:
  tufcheck show state
  tufcheck show state --before 2026-01-08T00:00:00Z
  tufcheck show state --file root > root.json

EXIT STATUS:
  0  the state or the file was shown, and no file in it expires before the moment of --before
  1  the state was shown, and some file in it does; or it has no such file
  3  the command line, the moment or the state file was refused
  4  the output or memory failed";

/// The end of the help of `key`.
pub const KEY_END: &str = "\
It writes the key object as canonical JSON and prints
  key ID KIND HEIGHT LEAVES
or `refused length N`, `refused levels N` or `refused kind`, and then writes nothing.

EXAMPLES:
  tufcheck key vendor.pub --out key.json

EXIT STATUS:
  0  the key object was written
  1  the key was refused
  3  the command line was refused
  4  a file, the output or memory failed";

/// The end of the help of `text`.
pub const TEXT_END: &str = "\
It prints the canonical text of `signed`, with no line feed behind it. LMS signs this text itself,
and not a digest of it. A file that is refused has a line `refused WHY` on standard error.

EXAMPLES:
  tufcheck text draft/timestamp.json > to-sign

EXIT STATUS:
  0  the text was printed
  2  the file was refused
  3  the command line was refused
  4  the file, the output or memory failed";

/// The end of the help of `attach`.
pub const ATTACH_END: &str = "\
It adds the signature under the key's id, if it is valid, and prints
  entry ID LEAF           or `again ID LEAF`, if a valid entry was there already
  refused WHY             if it isn't valid, or a file is malformed; then nothing is written
Entries under the id that aren't valid are removed. A signature of HSS with one level loses its
first four bytes. WHY is `hexadecimal`, `length N M`, `kind`, `leaf N` or `root` for a signature: a
digest that was signed in place of the text is `root`.

EXAMPLES:
  tufcheck attach draft/timestamp.json key.json sig --out draft/timestamp.json

EXIT STATUS:
  0  the new file was written
  1  the signature was refused
  2  the metadata file or the key object was refused
  3  the command line was refused
  4  a file, the output or memory failed";

/// The end of the help of `signers`.
pub const SIGNERS_END: &str = "\
It prints
  why keys FILE threshold T signed N
and for each listed id
  why key ID signed LEAF  or `again ID2`, `absent`, `unusable WHY`, `unsigned` or `invalid N WHY`
up to 64, and then, if N more are listed,
  why more N

EXAMPLES:
  tufcheck signers draft/timestamp.json --root 3.root.json --role timestamp
  tufcheck signers draft/apps.json --from draft/targets.json --role apps

EXIT STATUS:
  0  enough have signed
  1  too few have signed
  2  a file was refused, or it has no such role
  3  the command line was refused
  4  a file, the output or memory failed";

/// The end of the help of `make`.
pub const MAKE_END: &str = "\
It writes `metadata/` and `targets/` below DIR and prints nothing. A refused script writes no file.

EXAMPLES:
  tufcheck make first.script repo

EXIT STATUS:
  0  the files were written
  3  the command line or the script was refused
  4  the script can't be read, or the output or memory failed";

//! The subcommands and their arguments.

use ceremony::{AttachPaths, By};
use cycle::Step;
use replay::Cycles;
use update::{First, Terms, Wants};

/// The paths of a repository's two folders.
#[derive(Clone, Copy)]
pub struct FolderPaths<'a> {
    /// The folder of metadata files.
    pub metadata: &'a str,
    /// The folder of target files.
    pub targets: &'a str,
}

/// A subcommand of the command line, with its arguments.
pub enum Subcommand<'a> {
    /// Trusts the root file of a path, and stores the state for a path.
    Init {
        /// What the arguments name.
        first: First<'a>,
    },
    /// Verifies the repository of two folders.
    Verify {
        /// What the arguments name, with the paths that a file lists.
        terms: Terms<'a>,
        /// The folders.
        folders: FolderPaths<'a>,
    },
    /// Verifies the repository of two folders, and stores copies of the good targets.
    VerifyInto {
        /// What the arguments name, with the paths that a file lists.
        terms: Terms<'a>,
        /// The folders.
        folders: FolderPaths<'a>,
        /// The path of the folder for the copies.
        into: &'a str,
    },
    /// Verifies repositories, one after another.
    Replay {
        /// What the arguments name, with the paths that a file lists.
        cycles: Cycles<'a>,
        /// The path of each repository, with the folders `metadata` and `targets` in it.
        repositories: Vec<String>,
    },
    /// Prints the names of the files that have to be fetched next.
    Next {
        /// What the arguments name, with the paths that a file lists.
        wants: Wants<'a>,
        /// The folders.
        folders: FolderPaths<'a>,
    },
    /// Prints a trusted state.
    Show {
        /// The path of the state file.
        state: &'a str,
        /// The text of the moment before which a file expires too soon.
        before: Option<&'a str>,
    },
    /// Prints one file of a trusted state.
    ShowFile {
        /// The path of the state file.
        state: &'a str,
        /// The step whose file it is.
        file: Step,
    },
    /// Makes the key object of a public key.
    Key {
        /// The path of the public key.
        from: &'a str,
        /// The path of the key object.
        to: &'a str,
    },
    /// Prints the text of a metadata file that signatures cover.
    Text {
        /// The path of the metadata file.
        file: &'a str,
    },
    /// Attaches a signature to a metadata file.
    Attach {
        /// The paths of the files.
        paths: AttachPaths<'a>,
    },
    /// Prints who signed a metadata file.
    Signers {
        /// The path of the metadata file.
        file: &'a str,
        /// The file that lists the keys, and the role.
        by: By<'a>,
    },
    /// Makes a repository from a script.
    Make {
        /// The path of the script.
        script: &'a str,
        /// The path of the folder for the repository.
        folder: &'a str,
    },
}

impl<'a> Drop for Subcommand<'a> {
    fn drop(self) {
        match self {
            Subcommand::Init { first } => {}
            Subcommand::Verify { terms, folders } => {}
            Subcommand::VerifyInto {
                terms,
                folders,
                into,
            } => {}
            Subcommand::Replay {
                cycles,
                repositories,
            } => {}
            Subcommand::Next { wants, folders } => {}
            Subcommand::Show { state, before } => {}
            Subcommand::ShowFile { state, file } => {}
            Subcommand::Key { from, to } => {}
            Subcommand::Text { file } => {}
            Subcommand::Attach { paths } => {}
            Subcommand::Signers { file, by } => {}
            Subcommand::Make { script, folder } => {}
        }
    }
}

//! What a run works on.

ghost use Rattle.std.specs.Prelude.{List, [], ◌∷◌, map};
ghost use Rattle.update.specs.World.{Mirror, World};

use folder::Folder;
use std::io::Write;
use system::System;

/// Folders of repositories, as contracts see them.
pub trait HasMirrors {
    /// What each pair of folders may return, in order.
    ghost mirrors: { Self → List Mirror };
}

/// The folder of metadata files and the folder of target files.
#[derive(Drop)]
pub struct Folders<M, T> {
    pub metadata: M,
    pub targets: T,
}

impl<M: Folder, T: Folder> HasMirrors for Folders<M, T> {
    ghost mirrors = { λ f. record {
      metadata = M.gives f.metadata;
      targets = T.gives f.targets;
    } ∷ [] };
}

impl<M: Folder, T: Folder> HasMirrors for Vec<Folders<M, T>> {
    ghost mirrors = { λ v. map (λ f. record {
      metadata = M.gives f.metadata;
      targets = T.gives f.targets;
    }) v.items };
}

/// No folders.
impl HasMirrors for () {
    ghost mirrors = { λ _. [] };
}

/// What a run works on, as contracts see it.
pub trait HasWorld {
    /// What it reads, stores and prints.
    ghost world: { Self → World };
}

/// What a run works on: single files and a clock, the folders of repositories, and a writer for
/// the lines.
#[derive(Drop)]
pub struct Host<S, F, W> {
    pub system: S,
    pub folders: F,
    pub out: W,
}

impl<S: System, F: HasMirrors, W: Write> HasWorld for Host<S, F, W> {
    ghost world = { λ h. record {
      gives = S.gives h.system;
      gives_locked = S.gives_locked h.system;
      refuses = S.refuses h.system;
      locks = S.locks h.system;
      shows = S.shows h.system;
      keeps = S.keeps h.system;
      obstacles = S.obstacles h.system;
      mirrors = F.mirrors h.folders;
      printed = W.contents h.out;
    } };
}

//! The arguments of the commands.

use crate::arguments::{Argument, Form};

/// The arguments of `init`.
pub const INIT: &[Argument] = &[
    Argument {
        name: "ROOT",
        form: Form::One,
        help: "The root file",
    },
    Argument {
        name: "new",
        form: Form::Switch {
            needs: &[],
            conflicts: &[],
        },
        help: "Fails if there is a file already",
    },
    Argument {
        name: "out",
        form: Form::Needed("STATE"),
        help: "Where the state is written",
    },
];

/// The arguments of `verify`.
pub const VERIFY: &[Argument] = &[
    STATE,
    UNLOCKED,
    METADATA,
    TARGETS,
    NOW,
    LIMIT,
    WORKERS,
    PATHS_FROM,
    NULL,
    EVERY,
    INTO,
    WHY,
    PROGRESS,
    Argument {
        name: "out",
        form: Form::Needed("STATE"),
        help: "Where the new state is written",
    },
    PATHS,
];

/// The arguments of `replay`.
pub const REPLAY: &[Argument] = &[
    STATE,
    UNLOCKED,
    NOW,
    LIMIT,
    WORKERS,
    KEEP,
    PATHS_FROM,
    NULL,
    WHY,
    PROGRESS,
    Argument {
        name: "out",
        form: Form::Needed("STATE"),
        help: "Where the last state is written",
    },
    Argument {
        name: "PATH",
        form: Form::One,
        help: "The wanted target",
    },
    Argument {
        name: "DIR",
        form: Form::Several(1),
        help: "The repositories, in order",
    },
];

/// The arguments of `next`.
pub const NEXT: &[Argument] = &[
    STATE, METADATA, TARGETS, NOW, LIMIT, PATHS_FROM, NULL, ONLY, PROGRESS, PATHS,
];

/// The arguments of `show`.
pub const SHOW: &[Argument] = &[
    Argument {
        name: "STATE",
        form: Form::One,
        help: "The trusted state",
    },
    Argument {
        name: "before",
        form: Form::Value("TEXT"),
        help: "Status 1 if a file expires before this moment, as YYYY-MM-DDTHH:MM:SSZ",
    },
    Argument {
        name: "file",
        form: Form::Choice {
            value: "FILE",
            of: &["root", "timestamp", "snapshot", "targets"],
            conflicts: &["before"],
        },
        help: "Print this file's bytes; status 1 if it isn't trusted",
    },
];

/// The arguments of `key`.
pub const KEY: &[Argument] = &[
    Argument {
        name: "FILE",
        form: Form::One,
        help: "The public key: 56 bytes, or 60 of HSS with one level; raw or hexadecimal",
    },
    Argument {
        name: "out",
        form: Form::Needed("FILE"),
        help: "Where the key object is written",
    },
];

/// The arguments of `text`.
pub const TEXT: &[Argument] = &[DRAFT];

/// The arguments of `attach`.
pub const ATTACH: &[Argument] = &[
    DRAFT,
    Argument {
        name: "KEY",
        form: Form::One,
        help: "The key object",
    },
    Argument {
        name: "SIG",
        form: Form::One,
        help: "The signature; raw or hexadecimal",
    },
    Argument {
        name: "out",
        form: Form::Needed("FILE"),
        help: "Where the new file is written; it may be FILE",
    },
];

/// The arguments of `signers`.
pub const SIGNERS: &[Argument] = &[
    DRAFT,
    Argument {
        name: "root",
        form: Form::Value("FILE"),
        help: "The root file that lists the keys",
    },
    Argument {
        name: "from",
        form: Form::Value("FILE"),
        help: "The targets file that delegates to the role, in place of --root",
    },
    Argument {
        name: "role",
        form: Form::Needed("NAME"),
        help: "The role: root, timestamp, snapshot or targets, or with --from a delegated one",
    },
];

/// The arguments of `make`.
pub const MAKE: &[Argument] = &[
    Argument {
        name: "SCRIPT",
        form: Form::One,
        help: "The script",
    },
    Argument {
        name: "DIR",
        form: Form::One,
        help: "The folder below which the files are written",
    },
];

const DRAFT: Argument = Argument {
    name: "FILE",
    form: Form::One,
    help: "The metadata file, which may have no signatures yet",
};

const STATE: Argument = Argument {
    name: "state",
    form: Form::Needed("STATE"),
    help: "The trusted state",
};

const UNLOCKED: Argument = Argument {
    name: "unlocked",
    form: Form::Switch {
        needs: &[],
        conflicts: &[],
    },
    help: "Don't lock the trusted state, for a file system without locks",
};

const METADATA: Argument = Argument {
    name: "metadata",
    form: Form::Needed("DIR"),
    help: "The folder of metadata files, not of those in folders below it",
};

const TARGETS: Argument = Argument {
    name: "targets",
    form: Form::Needed("DIR"),
    help: "The folder of target files, and of those in folders below it",
};

const NOW: Argument = Argument {
    name: "now",
    form: Form::Value("TEXT"),
    help: "The moment, as YYYY-MM-DDTHH:MM:SSZ, in place of the clock's",
};

const LIMIT: Argument = Argument {
    name: "limit",
    form: Form::Number {
        least: 1,
        most: 256,
        default: "32",
    },
    help: "Maximum number of roles that the search for a target visits, 1 to 256",
};

const WORKERS: Argument = Argument {
    name: "workers",
    form: Form::Number {
        least: 0,
        most: 64,
        default: "4",
    },
    help: "Threads that check signatures in advance and digest target files, 0 to 64",
};

const PATHS_FROM: Argument = Argument {
    name: "paths-from",
    form: Form::Value("FILE"),
    help: "A file with further wanted paths, one a line; `-` is standard input",
};

const NULL: Argument = Argument {
    name: "null",
    form: Form::Switch {
        needs: &["paths-from"],
        conflicts: &[],
    },
    help: "Each path of that file ends with a NUL byte, and not with a line feed",
};

const EVERY: Argument = Argument {
    name: "every",
    form: Form::Switch {
        needs: &[],
        conflicts: &["paths-from", "null", "PATH"],
    },
    help: "Each file of the targets folder is wanted, by its path",
};

const INTO: Argument = Argument {
    name: "into",
    form: Form::Value("DIR"),
    help: "The folder below which each accepted target is copied, under its path",
};

const WHY: Argument = Argument {
    name: "why",
    form: Form::Switch {
        needs: &[],
        conflicts: &[],
    },
    help: "Print why files are refused: the file, and what was compared",
};

const PROGRESS: Argument = Argument {
    name: "progress",
    form: Form::Switch {
        needs: &[],
        conflicts: &[],
    },
    help: "Print to standard error what was done so far, at most once a second",
};

const KEEP: Argument = Argument {
    name: "keep",
    form: Form::Number {
        least: 1,
        most: 4096,
        default: "64",
    },
    help: "Maximum number of files whose verdicts are cached, 1 to 4096",
};

const ONLY: Argument = Argument {
    name: "only",
    form: Form::Choice {
        value: "FOLDER",
        of: &["metadata", "targets"],
        conflicts: &[],
    },
    help: "Print the files of that folder alone",
};

const PATHS: Argument = Argument {
    name: "PATH",
    form: Form::Several(0),
    help: "The wanted targets",
};

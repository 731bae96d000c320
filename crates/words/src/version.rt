//! The version.

/// What `--version` prints behind the program's name: the version, and the logic of the kit that
/// the proofs are for. `checks/gate/version.sh` compares it with what else names them.
pub const VERSION: &str = "1.0.0 (rattle logic dac8208d650f15bf)";

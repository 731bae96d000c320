//! The result of a look at a check.

ghost use Rattle.std.specs.Prelude.{◌≡◌, ◌≤◌};
ghost use Rattle.board.specs.Board.{word_of_look};

/// The values of a check's word.
pub(crate) const OPEN: u64 = 0;

pub(crate) const TAKEN: u64 = 1;

pub(crate) const VALID: u64 = 2;

pub(crate) const INVALID: u64 = 3;

/// The result of a look at a check. Only a verdict is final: an open check may be claimed, and a
/// taken one released or decided, before the caller reads the result.
#[derive(Clone, Copy, PartialEq, Eq, Debug)]
pub enum Look {
    /// No seat has claimed the check, and it has no verdict.
    Open,
    /// Some seat has claimed the check.
    Taken,
    /// The check is true.
    Valid,
    /// The check is false.
    Invalid,
}

impl Look {
    /// Returns the meaning of a check's word.
    pub(crate) fn of_word(word: u64) -> Look
        requires { word ≤ 3 }
        ensures { word_of_look result ≡ word }
    {
        match word {
            OPEN => Look::Open,
            TAKEN => Look::Taken,
            VALID => Look::Valid,
            _ => Look::Invalid,
        }
    }
}

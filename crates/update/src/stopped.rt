//! Why a cycle stopped, if that is asked for.

ghost use Rattle.std.specs.Prelude.{◌≡◌, IfOk, string_bytes};
ghost use Rattle.examine.specs.Checks.{file_in};
ghost use Rattle.update.specs.Runs.{why_text};

use crate::start::{Detail, Start};
use cjson::NoMemory;
use cycle::{Course, End};
use examine::Context;
use std::collections::BTreeMap;
use whys::stop_lines;

/// Returns the lines that say why the cycle stopped that has this course on these metadata files.
/// There are none if the start doesn't ask for them, or if it didn't stop. Fails only if out of
/// memory.
pub fn why_lines(
    start: &Start<'_>,
    files: &BTreeMap<String, Vec<u8>>,
    course: &Course,
) -> Result<String, NoMemory>
    ensures lines { IfOk result (λ text. string_bytes text ≡ why_text start.now.detail
        (file_in files.now) start.now.moment course.now.trusted course.now.end) }
{
    match start.detail {
        Detail::Faults => Ok(String::new(start.alloc)),
        Detail::Reasons => end_lines(start, files, course),
    }
}

fn end_lines(
    start: &Start<'_>,
    files: &BTreeMap<String, Vec<u8>>,
    course: &Course,
) -> Result<String, NoMemory>
    ensures { IfOk result (λ text. string_bytes text ≡ why_text Detail.Reasons
        (file_in files.now) start.now.moment course.now.trusted course.now.end) }
{
    let context = Context {
        alloc: start.alloc,
        files,
        moment: start.moment,
    };
    match course.end() {
        End::Ready => Ok(String::new(start.alloc)),
        End::Stopped(step, fault) => stop_lines(&context, course.trusted(), step, fault),
    }
}

//! The paths of copies.

ghost use Rattle.std.specs.Prelude.{◌≡◌, ◌==◌, map, string_bytes};
ghost use Rattle.std.specs.List.{list_all, slice_split};
ghost use Rattle.copies.specs.Paths as spec;

/// The start of the path of each temporary file, and of no copy.
const RESERVED: &[u8] = b".tufcheck.";

/// Returns whether a copy may have the path: the path isn't empty or absolute, no part between its
/// slashes is empty, `.` or `..`, and it doesn't begin with `.tufcheck.`, in any case.
pub fn is_below(path: &str) -> bool
    ensures test { result ≡ spec.is_below path.now }
{
    has_parts(path) && !is_reserved(path)
}

/// Returns whether copies may have all of the paths.
pub fn are_below(paths: &[String]) -> bool
    ensures test { result ≡ list_all spec.is_below (map string_bytes paths.now) }
{
    paths.iter().all(|path| is_below(path.as_str()))
}

fn is_part(part: &str) -> bool
    ensures { result ≡ spec.is_part part.now }
{
    part != "" && part != "." && part != ".."
}

fn has_parts(path: &str) -> bool
    ensures test { result ≡ list_all spec.is_part (slice_split (λ c. c == 47) path.now) }
{
    path.split('/').all(is_part)
}

fn is_reserved(path: &str) -> bool
    ensures test { result ≡ spec.is_reserved path.now }
{
    let bytes = path.as_bytes();
    bytes[..RESERVED.len().min(bytes.len())].eq_ignore_ascii_case(RESERVED)
}

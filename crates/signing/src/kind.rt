//! The kinds of public key.

ghost use Rattle.std.specs.Prelude.{◌≡◌, ◌^◌, Some};
ghost use Rattle.lms.specs.Lms.{levels, public_kind};

use lms::{Height, Public, Width};

/// The kind of a public key.
#[derive(Clone, Copy, Debug, PartialEq, Eq)]
pub struct KeyKind {
    /// The bits of a digit of the one-time signatures.
    pub width: Width,
    /// The height of the tree.
    pub height: Height,
}

/// Returns the kind of the key.
pub fn kind_of(public: &Public) -> KeyKind
    ensures kind { public_kind public.now
        ≡ Some (record { width = result.width; height = result.height }) }
{
    let _is_public = public.bytes();
    let length = public.signature_len();
    if length == 2348 {
        return kind(Width::W4, Height::H5);
    }
    if length == 2508 {
        return kind(Width::W4, Height::H10);
    }
    if length == 2668 {
        return kind(Width::W4, Height::H15);
    }
    if length == 1292 {
        return kind(Width::W8, Height::H5);
    }
    if length == 1452 {
        return kind(Width::W8, Height::H10);
    }
    kind(Width::W8, Height::H15)
}

fn kind(width: Width, height: Height) -> KeyKind
    ensures { result ≡ record { width = width; height = height } }
{
    KeyKind { width, height }
}

/// Returns the number of leaves of a tree.
pub fn leaf_count(height: Height) -> u32
    ensures value { result ≡ 2 ^ levels height }
{
    match height {
        Height::H5 => 32,
        Height::H10 => 1024,
        Height::H15 => 32768,
    }
}

//! Arrays made by functions of a type parameter. If the number of lanes is a parameter, the
//! toolchain refuses an array literal of vectors.

ghost use Rattle.std.specs.Prelude.{◌≡◌, ◌++◌, ◌∷◌, []};

#[inline(always)]
pub(crate) fn three<T: Copy>(a: T, b: T, c: T) -> [T; 3]
    ensures { result ≡ a ∷ b ∷ c ∷ [] }
{
    [a, b, c]
}

#[inline(always)]
pub(crate) fn four<T: Copy>(a: T, b: T, c: T, d: T) -> [T; 4]
    ensures { result ≡ a ∷ b ∷ c ∷ d ∷ [] }
{
    [a, b, c, d]
}

#[inline(always)]
pub(crate) fn six<T: Copy>(first: [T; 3], last: [T; 3]) -> [T; 6]
    ensures { result ≡ first ++ last }
{
    let [a, b, c] = first;
    let [d, e, f] = last;
    [a, b, c, d, e, f]
}

#[inline(always)]
pub(crate) fn eight<T: Copy>(first: [T; 4], last: [T; 4]) -> [T; 8]
    ensures { result ≡ first ++ last }
{
    let [a, b, c, d] = first;
    let [e, f, g, h] = last;
    [a, b, c, d, e, f, g, h]
}

#[inline(always)]
pub(crate) fn sixteen<T: Copy>(first: [T; 8], last: [T; 8]) -> [T; 16]
    ensures { result ≡ first ++ last }
{
    let [a, b, c, d, e, f, g, h] = first;
    let [i, j, k, l, m, n, o, p] = last;
    [a, b, c, d, e, f, g, h, i, j, k, l, m, n, o, p]
}

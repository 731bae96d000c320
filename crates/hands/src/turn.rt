//! The order of the numbers where the parts are taken in turns.

ghost use Rattle.std.specs.Prelude.{◌≡◌, ◌<◌};
ghost use Rattle.hands.specs.Parts.{IsNumber, HasTurn};

/// Returns the place of number `n` if the parts of all workers are taken in turns: the first
/// numbers of all parts come first, then the second ones, and so on.
pub(crate) fn turn_of(count: usize, workers: usize, n: usize) -> usize
    requires some { 0 < workers }
    requires below { n < count }
    ensures turn { HasTurn count workers n result }
    ensures below { result < count }
{
    let (k, before) = place_of(count, workers, n);
    before * workers + k
}

/// Returns the part that number `n` is of, and how many numbers of that part come before it.
fn place_of(count: usize, workers: usize, n: usize) -> (usize, usize)
    requires some { 0 < workers }
    requires below { n < count }
    ensures { IsNumber count workers n result.0 result.1 }
{
    let (size, longer) = (count / workers, count % workers);
    let border = longer * size + longer;
    if n < border {
        (n / (size + 1), n % (size + 1))
    } else {
        let beyond = n - border;
        (longer + beyond / size, beyond % size)
    }
}

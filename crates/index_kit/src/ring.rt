// Places in a ring, in which the first comes after the last.
ghost use Rattle.std.specs.Prelude.{◌≡◌, ◌<◌};
ghost use Rattle.index_kit.specs.Ring.{place_behind, steps};

// The place after another.
pub(crate) fn place_behind(size: usize, at: usize) -> usize
    requires { at < size }
    ensures value { result ≡ place_behind size at }
    ensures within { result < size }
{
    if at + 1 == size { 0 } else { at + 1 }
}

// How many places on from one the other is.
pub(crate) fn steps(size: usize, from: usize, to: usize) -> usize
    requires from { from < size }
    requires to { to < size }
    ensures { result ≡ steps size from to }
{
    if from <= to {
        to - from
    } else {
        size - from + to
    }
}

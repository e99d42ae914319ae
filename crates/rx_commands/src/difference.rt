ghost use Rattle.std.specs.Prelude.{◌≡◌, ◌≤◌, MatchOption, drop, length, nat_eq, take};
ghost use Rattle.std.specs.Cmp.Lexicographic.{pointwise};
ghost use Rattle.rx_commands.specs.Difference.{IsFirstDifference};

// How many bytes are compared without a branch at each.
const BLOCK: usize = 64;

/// The first place at which two texts differ, in bytes from their start, which is 0; None where they are the same. At
/// the end of the shorter text the place is its length.
pub fn first_difference(ours: &[u8], theirs: &[u8]) -> Option<usize>
    ensures { MatchOption result (ours.now ≡ theirs.now) (IsFirstDifference ours.now theirs.now) }
{
    let mut at = same_blocks(ours, theirs);
    while at < ours.len() && at < theirs.len() && ours[at] == theirs[at] {
        at += 1;
    }
    if at == ours.len() && at == theirs.len() {
        None
    } else {
        Some(at)
    }
}

// How many bytes stand before the first block in which two texts differ, or of which one of them has a part.
fn same_blocks(ours: &[u8], theirs: &[u8]) -> usize
    ensures ours { result ≤ length ours.now }
    ensures theirs { result ≤ length theirs.now }
    ensures same { take result ours.now ≡ take result theirs.now }
{
    let mut at = 0;
    while at + BLOCK <= ours.len()
        && at + BLOCK <= theirs.len()
        && are_same(&ours[at..at + BLOCK], &theirs[at..at + BLOCK])
    {
        at += BLOCK;
    }
    at
}

// Whether two texts of one length are the same. Each of their bytes is looked at.
fn are_same(ours: &[u8], theirs: &[u8]) -> bool
    requires { length ours.now ≡ length theirs.now }
    ensures { result ≡ pointwise nat_eq ours.now theirs.now }
{
    let mut same = true;
    for (one, other) in ours.iter().zip(theirs) {
        same &= one == other;
    }
    same
}

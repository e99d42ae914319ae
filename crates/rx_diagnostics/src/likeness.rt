ghost use Rattle.std.specs.Prelude.{◌≡◌, ◌≤◌, length, map, option_copied};
ghost use Rattle.rx_diagnostics.specs.Likeness.{apart, at_end, in_front, nearest};

// The most bytes that are left of a misspelt key, or of the known one, once what they have in common at the front and at
// the end is cut.
const MOST_APART: usize = 3;

/// The known name that is most like a given one, at most three bytes apart, and the first of several; None if there is
/// none.
pub fn nearest<'t>(name: &[u8], known: &[&'t str]) -> Option<&'t str>
    ensures { option_copied result ≡ nearest name.now (map (λ k. k.now) known.now) }
{
    let mut best = None;
    let mut least = MOST_APART + 1;
    for candidate in known {
        let apart = apart(name, candidate.as_bytes());
        if apart < least && apart < candidate.len() {
            least = apart;
            best = Some(*candidate);
        }
    }
    best
}

// How many bytes of the longer text are left, once what both have at the front and at the end is cut.
fn apart(one: &[u8], other: &[u8]) -> usize
    ensures { result ≡ apart one.now other.now }
{
    let front = in_front(one, other);
    let end = at_end(one, other);
    let shorter = one.len().min(other.len());
    let longer = one.len().max(other.len());
    longer - front.saturating_add(end).min(shorter)
}

// How many bytes both have at the front.
fn in_front(one: &[u8], other: &[u8]) -> usize
    ensures { result ≡ in_front one.now other.now }
{
    let mut count = 0;
    while count < one.len() && count < other.len() && one[count] == other[count] {
        count += 1;
    }
    count
}

// How many bytes both have at the end.
fn at_end(one: &[u8], other: &[u8]) -> usize
    ensures { result ≡ at_end one.now other.now }
{
    let mut count = 0;
    while count < one.len()
        && count < other.len()
        && one[one.len() - 1 - count] == other[other.len() - 1 - count]
    {
        count += 1;
    }
    count
}

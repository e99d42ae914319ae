ghost use Rattle.std.specs.Prelude.{◌≡◌, ◌≤◌, count_by, drop, length, take};
ghost use Rattle.std.specs.List.{prefix_len};
ghost use Rattle.rx_commands.specs.Difference.{is_end, is_inside, piece_of};

/// How many pieces of a text, each ended by this byte, stand whole before a place.
pub fn pieces_before(text: &[u8], at: usize, end: u8) -> usize
    ensures { result ≡ count_by (is_end end) (take at text.now) }
{
    text.iter().take(at).filter(|byte| **byte == end).count()
}

/// What stands in a text from a place to the end of the piece there; no byte after the text.
#[tactic(auto, using(std::proofs::lemmas::List::drop_all))]
pub fn rest_of_piece(text: &[u8], at: usize, end: u8) -> &[u8]
    ensures { result.now ≡ piece_of end (drop at text.now) }
{
    if at >= text.len() {
        return &[];
    }
    let rest = &text[at..];
    &rest[..inside(rest, end)]
}

// How many bytes stand before the first that ends a piece.
fn inside(bytes: &[u8], end: u8) -> usize
    ensures value { result ≡ prefix_len (is_inside end) bytes.now }
    ensures within { result ≤ length bytes.now }
{
    let mut inside = 0;
    while inside < bytes.len() && bytes[inside] != end {
        inside += 1;
    }
    inside
}

ghost use Rattle.std.specs.Prelude.{◌≡◌, Some, IfSome};
ghost use Rattle.rx_books_text.specs.declared.head.Head.{Head};
ghost use Rattle.rx_books_text.specs.LineFits.{IsPeriod};
ghost use Rattle.rx_books_text.specs.LineReading.{head_in, head_of, version_in};
ghost use Rattle.rx_books_text.specs.LineText.{head_text};

use crate::cut::split;
use crate::field::period_in;
use crate::version::Version;
use rx_fields::Period;

/// What the head line of a books file says.
#[derive(Clone, Copy, PartialEq, Eq)]
pub struct Head {
    /// The version of the lines after it.
    pub version: Version,
    /// The benefit period of the totals.
    pub period: Period,
}

/// The head that the text of a line is, without its line feed (docs/FORMATS.md, "Books file").
pub fn read_head(text: &[u8]) -> Option<Head>
    ensures value { result ≡ head_of text.now }
    ensures found { IfSome result (λ head. IsPeriod head.period × (text.now ≡ head_text head)) }
    ensures only { (head : Head) → IsPeriod head.period → text.now ≡ head_text head → result ≡ Some head }
{
    head_of(text)
}

// The head that a text is read as.
#[tactic(auto, unfolding(crate::specs::LineReading::head_of))]
fn head_of(text: &[u8]) -> Option<Head>
    ensures { result ≡ head_of text.now }
{
    if !text.starts_with(b"BOOKS|") {
        return None;
    }
    head_in(&text[6..])
}

// The head after its label.
#[tactic(auto, unfolding(crate::specs::LineReading::head_in))]
fn head_in(bytes: &[u8]) -> Option<Head>
    ensures { result ≡ head_in bytes.now }
{
    let (version, rest) = split(bytes)?;
    let (first, last) = split(rest)?;
    let version = version_in(version)?;
    let period = period_in(first, last)?;
    Some(Head { version, period })
}

// The version that a field is.
fn version_in(field: &[u8]) -> Option<Version>
    ensures { result ≡ version_in field.now }
{
    if field == b"1".as_slice() {
        Some(Version::One)
    } else if field == b"2".as_slice() {
        Some(Version::Two)
    } else if field == b"3".as_slice() {
        Some(Version::Three)
    } else {
        None
    }
}

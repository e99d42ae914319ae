ghost use Rattle.std.specs.Prelude.{◌≡◌, ◌-◌, IfOk, option_copied, string_bytes};
ghost use Rattle.rx_diagnostics.specs.BooksTexts.{after_text, below_text, called, claim_telling, key_of, keys_telling};
ghost use Rattle.rx_diagnostics.specs.BooksTexts.{kind_of, kinds_text, memberless_text, order_of, order_telling, rank_of};
ghost use Rattle.rx_diagnostics.specs.BooksTexts.{telling_of, twice_text, unknown_telling, unlisted_text};
ghost use Rattle.rx_diagnostics.specs.Parts.{line_of};

use crate::books_members::{is_listed, nearest};
use crate::quoting::{field_of, line_of, shown};
use crate::words::Said;
use std::alloc::{AllocError, Global};

// Puts the head line first, then the members, the claims and all other lines, each of them by their key.
const SORT: &str =
    "LC_ALL=C sh -c 'for k in B M C \"[^BMC]\"; do grep \"^$k\" \"$1\" | sort -t\"|\" -k2,2 -k3,3$([ \"$k\" = C ] && echo n) \
    -k4,4; done > \"$1.new\" && mv \"$1.new\" \"$1\"' sh";

/// What is said of a line that stands out of order.
pub(crate) fn order_words(alloc: Global, text: &[u8], number: u64) -> Result<Said, AllocError>
    ensures { IfOk result (λ said. telling_of said
        ≡ order_telling (line_of text.now number) (line_of text.now (number - 1)) number) }
{
    lines_words(
        alloc,
        line_of(text, number),
        line_of(text, number.saturating_sub(1)),
        number,
    )
}

// What is said of a line and the one above it.
#[tactic(auto, unfolding(crate::specs::BooksTexts::order_telling))]
fn lines_words(alloc: Global, line: &[u8], above: &[u8], number: u64) -> Result<Said, AllocError>
    ensures { IfOk result (λ said. telling_of said ≡ order_telling line.now above.now number) }
{
    let (kind, kind_above) = (LineKind::of(line), LineKind::of(above));
    if kind.rank() != kind_above.rank() {
        let text = kinds_words(alloc, kind, kind_above)?;
        return Ok(Said { text, mend: SORT });
    }
    let key = key_of(alloc, line)?;
    let before = key_of(alloc, above)?;
    keys_words(alloc, key.as_str(), before.as_str(), kind.order(), number)
}

// What is said of a line after one of another kind.
#[tactic(auto, using(std::proofs::Common::append_assoc))]
fn kinds_words(alloc: Global, kind: LineKind, above: LineKind) -> Result<String, AllocError>
    ensures { IfOk result (λ said. string_bytes said ≡ kinds_text kind above) }
{
    let one = kind.name();
    let other = above.name();
    format!(in alloc;
        "a {one} line comes after a {other} line: first come all M, then all C, then all T"
    )
}

// What is said of a key and the one above it.
#[tactic(auto, unfolding(crate::specs::BooksTexts::keys_telling))]
fn keys_words(
    alloc: Global,
    key: &str,
    before: &str,
    order: &str,
    number: u64,
) -> Result<Said, AllocError>
    ensures { IfOk result (λ said. telling_of said ≡ keys_telling key.now before.now order.now number) }
{
    if key == before {
        return Ok(Said::plain(twice_words(alloc, key, number)?));
    }
    let text = after_words(alloc, key, before, order)?;
    Ok(Said { text, mend: SORT })
}

#[tactic(auto, using(std::proofs::Common::append_assoc))]
fn twice_words(alloc: Global, key: &str, number: u64) -> Result<String, AllocError>
    ensures { IfOk result (λ said. string_bytes said ≡ twice_text key.now number) }
{
    let first = number.saturating_sub(1);
    format!(in alloc; "{key} is listed twice, first at line {first}: delete one of these lines")
}

#[tactic(auto, using(std::proofs::Common::append_assoc))]
fn after_words(alloc: Global, key: &str, before: &str, order: &str) -> Result<String, AllocError>
    ensures { IfOk result (λ said. string_bytes said ≡ after_text key.now before.now order.now) }
{
    format!(in alloc; "{key} comes after {before}: {order}")
}

/// What a line after the head is about.
#[derive(Clone, Copy)]
pub(crate) enum LineKind {
    Member,
    Claim,
    Total,
}

impl LineKind {
    /// The kind of a line, by its first byte.
    pub(crate) fn of(line: &[u8]) -> LineKind
        ensures { result ≡ kind_of line.now }
    {
        if line.starts_with(b"M") {
            LineKind::Member
        } else if line.starts_with(b"C") {
            LineKind::Claim
        } else {
            LineKind::Total
        }
    }

    // Where lines of the kind stand among the others.
    fn rank(self) -> u8
        ensures { result ≡ rank_of self }
    {
        match self {
            LineKind::Member => 1,
            LineKind::Claim => 2,
            LineKind::Total => 3,
        }
    }

    /// What a line of the kind is called.
    pub(crate) fn name(self) -> &'static str
        ensures { result.now ≡ called self }
    {
        match self {
            LineKind::Member => "member",
            LineKind::Claim => "claim",
            LineKind::Total => "total",
        }
    }

    // In what order the lines of the kind stand.
    fn order(self) -> &'static str
        ensures { result.now ≡ order_of self }
    {
        match self {
            LineKind::Member => "members ascend by family, then person",
            LineKind::Claim => "claims ascend by provider, reference and date",
            LineKind::Total => "totals ascend by family",
        }
    }
}

// The key of a line, its parts joined by strokes.
#[tactic(auto, using(std::proofs::Common::append_assoc))]
fn key_of(alloc: Global, line: &[u8]) -> Result<String, AllocError>
    ensures { IfOk result (λ key. string_bytes key ≡ key_of line.now) }
{
    let one = shown(alloc, field_of(line, 2))?;
    if line.starts_with(b"M") {
        let two = shown(alloc, field_of(line, 3))?;
        format!(in alloc; "{one}/{two}")
    } else if line.starts_with(b"C") {
        let two = shown(alloc, field_of(line, 3))?;
        let three = shown(alloc, field_of(line, 4))?;
        format!(in alloc; "{one}/{two}/{three}")
    } else {
        Ok(one)
    }
}

/// What is said of a claim whose member isn't listed, or only below, or of a total whose family has no member.
#[tactic(auto, unfolding(crate::specs::BooksTexts::unknown_telling))]
pub(crate) fn unknown_words(alloc: Global, text: &[u8], number: u64) -> Result<Said, AllocError>
    ensures { IfOk result (λ said. telling_of said ≡ unknown_telling text.now number) }
{
    let line = line_of(text, number);
    if line.starts_with(b"T") {
        return Ok(Said::plain(memberless_words(alloc, field_of(line, 2))?));
    }
    claim_words(alloc, text, number, field_of(line, 5), field_of(line, 6))
}

// What is said of a claim of this member.
fn claim_words(
    alloc: Global,
    text: &[u8],
    number: u64,
    family: &[u8],
    person: &[u8],
) -> Result<Said, AllocError>
    ensures { IfOk result (λ said. telling_of said ≡ claim_telling text.now number family.now person.now) }
{
    if is_listed(text, family, person) {
        let text = below_words(alloc, family, person)?;
        return Ok(Said { text, mend: SORT });
    }
    let above = number.saturating_sub(1) as usize;
    let said = unlisted_words(alloc, family, person, nearest(text, above, family, person))?;
    Ok(Said::plain(said))
}

// What is said of a claim above the line of its member.
#[tactic(auto, using(std::proofs::Common::append_assoc))]
fn below_words(alloc: Global, family: &[u8], person: &[u8]) -> Result<String, AllocError>
    ensures { IfOk result (λ said. string_bytes said ≡ below_text family.now person.now) }
{
    let family = shown(alloc, family)?;
    let person = shown(alloc, person)?;
    format!(in alloc;
        "member {family}/{person} is listed only below this claim: first come all M, then all C, then all T"
    )
}

// What is said of a total line of a family that has no member.
#[tactic(auto, using(std::proofs::Common::append_assoc))]
fn memberless_words(alloc: Global, family: &[u8]) -> Result<String, AllocError>
    ensures { IfOk result (λ said. string_bytes said ≡ memberless_text family.now) }
{
    let family = shown(alloc, family)?;
    format!(in alloc;
        "family {family} has a total line and no member: no M line above has this family"
    )
}

// What is said of a member who isn't listed.
#[tactic(auto, using(std::proofs::Common::append_assoc))]
fn unlisted_words(
    alloc: Global,
    family: &[u8],
    person: &[u8],
    nearest: Option<&[u8]>,
) -> Result<String, AllocError>
    ensures { IfOk result (λ said. string_bytes said ≡ unlisted_text family.now person.now (option_copied nearest.entry)) }
{
    let person = shown(alloc, person)?;
    let name = shown(alloc, family)?;
    match nearest {
        Some(listed) => {
            let listed = shown(alloc, listed)?;
            format!(in alloc;
                "member {name}/{person} isn't listed: the nearest person of the family is {name}/{listed}"
            )
        }
        None => format!(in alloc;
            "member {name}/{person} isn't listed: no M line above has family {name}"
        ),
    }
}

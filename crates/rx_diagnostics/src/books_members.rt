ghost use Rattle.std.specs.Prelude.{◌≡◌, option_copied, take};
ghost use Rattle.rx_text.specs.Bytes.{cut};
ghost use Rattle.rx_diagnostics.specs.BooksMembers.{is_found, is_listed, is_member_of, is_until, nearer, nearest, persons_in};

use crate::quoting::field_of;

/// The person of a family that comes last before this one among those that the first lines of a books file list, or else
/// the first of them.
pub(crate) fn nearest<'t>(
    text: &'t [u8],
    lines: usize,
    family: &[u8],
    person: &[u8],
) -> Option<&'t [u8]>
    ensures { option_copied result ≡ nearest person.now (persons_in family.now (take lines (cut 10 text.now))) }
{
    let mut found = None;
    for line in text.split(|b| *b == b'\n').take(lines) {
        if is_member_of(family, line) {
            found = nearer(person, found, field_of(line, 3));
        }
    }
    found
}

/// Whether a books file lists this person of a family in any of its lines.
pub(crate) fn is_listed(text: &[u8], family: &[u8], person: &[u8]) -> bool
    ensures { result ≡ is_listed text.now family.now person.now }
{
    is_found(person, nearest(text, text.len(), family, person))
}

fn is_found(person: &[u8], listed: Option<&[u8]>) -> bool
    ensures { result ≡ is_found person.now (option_copied listed.entry) }
{
    match listed {
        Some(listed) => listed == person,
        None => false,
    }
}

// Whether a line is a member's, of the family.
fn is_member_of(family: &[u8], line: &[u8]) -> bool
    ensures { result ≡ is_member_of family.now line.now }
{
    line.starts_with(b"M|") && field_of(line, 2) == family
}

// The one of two listed persons that is nearer to a person; the second doesn't come before the first.
fn nearer<'t>(person: &[u8], found: Option<&'t [u8]>, listed: &'t [u8]) -> Option<&'t [u8]>
    ensures { option_copied result ≡ nearer person.now (option_copied found.entry) listed.entry.now }
{
    match found {
        Some(found) if !is_until(person, listed) => Some(found),
        _ => Some(listed),
    }
}

// Whether a listed person doesn't come after this one.
fn is_until(person: &[u8], listed: &[u8]) -> bool
    ensures { result ≡ is_until person.now listed.now }
{
    listed.cmp(person).is_le()
}

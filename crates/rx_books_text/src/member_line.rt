ghost use Rattle.std.specs.Prelude.{◌≡◌, option_map};
ghost use Rattle.rx_books_text.specs.LineReading.{member_in, member_key_at, member_key_in};

use crate::cut::split;
use crate::field::{family_in, id_in, period_in, wide_number_in};
use crate::line::MemberLine;
use rx_ledger::{Member, MemberKey};

/// The member line of these bytes after its kind.
#[tactic(auto, unfolding(crate::specs::LineReading::member_in))]
pub(crate) fn member_line(bytes: &[u8]) -> Option<MemberLine>
    ensures { result ≡ member_in bytes.now }
{
    let Some((key, rest)) = member_key_at(bytes) else {
        return None;
    };
    let (first, rest) = split(rest)?;
    let (last, deductible) = split(rest)?;
    let coverage = period_in(first, last)?;
    let deductible = wide_number_in(deductible)?;
    Some(MemberLine {
        member: Member { key, coverage },
        deductible,
    })
}

/// A family and a person, and what follows.
#[tactic(auto, unfolding(crate::specs::LineReading::member_key_at))]
pub(crate) fn member_key_at(bytes: &[u8]) -> Option<(MemberKey, &[u8])>
    ensures { option_map (λ x. (x.0, x.1.now)) result ≡ member_key_at bytes.now }
{
    let (family, rest) = split(bytes)?;
    let (person, rest) = split(rest)?;
    let key = member_key_in(family, person)?;
    Some((key, rest))
}

// The member of two fields.
#[tactic(auto, unfolding(crate::specs::LineReading::member_key_in))]
fn member_key_in(family: &[u8], person: &[u8]) -> Option<MemberKey>
    ensures { result ≡ member_key_in family.now person.now }
{
    let family = family_in(family)?;
    let person = id_in(person)?;
    Some(MemberKey { family, person })
}

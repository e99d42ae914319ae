ghost use Rattle.std.specs.Prelude.{◌≡◌, ◌≤◌, refl, nat_eq};
ghost use Rattle.std.specs.Ordering.{nat_cmp, as_partial_cmp};
ghost use Rattle.std.specs.Cmp.Lexicographic.{nat_list_eq_equiv, pointwise, slice_cmp};
ghost use Rattle.std.specs.Cmp.{partial_order_from_own_ties, partial_equiv_from_equiv};
ghost use Rattle.std.specs.Cmp.Rules.{comparing};
ghost use Rattle.std.proofs.Common.{rules};

use crate::fault::IdFault;
use crate::padding::{compare, padded};
use rx_text::all_printable;
use std::cmp::Ordering;
use std::marker::Model;

/// A text that names a provider, a family or a person: 1 to 20 printable ASCII bytes without `|` and without a
/// trailing blank. Ids are ordered by their bytes, a prefix first (docs/RULES.md, "Words").
#[derive(Clone, Copy)]
pub struct Id {
    bytes: [u8; 20],
    len: u8,
}

impl Model for Id {
    ghost use Rattle.std.specs.Prelude.{List, ℕ, take};
    ghost use Rattle.rx_fields.specs.Text.{IsPadded};

    ghost Value = { List ℕ };

    ghost view = { λ a. take a.len a.bytes };

    ghost invariant = { λ a. IsPadded 20 a.len a.bytes };

    ghost use Rattle.std.specs.Prelude.{length};
    ghost use Rattle.rx_fields.specs.Padded.{padded, padded_back};

    ghost inverse = { λ text. record { bytes = padded 20 text; len = length text } };

    ghost inverse_ok = { λ a h. padded_back (λ bytes len. record { bytes = bytes; len = len }) 20 a.len a.bytes h };
}

ghost use Rattle.std.specs.Prelude.{length};
ghost use Rattle.std.specs.List.{list_any};
ghost use Rattle.std.specs.Result.{result_map_both};
ghost use Rattle.rx_text.specs.Bytes.{is_printable};
ghost use Rattle.rx_fields.specs.Text.{id_of, trimmed, is_bar, IsId};

impl Id {
    /// The id in a text of a field that takes `max` bytes; trailing blanks are no part of it, and aren't counted.
    pub fn new(text: &[u8], max: usize) -> Result<Id, IdFault>
        requires { max ≤ 20 }
        ensures { result ≡ id_of max text.now }
    {
        let text = id_text(text, max)?;
        Ok(Id {
            bytes: padded(text),
            len: text.len() as u8,
        })
    }

    /// The id of a text that is one as it stands, also of a shorter field: it isn't tested again.
    pub fn of_text(text: &[u8]) -> Id
        requires few { length text.now ≤ 20 }
        requires again { IsId 20 text.now }
        ensures { result ≡ text.now }
    {
        Id {
            bytes: padded(text),
            len: text.len() as u8,
        }
    }

    /// The id's bytes, 1 to 20.
    pub fn bytes(&self) -> &[u8]
        ensures value { result.now ≡ self.now }
        ensures again { IsId 20 self.now }
    {
        &self.bytes[..self.len as usize]
    }
}

/// The text without the blanks at its end, as the value of a field is read (docs/FORMATS.md, "Parts, segments and
/// fields").
#[tactic(auto, using(crate::proofs::IdLaws::trimmed_cut, crate::proofs::IdLaws::trimmed_whole))]
pub fn trimmed(text: &[u8]) -> &[u8]
    ensures { result.now ≡ trimmed text.now }
{
    let mut rest = text;
    while !rest.is_empty() && rest[rest.len() - 1] == b' ' {
        rest = &rest[..rest.len() - 1];
    }
    rest
}

// Whether a byte is `|`.
fn has_bar(text: &[u8]) -> bool
    ensures { result ≡ list_any is_bar text.now }
{
    text.iter().any(|b| *b == b'|')
}

// The part of a text that is an id of at most `max` bytes.
pub(crate) fn id_text(text: &[u8], max: usize) -> Result<&[u8], IdFault>
    ensures { result_map_both (λ t. t.now) (λ e. e) result ≡ id_of max text.now }
{
    let text = trimmed(text);
    if text.is_empty() {
        return Err(IdFault::Blank);
    }
    if text.len() > max {
        return Err(IdFault::TooLong);
    }
    if !all_printable(text) {
        return Err(IdFault::NotPrintable);
    }
    if has_bar(text) {
        return Err(IdFault::Bar);
    }
    Ok(text)
}

impl PartialEq for Id {
    ghost eq = { pointwise nat_eq };

    ghost laws = { partial_equiv_from_equiv nat_list_eq_equiv };

    fn eq(&self, other: &Id) -> bool {
        compare(&self.bytes, &other.bytes).is_eq()
    }
}

impl Eq for Id {
    ghost laws = { nat_list_eq_equiv };
}

impl PartialOrd for Id {
    ghost partial_cmp = { as_partial_cmp (slice_cmp nat_cmp) };

    ghost laws = { partial_order_from_own_ties (Prim.search (comparing, rules)) (Prim.search (comparing, rules)) };

    fn partial_cmp(&self, other: &Id) -> Option<Ordering> {
        Some(self.cmp(other))
    }
}

impl Ord for Id {
    ghost cmp = { slice_cmp nat_cmp };

    ghost total = { Prim.search (comparing, rules) };

    ghost matches_partial_cmp = { λ x y. refl };

    ghost matches_eq = { Prim.search (comparing, rules) };

    fn cmp(&self, other: &Id) -> Ordering {
        compare(&self.bytes, &other.bytes)
    }
}

ghost use Rattle.std.specs.Prelude.{◌≡◌, ◌≤◌, refl, nat_eq};
ghost use Rattle.std.specs.Ordering.{nat_cmp, as_partial_cmp};
ghost use Rattle.std.specs.Cmp.Lexicographic.{nat_list_eq_equiv, pointwise, slice_cmp};
ghost use Rattle.std.specs.Cmp.{partial_order_from_own_ties, partial_equiv_from_equiv};
ghost use Rattle.std.specs.Cmp.Rules.{comparing};
ghost use Rattle.std.proofs.Common.{rules};

use crate::fault::IdFault;
use crate::id::{Id, id_text};
use crate::padding::{compare, padded};
use std::cmp::Ordering;
use std::marker::Model;

/// An id of at most `MAX` bytes, kept in `MAX` bytes and one for its length.
#[derive(Clone, Copy)]
pub struct ShortId<const MAX: usize> {
    bytes: [u8; MAX],
    len: u8,
}

impl<const MAX: usize> Model for ShortId<MAX> {
    ghost use Rattle.std.specs.Prelude.{ℕ, List, take, length};
    ghost use Rattle.rx_fields.specs.Text.{IsPadded};
    ghost use Rattle.rx_fields.specs.Padded.{padded, padded_back};

    ghost Value = { List ℕ };

    ghost view = { λ s. take s.len s.bytes };

    ghost invariant = { λ s. IsPadded MAX s.len s.bytes };

    ghost inverse = { λ text. record { bytes = padded MAX text; len = length text } };

    ghost inverse_ok = { λ a h. padded_back (λ bytes len. record { bytes = bytes; len = len }) MAX a.len a.bytes h };
}

ghost use Rattle.rx_fields.specs.Text.{id_of, IsId};

impl<const MAX: usize> ShortId<MAX> {
    /// The id in a text; trailing blanks are no part of it.
    pub fn new(text: &[u8]) -> Result<ShortId<MAX>, IdFault>
        requires { MAX ≤ 20 }
        ensures { result ≡ id_of MAX text.now }
    {
        let text = id_text(text, MAX)?;
        Ok(ShortId::of_text(text))
    }

    /// The id of a text that is one as it stands: it isn't tested again.
    pub fn of_text(text: &[u8]) -> ShortId<MAX>
        requires short { MAX ≤ 20 }
        requires again { IsId MAX text.now }
        ensures { result ≡ text.now }
    {
        ShortId {
            bytes: padded(text),
            len: text.len() as u8,
        }
    }

    /// The same text as an id.
    pub fn id(&self) -> Id
        ensures value { result ≡ self.now }
        ensures again { IsId MAX self.now }
    {
        Id::of_text(&self.bytes[..self.len as usize])
    }

    /// The id's bytes.
    pub fn bytes(&self) -> &[u8]
        ensures value { result.now ≡ self.now }
        ensures again { IsId MAX self.now }
    {
        &self.bytes[..self.len as usize]
    }
}

impl<const MAX: usize> PartialEq for ShortId<MAX> {
    ghost eq = { pointwise nat_eq };

    ghost laws = { partial_equiv_from_equiv nat_list_eq_equiv };

    fn eq(&self, other: &ShortId<MAX>) -> bool {
        compare(&self.bytes, &other.bytes).is_eq()
    }
}

impl<const MAX: usize> Eq for ShortId<MAX> {
    ghost laws = { nat_list_eq_equiv };
}

impl<const MAX: usize> PartialOrd for ShortId<MAX> {
    ghost partial_cmp = { as_partial_cmp (slice_cmp nat_cmp) };

    ghost laws = { partial_order_from_own_ties (Prim.search (comparing, rules)) (Prim.search (comparing, rules)) };

    fn partial_cmp(&self, other: &ShortId<MAX>) -> Option<Ordering> {
        Some(self.cmp(other))
    }
}

impl<const MAX: usize> Ord for ShortId<MAX> {
    ghost cmp = { slice_cmp nat_cmp };

    ghost total = { Prim.search (comparing, rules) };

    ghost matches_partial_cmp = { λ x y. refl };

    ghost matches_eq = { Prim.search (comparing, rules) };

    fn cmp(&self, other: &ShortId<MAX>) -> Ordering {
        compare(&self.bytes, &other.bytes)
    }
}

/// A pharmacy's id: at most 15 bytes.
pub type Provider = ShortId<15>;

/// A person code within a family: at most 3 bytes.
pub type Person = ShortId<3>;

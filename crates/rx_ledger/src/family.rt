ghost use Rattle.std.specs.Prelude.{◌≡◌};
ghost use Rattle.rx_ledger.specs.Members.{is_same};

use rx_fields::Id;

// Whether these are one family.
#[tactic(auto, using(crate::proofs::SameText::same_text))]
pub(crate) fn is_same(a: &Id, b: &Id) -> bool
    ensures { result ≡ is_same a.now b.now }
{
    a == b
}

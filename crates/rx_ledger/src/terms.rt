ghost use Rattle.std.specs.Prelude.{◌≡◌};

use crate::drug::Drug;
use crate::figures::Figures;
use crate::sheet::{Listed, Sheet};
use rx_d0_values::{Body, Transaction, Transmission};
use rx_fields::{Lot, Product};
use std::marker::Model;

/// What one record is adjudicated under: its lot, and a small sheet with all figures and the drugs of the record's
/// products.
#[derive(Clone, Copy)]
pub struct Terms {
    lot: Lot,
    figures: Figures,
    places: [Option<Listed>; 4],
}

impl Model for Terms {
    ghost use Rattle.rx_ledger.specs.TermList.{TermParts, IsTerms};

    ghost Value = { TermParts };

    ghost view = { λ t. record { lot = t.lot; figures = t.figures; places = t.places } };

    ghost invariant = { λ t. IsTerms (record { lot = t.lot; figures = t.figures; places = t.places }) };

    ghost inverse = { λ p. record { lot = p.lot; figures = p.figures; places = p.places } };
}

ghost use Rattle.std.specs.Prelude.{◌↔◌, ◌≤◌, IfSome, IsTrue, length, true};
ghost use Rattle.std.specs.Ordering.{nat_cmp};
ghost use Rattle.rx_sorted.specs.Ascending.{item_at};
ghost use Rattle.rx_ledger.specs.Places.{billed_at, transactions_of};
ghost use Rattle.rx_ledger.specs.Plan.{AreFigures, drug_of, is_drug, listed_product};
ghost use Rattle.rx_ledger.specs.SameTerms.{IsTermsOf};
ghost use Rattle.rx_ledger.specs.TermList.{drugs_in, plan_of};

impl Sheet {
    /// The terms of a record: under them it is adjudicated as under the whole sheet. Takes no memory.
    pub fn terms(&self, lot: Lot, transmission: &Transmission) -> Terms
        ensures { IsTermsOf lot self.now transmission.now result }
    {
        let figures = *self.figures();
        let list = transactions(&transmission.body);
        let first = self.billed_at(list, 0);
        let second = self.billed_at(list, 1);
        let third = self.billed_at(list, 2);
        let fourth = self.billed_at(list, 3);
        Terms {
            lot,
            figures,
            places: [first, second, third, fourth],
        }
    }

    // The product that the transaction at a place of the list bills, where the sheet lists it.
    fn billed_at(&self, list: &[Transaction], place: usize) -> Option<Listed>
        ensures value { result ≡ billed_at self.now list.now place }
        ensures within { IfSome result (λ listed. is_drug listed.drug ≡ true) }
    {
        match list.get(place)? {
            Transaction::Bill(bill) => {
                let product = bill.parts().product;
                let drug = self.drug(product)?;
                Some(Listed { product, drug })
            }
            Transaction::Reverse(_) | Transaction::Faulty(_) => None,
        }
    }
}

// The transactions of a record: none where its header is rejected.
fn transactions(body: &Body) -> &[Transaction]
    ensures value { result.now ≡ transactions_of body.now }
    ensures few { length result.now ≤ 4 }
{
    match body {
        Body::Rejected(_) => &[],
        Body::Heard(heard) => heard.list.as_slice(),
    }
}

impl Terms {
    /// The batch number and the creation date.
    pub fn lot(&self) -> Lot
        ensures { result ≡ self.now.lot }
    {
        self.lot
    }

    /// The sheet's figures.
    pub fn figures(&self) -> &Figures
        ensures value { result.now ≡ self.now.figures }
        ensures within { AreFigures self.now.figures }
    {
        &self.figures
    }

    /// What the plan says of a product of the record; None where the sheet doesn't list it.
    pub fn drug(&self, product: Product) -> Option<Drug>
        ensures value { result ≡ drug_of (plan_of self.now) product }
        ensures within { IfSome result (λ drug. is_drug drug ≡ true) }
    {
        let listed = listed_in(&self.places, product)?;
        Some(listed.drug)
    }
}

// The first place with the product.
fn listed_in(places: &[Option<Listed>], product: Product) -> Option<Listed>
    ensures { result ≡ item_at nat_cmp listed_product (drugs_in places.now) product }
{
    places
        .iter()
        .filter_map(|place| *place)
        .find(|listed| listed.product == product)
}

ghost use Rattle.rx_d0_values.specs.Same.{same, same_laws, same_equivalence};
ghost use Rattle.rx_ledger.specs.contracts.terms.Terms.{the_row as terms_row};

impl PartialEq for Terms {
    ghost eq = { same terms_row.coded };

    ghost laws = { same_laws terms_row.coded };

    fn eq(&self, other: &Terms) -> bool
        ensures { IsTrue result ↔ (self.now ≡ other.now) }
    {
        self.lot == other.lot && self.figures == other.figures && self.places == other.places
    }
}

impl Eq for Terms {
    ghost laws = { same_equivalence terms_row.coded };
}

ghost use Rattle.std.specs.Prelude.{◌≡◌, ◌≤◌, ◌↔◌, IfOk, IsTrue};
ghost use Rattle.rx_fields.specs.declared.limits.TheConstants.{MOST_DETAILS};
ghost use Rattle.rx_adjudicate.specs.Orders.{Fits, IsOrder};

use rx_books_parcel::Parcel;
use rx_d0_values::Transmission;
use rx_fields::Memory;
use rx_ledger::Terms;
use std::alloc::Global;
use std::marker::Model;

/// A record to be adjudicated: its place in the batch, from 1, its terms, and the parcel of its books, which fits it.
#[derive(Drop)]
pub struct Order {
    place: u64,
    transmission: Transmission,
    terms: Terms,
    parcel: Parcel,
}

impl Model for Order {
    ghost use Rattle.rx_adjudicate.specs.Orders.{IsOrder, OrderParts};

    ghost Value = { OrderParts };

    ghost view = { λ o. record { place = o.place; transmission = o.transmission; terms = o.terms; parcel = o.parcel } };

    ghost invariant = { λ o. IsOrder (record { place = o.place; transmission = o.transmission; terms = o.terms; parcel = o.parcel }) };
}

impl Order {
    /// The order of a record at a place of 1 to 100,000, with a parcel that fits it. It takes no memory.
    pub fn new(place: u64, transmission: Transmission, terms: Terms, parcel: Parcel) -> Order
        requires from_one { 1 ≤ place }
        requires in_batch { place ≤ MOST_DETAILS }
        requires fit { Fits transmission terms parcel }
        ensures { result ≡ record { place = place; transmission = transmission; terms = terms; parcel = parcel } }
    {
        Order {
            place,
            transmission,
            terms,
            parcel,
        }
    }

    /// The place in the batch, from 1.
    pub fn place(&self) -> u64
        ensures value { result ≡ self.now.place }
        ensures within { IsOrder self.now }
    {
        self.place
    }

    /// The record.
    pub fn transmission(&self) -> &Transmission
        ensures { result.now ≡ self.now.transmission }
    {
        &self.transmission
    }

    /// What it is adjudicated under.
    pub fn terms(&self) -> Terms
        ensures { result ≡ self.now.terms }
    {
        self.terms
    }

    /// The parcel of its books.
    pub fn parcel(&self) -> &Parcel
        ensures value { result.now ≡ self.now.parcel }
        ensures within { IsOrder self.now }
    {
        &self.parcel
    }

    /// An equal order.
    pub fn copy(&self, alloc: Global) -> Result<Order, Memory>
        ensures { IfOk result (λ order. order ≡ self.now) }
    {
        let transmission = self.transmission.copy(alloc)?;
        let parcel = self.parcel.copy(alloc)?;
        Ok(Order {
            place: self.place,
            transmission,
            terms: self.terms,
            parcel,
        })
    }
}

ghost use Rattle.rx_d0_values.specs.Same.{same, same_laws, same_equivalence};
ghost use Rattle.rx_adjudicate.specs.contracts.order.Order.{the_row as order_row};

impl PartialEq for Order {
    ghost eq = { same order_row.coded };

    ghost laws = { same_laws order_row.coded };

    fn eq(&self, other: &Order) -> bool
        ensures { IsTrue result ↔ (self.now ≡ other.now) }
    {
        self.place == other.place
            && self.terms == other.terms
            && self.transmission == other.transmission
            && self.parcel == other.parcel
    }
}

impl Eq for Order {
    ghost laws = { same_equivalence order_row.coded };
}

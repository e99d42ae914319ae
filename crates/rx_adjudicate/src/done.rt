ghost use Rattle.std.specs.Prelude.{◌≡◌, IfErr, IfOk};
ghost use Rattle.rx_adjudicate.specs.Orders.{IsDone, IsOrder};

use crate::agreed::Agreed;
use crate::order::Order;
use rx_books_parcel::Parcel;
use rx_d0_values::Reply;
use rx_fields::Memory;
use rx_ledger::answer_record;
use std::alloc::Global;
use std::marker::Model;

/// An order that was adjudicated: the order as it was, the parcel after it, and the reply to it. These are what the
/// rules make of the order (docs/GUARANTEES.md, "Record and fold").
#[derive(Drop)]
pub struct Done {
    order: Order,
    after: Parcel,
    reply: Reply,
}

impl Model for Done {
    ghost use Rattle.rx_adjudicate.specs.Orders.{DoneParts, IsDone};

    ghost Value = { DoneParts };

    ghost view = { λ d. record { order = d.order; after = d.after; reply = d.reply } };

    ghost invariant = { λ d. IsDone (record { order = d.order; after = d.after; reply = d.reply }) };
}

impl Done {
    /// The order as it was.
    pub fn order(&self) -> &Order
        ensures value { result.now ≡ self.now.order }
        ensures within { IsDone self.now }
    {
        &self.order
    }

    /// The order, the parcel after it, and the reply to it. It takes no memory.
    pub fn part(self) -> (Order, Parcel, Reply)
        ensures value { result ≡ record { 0 = self.order; 1 = self.after; 2 = self.reply } }
        ensures within { IsDone self }
    {
        let Done {
            order,
            after,
            reply,
        } = self;
        (order, after, reply)
    }
}

/// Adjudicates an order, on a copy of its parcel. Without memory the order comes back as it was.
pub fn adjudicate(alloc: Global, order: Order) -> Result<Done, (Order, Memory)>
    ensures ok { IfOk result (λ done. done.order ≡ order) }
    ensures err { IfErr result (λ refused. refused.0 ≡ order) }
{
    match answered(alloc, &order) {
        Ok((after, reply)) => Ok(Done {
            order,
            after,
            reply,
        }),
        Err(refused) => Err((order, refused)),
    }
}

// The parcel after an order, and the reply to it.
fn answered(alloc: Global, order: &Order) -> Result<(Parcel, Reply), Memory>
    ensures { IfOk result (λ out. IsDone (record { order = order.now; after = out.0; reply = out.1 })) }
{
    let mut agreed = Agreed::new(order.parcel().copy(alloc)?);
    let terms = order.terms();
    let reply = answer_record(
        alloc,
        &mut agreed,
        &terms,
        order.place(),
        order.transmission(),
    )?;
    Ok((agreed.into_parcel(), reply))
}

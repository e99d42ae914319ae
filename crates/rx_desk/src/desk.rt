ghost use Rattle.std.specs.Prelude.{◌≡◌, ◌≤◌, ◌↔◌, ℕ, [], IfErr, IfOk, IsOk, IsTrue, OnErr, OnOk, Some, vec_len};
ghost use Rattle.rx_fields.specs.declared.limits.TheConstants.{MOST_DETAILS};
ghost use Rattle.rx_ledger.specs.Fold.{fold_replies};
ghost use Rattle.rx_schedule.specs.Jobs.{reply_at};
ghost use Rattle.rx_schedule.specs.Machine.{IsComplete, IsLegal, Was};
ghost use Rattle.rx_desk.specs.Desks.{AreTerms, IsJob, IsNext, IsOut, MayBeTaken, after_event, final_books, led_to, machine_of, past_of};

use crate::making::{Made, Room, Shared, made_of};
use crate::moves::{Taken, closed, mark_given, mark_out, note, put_in, take_books};
use crate::next::Next;
use crate::remains::Remains;
use crate::same_job::{
    same_books, same_drugs, same_figures, same_record, same_records, same_terms,
};
use crate::state::{State, is_out_with};
use rx_adjudicate::{Done, Order};
use rx_books_parcel::Footprint;
use rx_books_shelf::Shelf;
use rx_books_store::Books;
use rx_d0_values::{Reply, Transmission};
use rx_fields::{Lot, Memory};
use rx_ledger::{Figures, Listed, Sheet, Terms};
use rx_schedule::{Event, Queues};
use rx_serial::Finished;
use std::alloc::Global;
use std::marker::Model;

/// The records of a batch with all books: a record goes out with its books, and comes in again finished. Contracts see
/// the job and the events so far (docs/RULES.md, "The atomic step").
#[derive(Drop)]
pub struct Desk {
    pub(crate) lot: Lot,
    pub(crate) figures: Figures,
    pub(crate) drugs: Vec<Listed>,
    pub(crate) terms: Vec<Terms>,
    pub(crate) books: Books,
    pub(crate) transmissions: Vec<Transmission>,
    pub(crate) history: Vec<Event>,
    pub(crate) footprints: Vec<Footprint>,
    pub(crate) queues: Queues,
    pub(crate) shelf: Shelf,
    pub(crate) states: Vec<State>,
    // How many records weren't taken.
    pub(crate) waiting: usize,
    // A reply for each record, from the start: what stands there before the record is given counts nothing.
    pub(crate) replies: Vec<Reply>,
    pub(crate) alloc: Global,
}

impl Model for Desk {
    ghost use Rattle.std.specs.Prelude.{reverse, vec_capacity};
    ghost use Rattle.rx_desk.specs.Desks.{DeskParts};

    ghost Value = { DeskParts };

    ghost use Rattle.rx_books_family.specs.Shelves.{has_slot, is_out, value_of};
    ghost use Rattle.rx_desk.specs.Invariant.{IsDesk};
    ghost use Rattle.rx_desk.specs.Kept.{IsKept, IsCounted, holdings, job_with};

    ghost view = { λ d. record {
      job = job_with d.lot d.figures d.drugs.items d.terms.items d.books d.transmissions.items;
      history = d.history.items;
    } };

    ghost invariant = { λ d. IsKept (job_with d.lot d.figures d.drugs.items d.terms.items d.books d.transmissions.items)
        (vec_capacity d.history) d.history.items d.footprints.items d.queues d.shelf d.states.items d.waiting d.replies.items };
}

impl Desk {
    /// A desk for these records, with all books in place, and with room for its whole history and all replies. On a
    /// refusal the books and the records are dropped.
    pub fn new(
        alloc: Global,
        lot: Lot,
        sheet: &Sheet,
        books: Books,
        transmissions: Vec<Transmission>,
    ) -> Result<Desk, Memory>
        requires period { books.period ≡ sheet.now.figures.period }
        requires few { vec_len transmissions ≤ MOST_DETAILS }
        ensures job { IfOk result (λ desk. IsJob desk.job lot sheet.now books transmissions.items) }
        ensures terms { IfOk result (λ desk. AreTerms desk.job) }
        ensures history { IfOk result (λ desk. desk.history ≡ []) }
    {
        let made = made_of(alloc, lot, sheet, &books, &transmissions)?;
        let waiting = transmissions.len();
        let Made {
            drugs,
            terms,
            room,
            shared,
        } = made;
        let Room {
            states,
            replies,
            history,
        } = room;
        let Shared {
            footprints,
            queues,
            shelf,
        } = shared;
        Ok(Desk {
            lot,
            figures: *sheet.figures(),
            drugs,
            terms,
            books,
            transmissions,
            history,
            footprints,
            queues,
            shelf,
            states,
            waiting,
            replies,
            alloc,
        })
    }

    /// The events so far, in their order: a start of a legal list. The replies noted are those of the records one after
    /// another in file order.
    pub fn history(&self) -> &[Event]
        ensures value { result.now ≡ self.now.history }
        ensures legal { IsLegal (machine_of self.now.job) (past_of self.now) }
        ensures noted { (place : ℕ) → Was (Event.Give place) (past_of self.now) → (led_to self.now).replies place
            ≡ Some (reply_at self.now.job.lot self.now.job.plan self.now.job.books.ledger self.now.job.records place) }
    {
        self.history.as_slice()
    }

    /// Whether a record may be taken now: one that wasn't, and whose earlier sharers were all given.
    pub fn is_ready(&self) -> bool
        ensures { IsTrue result ↔ ((place : ℕ) × MayBeTaken self.now place) }
    {
        self.queues.ready().is_some()
    }

    /// Issues a record that may be taken, with its books; the desk keeps an equal order as out.
    pub fn next(&mut self) -> Next
        ensures { IsNext self.old result self.new }
    {
        let Some(place) = self.queues.ready() else {
            if self.waiting == 0 {
                return Next::Over;
            }
            return Next::Later;
        };
        let at = place - 1;
        let Ok(taken) = take_books(
            self.alloc,
            &mut self.shelf,
            &self.footprints[at],
            &self.transmissions[at],
        ) else {
            return Next::Memory;
        };
        let Taken {
            parcel,
            kept,
            transmission,
        } = taken;
        note(&mut self.history, Event::Take(place));
        self.queues.hand();
        self.waiting -= 1;
        mark_out(&mut self.states, at, kept);
        let terms = self.terms[at];
        Next::Order(Order::new(place as u64, transmission, terms, parcel))
    }

    /// Takes back a finished order, and notes the reply. The order has to be equal to one that is out, else the `Done`
    /// comes back and nothing changes. It takes no memory.
    pub fn give(&mut self, done: Done) -> Result<(), Done>
        ensures accepts { IsOk result ↔ IsOut self.old done.order }
        ensures ok { OnOk result (self.new ≡ after_event self.old (Event.Give done.order.place)) }
        ensures err { OnErr result (self.new ≡ self.old) }
        ensures back { IfErr result (λ back. back ≡ done) }
    {
        match self.give_apart(done) {
            Ok(_remains) => Ok(()),
            Err(back) => Err(back),
        }
    }

    /// The same; the memory that is no longer needed comes back, for a caller that drops it without its lock.
    pub fn give_apart(&mut self, done: Done) -> Result<Remains, Done>
        ensures accepts { IsOk result ↔ IsOut self.old done.order }
        ensures ok { OnOk result (self.new ≡ after_event self.old (Event.Give done.order.place)) }
        ensures err { OnErr result (self.new ≡ self.old) }
        ensures back { IfErr result (λ back. back ≡ done) }
    {
        if !self.has_out(done.order()) {
            return Err(done);
        }
        Ok(self.put_back(done))
    }

    // Takes back a finished order that is out.
    fn put_back(&mut self, done: Done) -> Remains
        requires { IsOut self.old done.order }
        ensures { self.new ≡ after_event self.old (Event.Give done.order.place) }
    {
        let (order, after, reply) = done.part();
        let place = order.place() as usize;
        let at = place - 1;
        put_in(&mut self.shelf, after);
        note(&mut self.history, Event::Give(place));
        self.queues.pass(place);
        let state = mark_given(&mut self.states, at);
        self.replies[at] = reply;
        Remains { order, state }
    }

    // Whether the order is equal to one that is out.
    fn has_out(&self, order: &Order) -> bool
        ensures { IsTrue result ↔ IsOut self.now order.now }
    {
        let place = order.place() as usize;
        if place > self.states.len() {
            return false;
        }
        let at = place - 1;
        if !is_out_with(&self.states[at], order.parcel()) {
            return false;
        }
        if !same_terms(&self.terms[at], &order.terms()) {
            return false;
        }
        same_record(&self.transmissions[at], order.transmission())
    }

    /// Whether the desk is for this job: the same lot, sheet, opening books and records. It takes no memory.
    pub fn job_is(
        &self,
        lot: Lot,
        sheet: &Sheet,
        books: &Books,
        transmissions: &[Transmission],
    ) -> bool
        ensures { IsTrue result ↔ IsJob self.now.job lot sheet.now books.now transmissions.now }
    {
        if self.lot != lot {
            return false;
        }
        if !same_figures(&self.figures, sheet.figures()) {
            return false;
        }
        if !same_drugs(&self.drugs, sheet.drugs()) {
            return false;
        }
        if !same_books(&self.books, books) {
            return false;
        }
        same_records(&self.transmissions, transmissions)
    }

    /// The books after all records, and the reply to each, as if they had been adjudicated one after another in file
    /// order; where a record wasn't given the desk comes back. It takes no memory.
    pub fn close(self) -> Result<Finished, Desk>
        ensures whole { IsOk result ↔ IsComplete (machine_of self.job) (past_of self) }
        ensures books { IfOk result (λ finished. finished.books ≡ final_books self.job) }
        ensures replies { IfOk result (λ finished. finished.replies.items
            ≡ fold_replies self.job.lot self.job.plan 1 self.job.records self.job.books.ledger) }
        ensures back { IfErr result (λ desk. desk ≡ self) }
    {
        if self.history.len() < 2 * self.states.len() {
            return Err(self);
        }
        Ok(self.finished())
    }

    // The books after all records, and the reply to each, where each record was given.
    fn finished(self) -> Finished
        requires { IsComplete (machine_of self.job) (past_of self) }
        ensures books { result.books ≡ final_books self.job }
        ensures replies { result.replies.items ≡ fold_replies self.job.lot self.job.plan 1 self.job.records self.job.books.ledger }
    {
        let Desk { shelf, replies, .. } = self;
        let books = closed(shelf);
        Finished { books, replies }
    }
}

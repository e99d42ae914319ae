ghost use Rattle.std.specs.Prelude.{◌≡◌, ◌≤◌, ◌*◌, Bool, false, [], IfOk, OnOk, length, replicate, vec_capacity};
ghost use Rattle.rx_fields.specs.declared.limits.TheConstants.{MOST_DETAILS};
ghost use Rattle.rx_ledger.specs.Ledger.{IsLedger};
ghost use Rattle.rx_books_family.specs.Books.{Book, book};
ghost use Rattle.rx_books_family.specs.Shelves.{has_slot, is_out, value_of};
ghost use Rattle.rx_books_shelf.specs.Opened.{is_named_by};
ghost use Rattle.rx_schedule.specs.Footprints.{footprints_of};
ghost use Rattle.rx_desk.specs.Desks.{AreTermsOf};

use crate::state::State;
use rx_books_parcel::Footprint;
use rx_books_shelf::Shelf;
use rx_books_store::Books;
use rx_d0_values::{Codes, Outcome, Rejected, Reply, Transmission};
use rx_fields::{Code, Count, Lot, Memory};
use rx_ledger::{Listed, Sheet, Terms};
use rx_schedule::{Event, Queues, footprints};
use std::alloc::Global;

/// What a desk makes of the books that its records name.
#[derive(Drop)]
pub(crate) struct Shared {
    pub footprints: Vec<Footprint>,
    pub queues: Queues,
    pub shelf: Shelf,
}

/// What a desk notes of its records while they go out and come in.
#[derive(Drop)]
pub(crate) struct Room {
    pub states: Vec<State>,
    pub replies: Vec<Reply>,
    pub history: Vec<Event>,
}

/// All that a desk makes of its job.
#[derive(Drop)]
pub(crate) struct Made {
    pub drugs: Vec<Listed>,
    pub terms: Vec<Terms>,
    pub room: Room,
    pub shared: Shared,
}

/// What a desk makes of its job: copies of the sheet's drugs, the terms of each record, room for what it notes, and the
/// books that its records name.
pub(crate) fn made_of(
    alloc: Global,
    lot: Lot,
    sheet: &Sheet,
    books: &Books,
    transmissions: &[Transmission],
) -> Result<Made, Memory>
    requires few { length transmissions.now ≤ MOST_DETAILS }
    ensures drugs { IfOk result (λ made. made.drugs.items ≡ sheet.now.drugs) }
    ensures terms { IfOk result (λ made. AreTermsOf lot sheet.now transmissions.now made.terms.items) }
    ensures states { IfOk result (λ made. made.room.states.items ≡ replicate (length transmissions.now) State.Waiting) }
    ensures replies { IfOk result (λ made. length made.room.replies.items ≡ length transmissions.now) }
    ensures history { IfOk result (λ made. made.room.history.items ≡ []) }
    ensures capacity { IfOk result (λ made. 2 * length transmissions.now ≤ vec_capacity made.room.history) }
    ensures footprints { IfOk result (λ made. made.shared.footprints.items ≡ footprints_of books.now.ledger transmissions.now) }
    ensures queues { IfOk result (λ made. made.shared.queues.footprints ≡ made.shared.footprints.items) }
    ensures handed { IfOk result (λ made. made.shared.queues.handed ≡ []) }
    ensures passed { IfOk result (λ made. made.shared.queues.passed ≡ []) }
    ensures period { IfOk result (λ made. made.shared.shelf.period ≡ books.now.period) }
    ensures rest { IfOk result (λ made. made.shared.shelf.rest ≡ books.now.ledger) }
    ensures values { IfOk result (λ made. (b : Book) → value_of made.shared.shelf b ≡ book b books.now.ledger) }
    ensures slots { IfOk result (λ made. (b : Book) → has_slot made.shared.shelf b ≡ is_named_by made.shared.footprints.items b) }
    ensures inside { IfOk result (λ made. (b : Book) → is_out made.shared.shelf b ≡ false) }
    ensures within { IfOk result (λ _. IsLedger books.now.ledger) }
{
    let drugs = Vec::from_slice(alloc, sheet.drugs())?;
    let terms = terms_of(alloc, lot, sheet, transmissions)?;
    let room = room_for(alloc, transmissions)?;
    let shared = shared_by(alloc, books, transmissions)?;
    Ok(Made {
        drugs,
        terms,
        room,
        shared,
    })
}

// The terms of each record.
fn terms_of(
    alloc: Global,
    lot: Lot,
    sheet: &Sheet,
    transmissions: &[Transmission],
) -> Result<Vec<Terms>, Memory>
    ensures { IfOk result (λ terms. AreTermsOf lot sheet.now transmissions.now terms.items) }
{
    let mut terms = Vec::with_capacity(alloc, transmissions.len())?;
    'records: for transmission in transmissions {
        terms.push(sheet.terms(lot, transmission))?;
    }
    Ok(terms)
}

// The footprints of the records, their queues, and a shelf over a copy of the books with a place for each book that they
// name.
fn shared_by(alloc: Global, books: &Books, transmissions: &[Transmission]) -> Result<Shared, Memory>
    ensures footprints { IfOk result (λ shared. shared.footprints.items ≡ footprints_of books.now.ledger transmissions.now) }
    ensures queues { IfOk result (λ shared. shared.queues.footprints ≡ shared.footprints.items) }
    ensures handed { IfOk result (λ shared. shared.queues.handed ≡ []) }
    ensures passed { IfOk result (λ shared. shared.queues.passed ≡ []) }
    ensures period { IfOk result (λ shared. shared.shelf.period ≡ books.now.period) }
    ensures rest { IfOk result (λ shared. shared.shelf.rest ≡ books.now.ledger) }
    ensures values { IfOk result (λ shared. (b : Book) → value_of shared.shelf b ≡ book b books.now.ledger) }
    ensures slots { IfOk result (λ shared. (b : Book) → has_slot shared.shelf b ≡ is_named_by shared.footprints.items b) }
    ensures inside { IfOk result (λ shared. (b : Book) → is_out shared.shelf b ≡ false) }
    ensures within { IfOk result (λ _. IsLedger books.now.ledger) }
{
    let footprints = footprints(alloc, books, transmissions)?;
    let queues = Queues::of(alloc, &footprints)?;
    let shelf = shelf_over(alloc, books, &footprints)?;
    Ok(Shared {
        footprints,
        queues,
        shelf,
    })
}

// A shelf over a copy of the books, with a place for each book that these footprints name.
fn shelf_over(alloc: Global, books: &Books, footprints: &[Footprint]) -> Result<Shelf, Memory>
    ensures period { IfOk result (λ shelf. shelf.period ≡ books.now.period) }
    ensures rest { IfOk result (λ shelf. shelf.rest ≡ books.now.ledger) }
    ensures values { IfOk result (λ shelf. (b : Book) → value_of shelf b ≡ book b books.now.ledger) }
    ensures slots { IfOk result (λ shelf. (b : Book) → has_slot shelf b ≡ is_named_by footprints.now b) }
    ensures inside { IfOk result (λ shelf. (b : Book) → is_out shelf b ≡ false) }
    ensures within { IfOk result (λ _. IsLedger books.now.ledger) }
{
    let copy = books.copy(alloc, books.period())?;
    Shelf::of(alloc, copy, footprints)
}

// A state and a reply for each record, none of which was taken, and room for two events of each.
fn room_for(alloc: Global, transmissions: &[Transmission]) -> Result<Room, Memory>
    requires few { length transmissions.now ≤ MOST_DETAILS }
    ensures states { IfOk result (λ room. room.states.items ≡ replicate (length transmissions.now) State.Waiting) }
    ensures replies { IfOk result (λ room. length room.replies.items ≡ length transmissions.now) }
    ensures history { IfOk result (λ room. room.history.items ≡ []) }
    ensures capacity { IfOk result (λ room. 2 * length transmissions.now ≤ vec_capacity room.history) }
{
    let states = all_waiting(alloc, transmissions.len())?;
    let replies = blank_replies(alloc, transmissions)?;
    let history = Vec::with_capacity(alloc, 2 * transmissions.len())?;
    Ok(Room {
        states,
        replies,
        history,
    })
}

// This many records that weren't taken.
fn all_waiting(alloc: Global, count: usize) -> Result<Vec<State>, Memory>
    ensures { IfOk result (λ states. states.items ≡ replicate count State.Waiting) }
{
    let mut states = Vec::with_capacity(alloc, count)?;
    put_waiting(&mut states, count)?;
    Ok(states)
}

// Puts this many records that weren't taken.
fn put_waiting(states: &mut Vec<State>, count: usize) -> Result<(), Memory>
    requires { states.old.items ≡ [] }
    ensures { OnOk result (states.new.items ≡ replicate count State.Waiting) }
{
    'records: for at in 0..count {
        prove!(at < count);
        states.push(State::Waiting)?;
    }
    Ok(())
}

// A reply for each record, in whose place its own comes.
fn blank_replies(alloc: Global, transmissions: &[Transmission]) -> Result<Vec<Reply>, Memory>
    ensures { IfOk result (λ replies. length replies.items ≡ length transmissions.now) }
{
    let mut replies = Vec::with_capacity(alloc, transmissions.len())?;
    'records: for transmission in transmissions {
        replies.push(blank_reply(transmission))?;
    }
    Ok(replies)
}

// A reply that says nothing of the record yet.
fn blank_reply(transmission: &Transmission) -> Reply {
    let Some(groups) = Count::new(1) else {
        unreachable!()
    };
    let codes = Codes::one(Code::Bin);
    Reply {
        echo: transmission.echo,
        outcome: Outcome::Rejected(Rejected { codes, groups }),
    }
}

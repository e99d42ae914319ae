ghost use Rattle.std.specs.Prelude.{◌≡◌, ◌++◌, ◌==◌, ◌≤◌, [], IfOk, OnOk, filter, length};
ghost use Rattle.std.specs.List.{All};
ghost use Rattle.rx_fields.specs.declared.limits.TheConstants.{MOST_DETAILS};
ghost use Rattle.rx_explain.specs.Listed.{of_answers, of_record};
ghost use Rattle.rx_explain.specs.Parts.{AreEventParts, part_of_key};
ghost use Rattle.rx_explain.specs.Traces.{event_of, events_of};

use crate::at::At;
use crate::part::{PARTS, part_of_key};
use rx_d0_values::{Answer, Body, Heard, Outcome, Reply, Transmission};
use rx_fields::{Key, Memory};
use std::alloc::{AllocError, Global};
use std::marker::Model;

/// What a transaction did to the claim under its fill key.
#[derive(Clone, Copy, PartialEq, Eq)]
pub enum Change {
    /// P: the claim stands from then on.
    Paid,
    /// A: the claim is taken back.
    TakenBack,
}

/// A transaction that changed the ledger.
#[derive(Clone, Copy, PartialEq, Eq)]
pub struct Event {
    /// Where it stands.
    pub at: At,
    /// The fill key of the claim.
    pub key: Key,
    /// What became of the claim.
    pub change: Change,
}

/// The transactions of a batch that changed the ledger, in order. They are also kept in parts by the fill keys of their
/// claims, so that for a claim only few are visited.
#[derive(Drop)]
pub struct Events {
    all: Vec<Event>,
    parts: Vec<Vec<Event>>,
}

impl Model for Events {
    ghost use Rattle.std.specs.Prelude.{List};
    ghost use Rattle.rx_explain.specs.Parts.{AreEventParts};
    ghost use Rattle.rx_explain.specs.declared.events.Event.{Event};

    ghost Value = { List Event };

    ghost view = { λ e. e.all.items };

    ghost invariant = { λ e. AreEventParts e.parts.items e.all.items };
}

impl Events {
    /// Those of a batch's records to which these are the replies.
    pub fn of(
        alloc: Global,
        transmissions: &[Transmission],
        replies: &[Reply],
    ) -> Result<Events, Memory>
        requires few { length transmissions.now ≤ MOST_DETAILS }
        requires each { length replies.now ≡ length transmissions.now }
        ensures { IfOk result (λ events. events ≡ events_of 1 transmissions.now replies.now) }
    {
        let all = events_of(alloc, transmissions, replies)?;
        let parts = in_parts(alloc, &all)?;
        Ok(Events { all, parts })
    }

    /// Those of the part of a fill key.
    pub(crate) fn near(&self, key: &Key) -> &[Event]
        ensures { result.now ≡ filter (λ e. part_of_key e.key == part_of_key key.now) self.now }
    {
        &self.parts[part_of_key(key)]
    }
}

// The events in parts.
fn in_parts(alloc: Global, events: &[Event]) -> Result<Vec<Vec<Event>>, Memory>
    ensures { IfOk result (λ parts. AreEventParts parts.items events.now) }
{
    let mut parts = empty_parts(alloc)?;
    for event in events {
        parts[part_of_key(&event.key)].push(*event)?;
    }
    Ok(parts)
}

fn empty_parts(alloc: Global) -> Result<Vec<Vec<Event>>, Memory>
    ensures many { IfOk result (λ parts. length parts.items ≡ 4_096) }
    ensures empty { IfOk result (λ parts. All (λ v. v.items ≡ []) parts.items) }
{
    let mut parts = Vec::with_capacity(alloc, PARTS)?;
    for _ in 0..PARTS {
        parts.push(Vec::new(alloc))?;
    }
    Ok(parts)
}

// The transactions of a batch that changed the ledger, in order, where these are the replies to its records.
fn events_of(
    alloc: Global,
    transmissions: &[Transmission],
    replies: &[Reply],
) -> Result<Vec<Event>, Memory>
    requires few { length transmissions.now ≤ MOST_DETAILS }
    requires each { length replies.now ≡ length transmissions.now }
    ensures { IfOk result (λ events. events.items ≡ events_of 1 transmissions.now replies.now) }
{
    let mut events = Vec::new(alloc);
    for (before, transmission) in transmissions.iter().enumerate() {
        let reply = &replies[before];
        put_record(
            &mut events,
            before as u64 + 1,
            &transmission.body,
            &reply.outcome,
        )?;
    }
    Ok(events)
}

// Those of the record at a place.
fn put_record(
    events: &mut Vec<Event>,
    place: u64,
    body: &Body,
    outcome: &Outcome,
) -> Result<(), AllocError>
    ensures { OnOk result (events.new.items ≡ events.old.items ++ of_record event_of place body.now outcome.now) }
{
    match (body, outcome) {
        (Body::Heard(heard), Outcome::Heard(answers)) => {
            put_answers(events, place, heard, answers.as_slice())
        }
        _ => Ok(()),
    }
}

fn put_answers(
    events: &mut Vec<Event>,
    place: u64,
    heard: &Heard,
    answers: &[Answer],
) -> Result<(), AllocError>
    ensures { OnOk result (events.new.items ≡ events.old.items ++ of_answers event_of place heard.now 1 answers.now) }
{
    for (before, answer) in answers.iter().enumerate() {
        let nth = before as u64 + 1;
        put_answer(events, At { place, nth }, heard, answer)?;
    }
    Ok(())
}

// What the transaction changed, if anything.
fn put_answer(
    events: &mut Vec<Event>,
    at: At,
    heard: &Heard,
    answer: &Answer,
) -> Result<(), AllocError>
    ensures { OnOk result (events.new.items ≡ events.old.items ++ event_of heard.now at answer.now) }
{
    let (reference, change) = match answer {
        Answer::Paid(paid) => (paid.reference, Change::Paid),
        Answer::Approved(approved) => (approved.reference, Change::TakenBack),
        Answer::Twice(_) | Answer::Refused(_) => return Ok(()),
    };
    let key = Key {
        provider: heard.provider,
        reference,
        date: heard.date,
    };
    Ok(events.push(Event { at, key, change })?)
}

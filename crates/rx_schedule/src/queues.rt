ghost use Rattle.std.specs.Prelude.{◌≡◌, ℕ, [], ◌∷◌, IfOk, IfSome, IsSome};
ghost use Rattle.rx_schedule.specs.Machine.{Was};
ghost use Rattle.rx_schedule.specs.Queues.{AreQueues, IsReadyIfAny};

use crate::followers::{Followers, followers_of, free_places, release};
use crate::uses::Uses;
use rx_books_parcel::Footprint;
use rx_fields::Memory;
use std::alloc::Global;
use std::marker::Model;
use std::snapshot::Snapshot;

/// Which records of a batch may go: a record is ready once every earlier record that it shares a book with was passed
/// (docs/RULES.md, "Footprint" and "The atomic step"). Places count from 1.
#[derive(Drop)]
pub struct Queues {
    footprints: Snapshot<Uses>,
    followers: Vec<Vec<usize>>,
    // for how many links each record waits
    waiting: Vec<usize>,
    // the places that wait for none, as they came; the first `handed` of them were issued
    order: Vec<usize>,
    handed: usize,
    passed: Vec<usize>,
}

impl Model for Queues {
    ghost use Rattle.std.specs.Prelude.{map, reverse, take, vec_capacity};
    ghost use Rattle.rx_schedule.specs.Queues.{QueueParts, IsRunning, next_in};

    ghost Value = { QueueParts };

    ghost view = { λ q. record {
      footprints = q.footprints.value;
      next = next_in q.order.items q.handed;
      handed = reverse (take q.handed q.order.items);
      passed = reverse q.passed.items;
    } };

    ghost invariant = { λ q. IsRunning q.footprints.value (map (λ v. v.items) q.followers.items) q.waiting.items
        q.order.items q.handed q.passed.items (vec_capacity q.order) (vec_capacity q.passed) };
}

impl Queues {
    /// The queues of the records that have these footprints, in file order; none is issued.
    pub fn of(alloc: Global, footprints: &[Footprint]) -> Result<Queues, Memory>
        ensures footprints { IfOk result (λ queues. queues.footprints ≡ footprints.now) }
        ensures handed { IfOk result (λ queues. queues.handed ≡ []) }
        ensures passed { IfOk result (λ queues. queues.passed ≡ []) }
    {
        let count = footprints.len();
        let uses = Uses::of(alloc, footprints)?;
        let named = Snapshot::of(&uses);
        let Followers { rows, waiting } = followers_of(alloc, count, &uses.links(alloc)?)?;
        let order = free_places(alloc, &waiting)?;
        let passed = Vec::with_capacity(alloc, count)?;
        Ok(Queues {
            footprints: named,
            followers: rows,
            waiting,
            order,
            handed: 0,
            passed,
        })
    }

    /// The place of a record that is ready and wasn't issued; None only if there is none.
    pub fn ready(&self) -> Option<usize>
        ensures value { result ≡ self.now.next }
        ensures next { IsReadyIfAny self.now result }
        ensures within { AreQueues self.now }
    {
        if self.handed < self.order.len() {
            Some(self.order[self.handed])
        } else {
            None
        }
    }

    /// Notes the ready place as issued. It takes no memory.
    pub fn hand(&mut self)
        requires { IsSome self.old.next }
        ensures handed { IfSome self.old.next (λ place. self.new.handed ≡ place ∷ self.old.handed) }
        ensures passed { self.new.passed ≡ self.old.passed }
        ensures footprints { self.new.footprints ≡ self.old.footprints }
    {
        self.handed += 1;
    }

    /// Notes a place as passed that was issued and wasn't passed. It takes no memory.
    pub fn pass(&mut self, place: usize)
        requires handed { Was place self.old.handed }
        requires unpassed { Was place self.old.passed → ⊥ }
        ensures passed { self.new.passed ≡ place ∷ self.old.passed }
        ensures handed { self.new.handed ≡ self.old.handed }
        ensures footprints { self.new.footprints ≡ self.old.footprints }
    {
        self.passed.push_reserved(place);
        release(
            &mut self.followers,
            place,
            &mut self.waiting,
            &mut self.order,
        );
    }
}

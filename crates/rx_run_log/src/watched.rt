ghost use Rattle.std.specs.Prelude.{◌≡◌, [], IfSome, List, Some, false, is_some, true, ℕ};
ghost use Rattle.rx_run_log.specs.Traffic.{Adds, IsTrafficOf};

use crate::traffic::Traffic;
use std::alloc::Global;
use std::time::{Clock, Duration};

/// A device and its traffic: what a sink takes, and what a source gives. It answers what the device answers.
#[derive(Drop)]
pub struct Watched<'c, D, C> {
    pub(crate) device: D,
    pub(crate) traffic: Traffic,
    pub(crate) clock: &'c C,
}

impl<'c, D, C: Clock> Watched<'c, D, C> {
    /// The device, through which nothing passed yet, with the clock for its times. A sum of what passes is made where
    /// `sums` says so.
    pub fn new(device: D, clock: &'c C, sums: bool) -> Watched<'c, D, C>
        ensures device { result.device ≡ device }
        ensures traffic { IsTrafficOf result.traffic [] }
        ensures sum { is_some result.traffic.sum ≡ sums }
        ensures called { result.traffic.called ≡ false }
    {
        Watched {
            device,
            traffic: Traffic::new(sums),
            clock,
        }
    }

    /// The same with a sum that is made later: what passes is kept, in room for this many bytes.
    pub fn keeping(alloc: Global, device: D, clock: &'c C, room: usize) -> Watched<'c, D, C>
        ensures device { result.device ≡ device }
        ensures traffic { IsTrafficOf result.traffic [] }
        ensures sum { is_some result.traffic.sum ≡ true }
        ensures called { result.traffic.called ≡ false }
    {
        Watched {
            device,
            traffic: Traffic::keeping(alloc, room),
            clock,
        }
    }

    /// What passed so far, where it is kept; the device is as before. From then on no sum is made here.
    pub fn take_kept(&mut self) -> Option<Vec<u8>>
        ensures device { self.new.device ≡ self.old.device }
        ensures kept { (bytes : List ℕ) → IsTrafficOf self.old.traffic bytes → IfSome result (λ text. text.items ≡ bytes) }
        ensures traffic { (bytes : List ℕ) → IsTrafficOf self.old.traffic bytes → IsTrafficOf self.new.traffic bytes }
    {
        let traffic = &mut self.traffic;
        traffic.take_kept()
    }

    /// What passed so far.
    pub fn traffic(&self) -> &Traffic
        ensures { result.now ≡ self.now.traffic }
    {
        &self.traffic
    }

    // Adds what passed in a call that began then and ends now.
    pub(crate) fn note(&mut self, begin: Option<Duration>, piece: &[u8])
        ensures device { self.new.device ≡ self.old.device }
        ensures traffic { Adds self.old.traffic self.new.traffic piece.now }
        ensures called { self.new.traffic.called ≡ true }
        ensures first { IfSome self.old.traffic.first (λ time. self.new.traffic.first ≡ Some time) }
    {
        let end = self.clock.monotonic().ok();
        let traffic = &mut self.traffic;
        traffic.add(piece);
        traffic.at(begin, end);
    }
}

impl<'c, D: Drop, C: Clock> Watched<'c, D, C> {
    /// What passed; the device is dropped.
    pub fn into_traffic(self) -> Traffic
        ensures { result ≡ self.entry.traffic }
    {
        self.traffic
    }
}

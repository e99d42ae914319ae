ghost use Rattle.std.specs.Prelude.{◌≡◌, Ok, MatchOption, option_copied};
ghost use Rattle.rx_fields.specs.declared.stamp.Stamp.{Stamp};
ghost use Rattle.rx_switch.specs.Output.{Accepted, Given, IsRefused, StandFor, stamp_for};
ghost use Rattle.rx_check.specs.Found.{IsFound};
ghost use Rattle.rx_check.specs.Inputs.{Files};
ghost use Rattle.rx_check.specs.declared.found.Found.{Found};
ghost use Rattle.rx_check.specs.Refusals.{AreAccepted, AreAmong, AreOf, IsRefusedUnless, refusal_of};

/// The first fault that is found of three inputs is the one by which every run refuses them that has a good stamp and
/// number of workers; where none is found, they stand for something, and a run refuses none of them for what they say.
pub fn first_fault_is_the_runs()
    ensures { (files : Files) → (found : Found) → (g : Given) → (s : Stamp) → IsFound files found → AreOf files g
        → stamp_for g.workers g.stamp ≡ Ok s → MatchOption (refusal_of found) ((x : Accepted) × StandFor g x) (IsRefused g) }
{}

/// The same where books or batch file are left out: what is found of the inputs that are looked at holds of every run that
/// is given them, whatever stands in place of the others. Where nothing is found it refuses none of them for what they
/// say; the first fault is the one by which it refuses them, unless it refuses books that weren't looked at.
pub fn faults_of_some_are_the_runs()
    ensures { (files : Files) → (found : Found) → (g : Given) → (s : Stamp) → IsFound files found → AreAmong files g
        → stamp_for g.workers g.stamp ≡ Ok s
        → MatchOption (refusal_of found) (AreAccepted (option_copied files.books) (option_copied files.batch) g)
        (IsRefusedUnless (option_copied files.books) g) }
{}

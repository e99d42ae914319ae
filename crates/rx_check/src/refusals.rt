ghost use Rattle.std.specs.Prelude.{◌≡◌};
ghost use Rattle.rx_check.specs.Refusals.{refusal_of};

use crate::found::{Found, InputFault};
use rx_switch::SwitchFault;

/// The refusal of the first fault found. That it is the run's own is the law `first_fault_is_the_runs`.
pub(crate) fn refusal(found: &Found) -> Option<SwitchFault>
    ensures { result ≡ refusal_of found.now }
{
    match found.first() {
        Some(InputFault::Sheet(fault)) => Some(SwitchFault::Sheet(fault)),
        Some(InputFault::Books(fault)) => Some(SwitchFault::Books(fault)),
        Some(InputFault::Batch(fault)) => Some(SwitchFault::Batch(fault)),
        None => None,
    }
}

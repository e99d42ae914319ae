ghost use Rattle.std.specs.Prelude.{◌≡◌};
ghost use Rattle.rx_switch.specs.JoinParts.{of_reply, of_sheet, of_text};
ghost use Rattle.rx_switch.specs.declared.join_fault.JoinFault.TheVariants as fault;

use rx_batch::BatchFault;
use rx_d0_reply::ReplyFault;
use rx_fields::Memory;
use rx_sheet::SheetFault;
use std::alloc::{AllocError, AllocFailed};

/// Why response files aren't joined (docs/FORMATS.md, "Several plans"). Plans are counted from 0, places from 1.
#[derive(Clone, Copy, Debug)]
pub enum JoinFault {
    /// There is no plan.
    NoPlan,
    /// This plan's sheet.
    Sheet(usize, SheetFault),
    /// This plan has the BIN and the processor control number of an earlier one.
    SameDoor {
        /// The plan.
        plan: usize,
        /// The earlier one.
        earlier: usize,
    },
    /// The batch.
    Batch(BatchFault),
    /// This plan's file isn't a response file.
    Response(usize, BatchFault),
    /// This plan's file answers another batch: its header isn't this batch's, sent back.
    OtherBatch(usize),
    /// The stamp of this plan's file isn't that of the first plan's.
    OtherStamp(usize),
    /// The detail of this plan's file at a place hasn't the reference of the batch's, or one of the two isn't there.
    OtherDetail(usize, usize),
    /// The detail of this plan's file at a place holds no reply that the plan's record there may get.
    OtherReply(usize, usize),
    /// Out of memory.
    Memory,
}

impl<T: Drop> From<AllocFailed<T>> for JoinFault {
    ghost use Rattle.std.specs.Prelude.{◌≡◌};
    ghost use Rattle.rx_switch.specs.declared.join_fault.JoinFault.TheVariants as fault;

    ghost from_gives = { λ _ given. given ≡ fault.Memory };

    fn from(_refused: AllocFailed<T>) -> JoinFault {
        JoinFault::Memory
    }
}

impl From<AllocError> for JoinFault {
    ghost use Rattle.std.specs.Prelude.{◌≡◌};
    ghost use Rattle.rx_switch.specs.declared.join_fault.JoinFault.TheVariants as fault;

    ghost from_gives = { λ _ given. given ≡ fault.Memory };

    fn from(_refused: AllocError) -> JoinFault {
        JoinFault::Memory
    }
}

impl JoinFault {
    /// A fault of the batch.
    pub(crate) fn of_batch(refused: BatchFault) -> JoinFault
        ensures { result ≡ of_text fault.Batch refused }
    {
        match refused {
            BatchFault::Memory => JoinFault::Memory,
            other => JoinFault::Batch(other),
        }
    }

    /// A fault of the sheet of the plan with this number.
    pub(crate) fn of_sheet(number: usize, refused: SheetFault) -> JoinFault
        ensures { result ≡ of_sheet number refused }
    {
        match refused {
            SheetFault::Memory => JoinFault::Memory,
            other => JoinFault::Sheet(number, other),
        }
    }

    /// A fault of the detail at a place, in the response file of the plan with this number.
    pub(crate) fn of_reply(number: usize, place: usize, refused: ReplyFault) -> JoinFault
        ensures { result ≡ of_reply number place refused }
    {
        match refused {
            ReplyFault::Memory => JoinFault::Memory,
            _ => JoinFault::OtherReply(number, place),
        }
    }

    /// A fault of the response file of the plan with this number.
    pub(crate) fn of_response(number: usize, refused: BatchFault) -> JoinFault
        ensures { result ≡ of_text (fault.Response number) refused }
    {
        match refused {
            BatchFault::Memory => JoinFault::Memory,
            other => JoinFault::Response(number, other),
        }
    }
}

impl From<Memory> for JoinFault {
    ghost use Rattle.std.specs.Prelude.{◌≡◌};
    ghost use Rattle.rx_switch.specs.declared.join_fault.JoinFault.TheVariants as fault;

    ghost from_gives = { λ _ given. given ≡ fault.Memory };

    fn from(_refused: Memory) -> JoinFault {
        JoinFault::Memory
    }
}

ghost use Rattle.std.specs.Prelude.{◌≡◌};
ghost use Rattle.rx_d0_reply.specs.Fault.{fault_code};
ghost use Rattle.rx_d0_reply.specs.declared.fault.ReplyFault.TheVariants as the_fault;

use rx_fields::Memory;

/// Why bytes are no reply: the first of these that holds (docs/FORMATS.md, "Reply transmission").
#[derive(Clone, Copy, Debug, PartialEq, Eq)]
pub enum ReplyFault {
    /// The header's 31 bytes aren't there or aren't printable, or its count or status is none.
    Head,
    /// The groups aren't as many as the count says, or one of them doesn't have the segments of an answer.
    Segment,
    /// A field isn't as it is written, or its value passes the limits.
    Field,
    /// Out of memory: an allocation was refused. The bytes are not to blame.
    Memory,
}

impl ReplyFault {
    /// The fault's number, from 1 in the order of the checks.
    pub fn code(self) -> u32
        ensures { result ≡ fault_code self }
    {
        match self {
            ReplyFault::Head => 1,
            ReplyFault::Segment => 2,
            ReplyFault::Field => 3,
            ReplyFault::Memory => 4,
        }
    }
}

impl From<Memory> for ReplyFault {
    ghost from_gives = { λ _ fault. fault ≡ the_fault.Memory };

    fn from(_memory: Memory) -> ReplyFault {
        ReplyFault::Memory
    }
}

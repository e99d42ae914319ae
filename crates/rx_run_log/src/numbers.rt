ghost use Rattle.std.specs.Prelude.{◌≡◌, ◌++◌, OnOk};
ghost use Rattle.rx_run_log.specs.Numbers.{net_text, size_text, tenths_text, time_text};

use rx_print::{put_grouped, put_hundredths};
use std::alloc::AllocError;

// From this many bytes on a size is given in millions.
const MILLION: u64 = 1_000_000;

/// How many bytes: in full below a million, else in millions with a tenth, cut off.
#[tactic(auto, using(std::proofs::Common::append_assoc))]
pub(crate) fn put_size(line: &mut Vec<u8>, bytes: u64) -> Result<(), AllocError>
    ensures { OnOk result (line.new.items ≡ line.old.items ++ size_text bytes) }
{
    if bytes < MILLION {
        put_grouped(line, bytes)?;
        return line.extend_from_slice(b" bytes");
    }
    put_tenths(line, bytes / 100_000)?;
    line.extend_from_slice(b" MB")
}

#[tactic(auto, using(std::proofs::Common::append_assoc))]
fn put_tenths(line: &mut Vec<u8>, tenths: u64) -> Result<(), AllocError>
    ensures { OnOk result (line.new.items ≡ line.old.items ++ tenths_text tenths) }
{
    put_grouped(line, tenths / 10)?;
    line.extend_from_slice(&[b'.', b'0' + (tenths % 10) as u8])
}

/// How many microseconds, as seconds with hundredths, cut off.
#[tactic(auto, using(std::proofs::Common::append_assoc))]
pub(crate) fn put_time(line: &mut Vec<u8>, micros: u64) -> Result<(), AllocError>
    ensures { OnOk result (line.new.items ≡ line.old.items ++ time_text micros) }
{
    put_hundredths(line, micros / 10_000)?;
    line.extend_from_slice(b" s")
}

/// An amount in cents, which may be below 0, as dollars and cents.
#[tactic(auto, using(std::proofs::Common::append_assoc))]
pub(crate) fn put_net(line: &mut Vec<u8>, cents: i64) -> Result<(), AllocError>
    ensures { OnOk result (line.new.items ≡ line.old.items ++ net_text cents) }
{
    if cents.is_negative() {
        line.push(b'-')?;
    }
    put_hundredths(line, cents.unsigned_abs())
}

ghost use Rattle.std.specs.Prelude.{◌≡◌, ◌&&◌, ◌+◌, ◌==◌, true};
ghost use Rattle.rx_d0_request.specs.Codes.{is_faulty, first_five, is_count, header_conditions};

use crate::header::Header;
use crate::value;
use rx_d0_values::Codes;
use rx_fields::{Code, Door};

/// The codes whose condition holds, the first five.
pub(crate) fn first_five(rows: &[(Code, bool)]) -> Codes
    requires { is_faulty rows.now ≡ true }
    ensures { result ≡ first_five rows.now }
{
    let mut codes = [Code::Syntax; 5];
    let mut count = 0;
    for row in rows {
        if row.1 && count < 5 {
            codes[count] = row.0;
            count += 1;
        }
    }
    match Codes::new(&codes[..count]) {
        Some(codes) => codes,
        None => unreachable!(),
    }
}

/// Whether a count is 1 to 4, as a digit, and the number of groups.
pub(crate) fn is_count(count: u8, groups: usize) -> bool
    ensures { result ≡ is_count count groups }
{
    groups >= 1 && groups <= 4 && usize::from(count) == usize::from(b'0') + groups
}

/// The codes of a header, each with its condition.
pub(crate) fn header_conditions(
    door: &Door,
    header: &Header,
    is_sound: bool,
    groups: usize,
) -> [(Code, bool); 8]
    ensures { result ≡ header_conditions door.now header.now is_sound groups }
{
    [
        (Code::Bin, header.bin != door.bin),
        (Code::Version, header.version != *b"D0"),
        (
            Code::TransactionCode,
            !(header.code == *b"B1" || header.code == *b"B2"),
        ),
        (Code::ProcessorControlNumber, header.pcn != door.pcn),
        (Code::TransactionCount, !is_count(header.count, groups)),
        (Code::Provider, value::provider(&header.provider).is_none()),
        (Code::DateOfService, value::date(&header.date).is_none()),
        (Code::Syntax, !is_sound),
    ]
}

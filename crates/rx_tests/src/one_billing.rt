//! The worked case one-billing (tests/cases/README.md): the texts that come in, and those that have to come out.

/// The stamp of its run.
pub const STAMP: &[u8] = b"202603020600";

/// The plan sheet.
pub const SHEET: &[u8] = b"bin = \"900001\"
pcn = \"RXDEMO\"
period_first = \"20260101\"
period_last = \"20261231\"
member_deductible = 10000
family_maximum = 30000
refill_percent = 75
max_days = 90
fee = 175
[tiers]
1 = 1000
2 = 3000
[drugs.00001000101]
tier = \"1\"
price = 2500
[drugs.00002000202]
tier = \"2\"
price = 100000
[drugs.00003000303]
tier = \"1\"
price = 5000
";

/// The opening books.
pub const BOOKS: &[u8] = b"BOOKS|1|20260101|20261231
M|C100|01|20260101|20261231|0
M|C100|02|20260101|20261231|0
M|C100|03|20260101|20261231|0
M|C200|01|20260101|20261231|0
T|C100|0
T|C200|0
";

/// The batch file.
pub const BATCH: &[u8] =
    b"\x0200TPHARMSYS                0000042202603010930P12RXSWITCH                \x03\
\x02G10000000001900001D0B1RXDEMO    1011234567893     20260228          \x1e\x1cAM04\x1cC2C100\x1cC301\
\x1d\x1e\x1cAM07\x1cEM1\x1cD2000000000123\x1cE103\x1cD700002000202\x1cE70000030000\x1cD5030\x1cD61\
\x1e\x1cAM11\x1cD90003000{\x1cDC0000017E\x1cDQ0004000{\x03\
\x029900000420000000001                                   \x03";

/// The response file.
pub const RESPONSE: &[u8] =
    b"\x0200RRXSWITCH                0000042202603020600P12PHARMSYS                \x03\
\x02G10000000001D0B11A011234567893     20260228\x1d\x1e\x1cAM21\x1cANP\x1cF3000004200000011\
\x1e\x1cAM22\x1cEM1\x1cD2000000000123\x1e\x1cAM23\x1cF50001300{\x1cF60003000{\x1cF70000017E\
\x1cF90001717E\x1cFH0001000{\x1cFI0000300{\x03\
\x029900000420000000003                                   \x03";

/// The end books.
pub const END_BOOKS: &[u8] = b"BOOKS|3|20260101|20261231
M|C100|01|20260101|20261231|10000
M|C100|02|20260101|20261231|0
M|C100|03|20260101|20261231|0
M|C200|01|20260101|20261231|0
C|1234567893|123|20260228|C100|01|00002000202|30000|30|30000|175|10000|3000|0|000004200000011
T|C100|13000|10000
T|C200|0|0
";

/// The settlement.
pub const SETTLEMENT: &[u8] = b"SETTLE|1|0000042|202603020600
P|1234567893|1|0|0|0|17175
TOTAL|1|0|0|0|17175
";

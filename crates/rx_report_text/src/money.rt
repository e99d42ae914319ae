ghost use Rattle.std.specs.Prelude.{◌≡◌, unsigned_abs};
ghost use Rattle.std.specs.Fmt.{signed_decimal};
ghost use Rattle.rx_print.specs.Money.{signed_dollars};
ghost use Rattle.rx_print.specs.Page.{Writes};
ghost use Rattle.rx_report_text.specs.Money.{minus_of};
ghost use Rattle.rx_settle.specs.Settlement.{net};

use rx_print::{Page, put_dollars};
use rx_settle::Tally;

/// Writes the net of a tally in cents, with a minus where more was taken back than paid out.
#[tactic(auto, using(std::proofs::Common::append_assoc, crate::proofs::Minus::after_minus))]
pub fn put_net_cents(page: &mut Page, tally: &Tally)
    ensures { Writes page.old page.new (signed_decimal (net tally.now)) }
{
    let cents = put_minus(page, tally);
    page.number(cents);
}

/// Writes the net of a tally in dollars and cents, with a minus where more was taken back than paid out.
#[tactic(auto, using(std::proofs::Common::append_assoc, crate::proofs::Minus::dollars_after_minus))]
pub fn put_net(page: &mut Page, tally: &Tally)
    ensures { Writes page.old page.new (signed_dollars (net tally.now)) }
{
    let cents = put_minus(page, tally);
    page.lacks |= put_dollars(&mut page.bytes, cents).is_err();
}

// Writes a minus where more was taken back than paid out, and returns the net without it.
fn put_minus(page: &mut Page, tally: &Tally) -> u128
    ensures minus { Writes page.old page.new (minus_of (net tally.now)) }
    ensures cents { result ≡ unsigned_abs (net tally.now) }
{
    if tally.taken_back <= tally.paid_out {
        return tally.paid_out - tally.taken_back;
    }
    page.put(b"-");
    tally.taken_back - tally.paid_out
}

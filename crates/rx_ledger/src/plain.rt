ghost use Rattle.std.specs.Prelude.{◌≡◌, ◌&&◌, ◌≤◌};
ghost use Rattle.rx_ledger.specs.Answers.{is_too_soon};
ghost use Rattle.rx_ledger.specs.Rows.{claimed_by};

use crate::basis::Basis;
use crate::family::is_same;
use crate::figures::Figures;
use crate::ledger::Ledger;
use crate::member::{Member, MemberKey};
use crate::refill::is_too_soon;
use crate::row::Row;
use crate::share::Used;
use crate::sums::used_by;
use rx_d0_values::Bill;
use rx_fields::{Day, Id, Key, Memory};

// A plain ledger answers for everything, and visits all members or rows at each question.
impl Basis for Ledger {
    ghost use Rattle.rx_ledger.specs.Basis.{whole};

    ghost ledger = { λ l. l };

    ghost scope = { λ l. whole };

    fn row_under(&self, key: &Key) -> Option<Row> {
        self.row(key)
    }

    fn has_members(&self, family: &Id) -> bool {
        self.members()
            .iter()
            .any(|member| is_same(&member.key.family, family))
    }

    fn member(&self, key: &MemberKey) -> Option<Member> {
        self.listed(key)
    }

    fn used(&self, figures: &Figures, key: &MemberKey) -> Used {
        used_by(figures, key, self.rows())
    }

    fn is_too_soon(&self, figures: &Figures, date: Day, bill: &Bill) -> bool {
        self.rows()
            .iter()
            .any(|row| is_too_soon_of(figures, date, bill, row))
    }

    fn add(&mut self, row: Row) -> Result<(), Memory> {
        self.put_row(row)
    }

    fn remove(&mut self, key: &Key) -> Result<(), Memory> {
        let _ = self.remove_row(key);
        Ok(())
    }
}

// Whether the row is one of the billing's family, and makes it too soon.
fn is_too_soon_of(figures: &Figures, date: Day, bill: &Bill, row: &Row) -> bool
    requires { figures.now.refill_percent ≤ 100 }
    ensures { result ≡ (claimed_by bill.now.family row.now && is_too_soon figures.now date bill.now row.now) }
{
    is_same(&row.family, &bill.parts().family) && is_too_soon(figures, date, bill, row)
}

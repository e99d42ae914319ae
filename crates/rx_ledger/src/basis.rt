ghost use Rattle.std.specs.Prelude.{◌≡◌, ℕ, List, IfSome, OnOk, true, false};
ghost use Rattle.std.specs.List.{list_any};
ghost use Rattle.rx_ledger.specs.Answers.{is_too_soon, used_by};
ghost use Rattle.rx_ledger.specs.Basis.{HasPeriod, Scope, billed_member};
ghost use Rattle.rx_ledger.specs.Ledger.{Ledger, is_listed, is_taken, members_of, row_under, rows_of, with_row, without_row};
ghost use Rattle.rx_ledger.specs.Members.{of_family, person_in};
ghost use Rattle.rx_ledger.specs.Plan.{AreFigures};
ghost use Rattle.rx_ledger.specs.Rows.{member_of_row};

use crate::figures::Figures;
use crate::member::{Member, MemberKey};
use crate::row::Row;
use crate::share::Used;
use rx_d0_values::Bill;
use rx_fields::{Day, Id, Key, Memory};

/// What a record is adjudicated on: books that answer as a ledger does, whole or in part. It says what it answers for:
/// fill keys, members and families, and the sums of a benefit period.
pub trait Basis {
    /// The ledger as which it answers.
    ghost ledger: { Self → Ledger };

    /// What it answers for.
    ghost scope: { Self → Scope };

    /// The row under a fill key.
    fn row_under(&self, key: &Key) -> Option<Row>
        requires { (scope self.now).has_key key.now ≡ true }
        ensures { result ≡ row_under (ledger self.now) key.now };

    /// Whether the family has a member.
    fn has_members(&self, family: &Id) -> bool
        requires { (scope self.now).has_family family.now ≡ true }
        ensures { result ≡ list_any (of_family family.now) (ledger self.now).members };

    /// The member of the family who has the person code.
    fn member(&self, key: &MemberKey) -> Option<Member>
        requires { (scope self.now).has_member key.now ≡ true }
        ensures { result ≡ person_in (members_of (ledger self.now) key.now.family) key.now.person };

    /// What a listed member and the family have used of the plan's figures, in cents.
    fn used(&self, figures: &Figures, key: &MemberKey) -> Used
        requires period { HasPeriod (scope self.now).period figures.now.period }
        requires member { (scope self.now).has_member key.now ≡ true }
        requires listed { is_listed (ledger self.now) key.now ≡ true }
        ensures { result ≡ used_by figures.now key.now.person (rows_of (ledger self.now) key.now.family) };

    /// Whether too few days of one of the fills of a billing's member, who is listed, have passed on the date of
    /// service.
    fn is_too_soon(&self, figures: &Figures, date: Day, bill: &Bill) -> bool
        requires figures { AreFigures figures.now }
        requires member { (scope self.now).has_member (billed_member bill.now) ≡ true }
        requires listed { is_listed (ledger self.now) (billed_member bill.now) ≡ true }
        ensures { result ≡ list_any (is_too_soon figures.now date bill.now) (rows_of (ledger self.now) bill.now.family) };

    /// Adds a standing claim of a listed member under a free fill key.
    fn add(&mut self, row: Row) -> Result<(), Memory>
        requires key { (scope self.old).has_key row.key ≡ true }
        requires member { (scope self.old).has_member (member_of_row row) ≡ true }
        requires family { (scope self.old).has_family row.family ≡ true }
        requires free { is_taken (ledger self.old) row.key ≡ false }
        requires listed { is_listed (ledger self.old) (member_of_row row) ≡ true }
        ensures added { OnOk result (ledger self.new ≡ with_row (ledger self.old) row) }
        ensures scope { OnOk result (scope self.new ≡ scope self.old) };

    /// Takes out the row that stands under a fill key.
    fn remove(&mut self, key: &Key) -> Result<(), Memory>
        requires key { (scope self.old).has_key key.now ≡ true }
        requires there { is_taken (ledger self.old) key.now ≡ true }
        requires family { IfSome (row_under (ledger self.old) key.now) (λ r. (scope self.old).has_family r.family ≡ true) }
        ensures removed { OnOk result (ledger self.new ≡ without_row (ledger self.old) key.now) }
        ensures scope { OnOk result (scope self.new ≡ scope self.old) };
}

//! A family's claims by date, each with the sums up to it.
ghost use Rattle.std.specs.Prelude.{◌≡◌, ◌≤◌, ◌↔◌, ◌++◌, ◌*◌, ◌^◌, IfOk, OnOk, unwrap_or, List, ℕ, if◌then◌else◌};
ghost use Rattle.std.specs.BTreeMap.{get};
ghost use Rattle.rx_fields.specs.Order.{id_cmp};
ghost use Rattle.rx_ledger.specs.Members.{is_same};
ghost use Rattle.rx_ledger.specs.Sums.{counted, deductible_in, deductible_paid, family_deductible_in, out_of_pocket_in, paid_by_patient};
ghost use Rattle.rx_commands.specs.FamilySums.{AreClaims, IsByDate, claims_of, left_of, limits_of, no_limits, reaches, running_of};

use rx_fields::{Memory, Period, Person};
use rx_ledger::{Figures, Row, left};
use std::alloc::Global;
use std::collections::BTreeMap;

/// The limits of a plan, in cents; None for one that the plan lacks, or without a plan.
#[derive(Clone, Copy)]
pub struct Limits {
    /// Of the deductible of a member.
    pub deductible: Option<u64>,
    /// Of the deductible of a family.
    pub family_deductible: Option<u64>,
    /// Of what a family pays.
    pub out_of_pocket: Option<u64>,
}

/// A sum up to a claim, in cents.
#[derive(Clone, Copy)]
pub struct Running {
    /// The sum with the claim.
    pub sum: u128,
    /// What is left of its limit, where it has one.
    pub left: Option<u64>,
    /// Whether this is the claim with which the limit is reached.
    pub reaches: bool,
}

/// A standing claim, with the sums over it and those before it.
#[derive(Clone, Copy)]
pub struct Claim {
    /// The claim.
    pub row: Row,
    /// The deductible of its member.
    pub deductible: Running,
    /// The deductible of its family.
    pub family_deductible: Running,
    /// The out of pocket of its family.
    pub out_of_pocket: Running,
}

impl Limits {
    /// No limits.
    pub fn none() -> Limits
        ensures { result ≡ no_limits }
    {
        Limits {
            deductible: None,
            family_deductible: None,
            out_of_pocket: None,
        }
    }

    /// The limits of a plan.
    pub fn of(figures: &Figures) -> Limits
        ensures { result ≡ limits_of figures.now }
    {
        Limits {
            deductible: Some(figures.member_deductible),
            family_deductible: figures.family_deductible,
            out_of_pocket: Some(figures.family_maximum),
        }
    }
}

// A sum that a claim raises.
fn running_of(limit: Option<u64>, before: u128, after: u128) -> Running
    ensures { result ≡ running_of limit before after }
{
    Running {
        sum: after,
        left: left_of(limit, after),
        reaches: reaches(limit, before, after),
    }
}

// What is left of a limit.
pub(crate) fn left_of(limit: Option<u64>, sum: u128) -> Option<u64>
    ensures { result ≡ left_of limit sum }
{
    match limit {
        Some(figure) => Some(left(figure, sum)),
        None => None,
    }
}

/// Whether a claim brings a sum to its limit: it was below before, and is no longer so.
pub fn reaches(limit: Option<u64>, before: u128, after: u128) -> bool
    ensures { result ≡ reaches limit before after }
{
    match limit {
        Some(figure) => before < u128::from(figure) && !(after < u128::from(figure)),
        None => false,
    }
}

// What the claim counts of a deductible, and of out of pocket.
fn counted_deductible(period: Period, row: &Row) -> u64
    ensures { result ≡ counted period deductible_paid row.now }
{
    if period.contains(row.key.date) {
        row.pricing.amounts().deductible
    } else {
        0
    }
}

fn counted_out_of_pocket(period: Period, row: &Row) -> u64
    ensures { result ≡ counted period paid_by_patient row.now }
{
    if period.contains(row.key.date) {
        row.pricing.patient_pay()
    } else {
        0
    }
}

// The deductible of each person so far.
#[derive(Drop)]
struct Deductibles {
    persons: BTreeMap<Person, u128>,
}

impl Deductibles {
    fn new(alloc: Global) -> Deductibles
        ensures { (p : List ℕ) → unwrap_or (get id_cmp result.persons p) 0 ≡ 0 }
    {
        Deductibles {
            persons: BTreeMap::new(alloc),
        }
    }

    fn of(&self, person: &Person) -> u128
        ensures { result ≡ unwrap_or (get id_cmp self.now.persons person.now) 0 }
    {
        match self.persons.get(person) {
            Some(cents) => *cents,
            None => 0,
        }
    }

    fn set(&mut self, person: Person, cents: u128) -> Result<(), Memory>
        ensures { OnOk result ((p : List ℕ) → unwrap_or (get id_cmp self.new.persons p) 0
            ≡ (if is_same person p then cents else unwrap_or (get id_cmp self.old.persons p) 0)) }
    {
        self.persons.insert(person, cents)?;
        Ok(())
    }
}

/// The claims in this order, each with the sums of the period up to it.
pub fn summed(
    alloc: Global,
    limits: Limits,
    period: Period,
    rows: &[Row],
) -> Result<Vec<Claim>, Memory>
    ensures { IfOk result (λ claims. claims.items ≡ claims_of limits period rows.now) }
{
    let mut claims = Vec::with_capacity(alloc, rows.len())?;
    let mut deductibles = Deductibles::new(alloc);
    let mut family_deductible = 0;
    let mut out_of_pocket = 0;
    for row in rows {
        let cents = u128::from(counted_deductible(period, row));
        let own = deductibles.of(&row.person);
        let paid = u128::from(counted_out_of_pocket(period, row));
        deductibles.set(row.person, own + cents)?;
        claims.push(Claim {
            row: *row,
            deductible: running_of(limits.deductible, own, own + cents),
            family_deductible: running_of(
                limits.family_deductible,
                family_deductible,
                family_deductible + cents,
            ),
            out_of_pocket: running_of(limits.out_of_pocket, out_of_pocket, out_of_pocket + paid),
        })?;
        family_deductible += cents;
        out_of_pocket += paid;
    }
    Ok(claims)
}

/// The claims of these rows by date, those of one day as they stand, each with the sums of the period up to it.
pub fn by_date(
    alloc: Global,
    limits: Limits,
    period: Period,
    rows: Vec<Row>,
) -> Result<Vec<Claim>, Memory>
    ensures { IfOk result (λ claims. AreClaims limits period rows.items claims.items) }
{
    let mut rows = rows;
    rows.sort_by_key(|row| row.key.date)?;
    let claims = summed(alloc, limits, period, &rows)?;
    Ok(claims)
}

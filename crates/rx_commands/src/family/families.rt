//! A family of the books.
ghost use Rattle.std.specs.Prelude.{◌≡◌, filter, [], find, IfNone, IfOk, IfSome, map, option_map, Some, unwrap_or};
ghost use Rattle.rx_ledger.specs.Ledger.{members_of, rows_of};
ghost use Rattle.rx_books_store.specs.LedgerBooks.{deductible_of_family, out_of_pocket_of_family};
ghost use Rattle.rx_commands.specs.Families.{IsFamily, IsFound, IsPart, is_of_person, is_person, member_shown, own_deductible, reaches_deductible};
ghost use Rattle.rx_commands.specs.Families.{reaches_out_of_pocket, reaches_own, summed_over};
ghost use Rattle.rx_commands.specs.FamilySums.{AreClaims, claim_row, left_of};

use crate::family::rows::{members_of, rows_of};
use crate::family::sums::{Claim, Limits, by_date, left_of};
use rx_books_store::{Books, OpenBooks};
use rx_fields::{Id, Memory, Period, Person};
use rx_ledger::{Member, MemberKey, Row};
use std::alloc::Global;

/// A sum over the claims of a benefit period, in cents.
#[derive(Clone, Copy)]
pub struct Total {
    /// The sum.
    pub sum: u128,
    /// What is left of its limit, where it has one.
    pub left: Option<u64>,
    /// The claim with which the limit was reached.
    pub reached: Option<Row>,
}

/// A member of a family.
#[derive(Clone, Copy)]
pub struct FamilyMember {
    /// The member, with its coverage.
    pub member: Member,
    /// The member's deductible.
    pub deductible: Total,
}

/// A family with its members and its standing claims.
#[derive(Drop)]
pub struct Family {
    /// The cardholder id.
    pub id: Id,
    /// The benefit period whose claims the sums are of.
    pub period: Period,
    /// The members, ascending by person.
    pub members: Vec<FamilyMember>,
    /// The claims by date; those of one day ascend by fill key.
    pub claims: Vec<Claim>,
    /// The family's deductible.
    pub deductible: Total,
    /// What the family pays.
    pub out_of_pocket: Total,
}

/// The family of the books with this id; None where they list no member of it. The sums are of this period, or of the books'
/// own; with limits of a plan it is shown what is left of them (docs/CLI.md, "family").
pub fn family_of(
    alloc: Global,
    books: Books,
    id: &Id,
    limits: &Limits,
    period: Option<Period>,
) -> Result<Option<Family>, Memory>
    ensures { IfOk result (IsFound limits.now (summed_over period books) id.now) }
{
    let books = over_period(alloc, books, period)?;
    family_in(alloc, &books, id, limits)
}

// The books with the sums of this period, or of their own.
fn over_period(alloc: Global, books: Books, period: Option<Period>) -> Result<Books, Memory>
    ensures { IfOk result (λ summed. summed ≡ summed_over period books) }
{
    let Some(period) = period else {
        return Ok(books);
    };
    books.with_period(alloc, period)
}

fn family_in(
    alloc: Global,
    books: &Books,
    id: &Id,
    limits: &Limits,
) -> Result<Option<Family>, Memory>
    ensures { IfOk result (IsFound limits.now books.now id.now) }
{
    let Some(deductible) = books.family_deductible(id) else {
        return Ok(None);
    };
    let out_of_pocket = books.out_of_pocket(id).unwrap_or(0);
    let lent = books.lend(alloc)?;
    let family = listed(
        alloc,
        books,
        lent.books(),
        id,
        limits,
        deductible,
        out_of_pocket,
    )?;
    Ok(Some(family))
}

// The family of the books, which are lent opened, with these sums.
fn listed(
    alloc: Global,
    books: &Books,
    opened: &OpenBooks,
    id: &Id,
    limits: &Limits,
    deductible: u128,
    out_of_pocket: u128,
) -> Result<Family, Memory>
    ensures { IfOk result (λ f. opened.now.books ≡ books.now
        → Some deductible ≡ deductible_of_family books.now id.now
        → out_of_pocket ≡ unwrap_or (out_of_pocket_of_family books.now id.now) 0 → IsFamily limits.now books.now id.now f) }
{
    let claims = claims_in(alloc, opened, id, limits, books.period())?;
    let members = members_in(alloc, books, opened, id, limits, &claims)?;
    let deductible_at = deductible_reached(&claims);
    let out_of_pocket_at = out_of_pocket_reached(&claims);
    Ok(Family {
        id: *id,
        period: books.period(),
        members,
        claims,
        deductible: total_of(limits.family_deductible, deductible, deductible_at),
        out_of_pocket: total_of(limits.out_of_pocket, out_of_pocket, out_of_pocket_at),
    })
}

// The claims of a family by date, each with its sums.
fn claims_in(
    alloc: Global,
    opened: &OpenBooks,
    id: &Id,
    limits: &Limits,
    period: Period,
) -> Result<Vec<Claim>, Memory>
    ensures { IfOk result (λ claims. AreClaims limits.now period (rows_of opened.now.books.ledger id.now) claims.items) }
{
    let rows = rows_of(alloc, opened, id)?;
    let claims = by_date(alloc, *limits, period, rows)?;
    Ok(claims)
}

// The members of a family, as they are shown.
fn members_in(
    alloc: Global,
    books: &Books,
    opened: &OpenBooks,
    id: &Id,
    limits: &Limits,
    claims: &[Claim],
) -> Result<Vec<FamilyMember>, Memory>
    ensures { IfOk result (λ list. list.items
        ≡ map (member_shown limits.now.deductible books.now claims.now) (members_of opened.now.books.ledger id.now)) }
{
    let members = members_of(alloc, opened, id)?;
    let shown = members_shown(alloc, books, limits, &members, claims)?;
    Ok(shown)
}

// A sum, with the claim that reaches its limit.
fn total_of(limit: Option<u64>, sum: u128, reached: Option<Row>) -> Total
    ensures { result ≡ record { sum = sum; left = left_of limit sum; reached = reached } }
{
    Total {
        sum,
        left: left_of(limit, sum),
        reached,
    }
}

fn deductible_reached(claims: &[Claim]) -> Option<Row>
    ensures { result ≡ option_map claim_row (find reaches_deductible claims.now) }
{
    let claim = claims.iter().find(|claim| claim.family_deductible.reaches);
    claim.map(|claim| claim.row)
}

fn out_of_pocket_reached(claims: &[Claim]) -> Option<Row>
    ensures { result ≡ option_map claim_row (find reaches_out_of_pocket claims.now) }
{
    let claim = claims.iter().find(|claim| claim.out_of_pocket.reaches);
    claim.map(|claim| claim.row)
}

fn own_reached(claims: &[Claim], person: &Person) -> Option<Row>
    ensures { result ≡ option_map claim_row (find (reaches_own person.now) claims.now) }
{
    claims
        .iter()
        .find(|claim| is_of_person(person, claim) && claim.deductible.reaches)
        .map(|claim| claim.row)
}

fn members_shown(
    alloc: Global,
    books: &Books,
    limits: &Limits,
    members: &[Member],
    claims: &[Claim],
) -> Result<Vec<FamilyMember>, Memory>
    ensures { IfOk result (λ list. list.items ≡ map (member_shown limits.now.deductible books.now claims.now) members.now) }
{
    let mut list = Vec::with_capacity(alloc, members.len())?;
    for member in members {
        let deductible = own_deductible(books, limits.deductible, &member.key, claims);
        list.push(FamilyMember {
            member: *member,
            deductible,
        })?;
    }
    Ok(list)
}

// The deductible of a member, with the claim that reaches its limit.
fn own_deductible(books: &Books, limit: Option<u64>, member: &MemberKey, claims: &[Claim]) -> Total
    ensures { result ≡ own_deductible limit books.now claims.now member.now }
{
    let sum = books
        .deductible(&member.family, &member.person)
        .unwrap_or(0);
    total_of(limit, sum, own_reached(claims, &member.person))
}

/// The family with one of its persons and that one's claims only; None where it has no such person. The sums stay those of
/// the whole family.
pub fn part_of(alloc: Global, family: Family, person: &Person) -> Result<Option<Family>, Memory>
    ensures none { IfOk result (λ o. IfNone o (filter (is_person person.now) family.members.items ≡ [])) }
    ensures part { IfOk result (λ o. IfSome o (IsPart person.now family)) }
{
    let members = persons_of(alloc, &family.members, person)?;
    if members.is_empty() {
        return Ok(None);
    }
    let claims = claims_of(alloc, &family.claims, person)?;
    let Family {
        id,
        period,
        members: _,
        claims: _,
        deductible,
        out_of_pocket,
    } = family;
    Ok(Some(Family {
        id,
        period,
        members,
        claims,
        deductible,
        out_of_pocket,
    }))
}

fn persons_of(
    alloc: Global,
    members: &[FamilyMember],
    person: &Person,
) -> Result<Vec<FamilyMember>, Memory>
    ensures { IfOk result (λ list. list.items ≡ filter (is_person person.now) members.now) }
{
    let shown = members.iter().filter(|shown| is_person(person, shown));
    Ok(shown.copied().collect(alloc)?)
}

fn claims_of(alloc: Global, claims: &[Claim], person: &Person) -> Result<Vec<Claim>, Memory>
    ensures { IfOk result (λ list. list.items ≡ filter (is_of_person person.now) claims.now) }
{
    let own = claims.iter().filter(|claim| is_of_person(person, claim));
    Ok(own.copied().collect(alloc)?)
}

#[tactic(auto, using(rx_ledger::proofs::SameText::same_text))]
fn is_person(person: &Person, shown: &FamilyMember) -> bool
    ensures { result ≡ is_person person.now shown.now }
{
    shown.member.key.person == *person
}

#[tactic(auto, using(rx_ledger::proofs::SameText::same_text))]
fn is_of_person(person: &Person, claim: &Claim) -> bool
    ensures { result ≡ is_of_person person.now claim.now }
{
    claim.row.person == *person
}

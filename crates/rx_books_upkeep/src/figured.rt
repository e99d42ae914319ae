//! What stands above and below the claims in the text of books where these are the members: the figures so far, and none of
//! members and families that are new.
ghost use Rattle.std.specs.Prelude.{◌≡◌, ◌++◌, IfOk, OnOk};
ghost use Rattle.rx_ledger.specs.Ledger.{IsLedger};
ghost use Rattle.rx_ledger.specs.Members.{member_cmp, member_key};
ghost use Rattle.rx_ledger.specs.Sums.{deductible};
ghost use Rattle.rx_sorted.specs.Ascending.{IsAscending};
ghost use Rattle.rx_books_text.specs.declared.version.Version.TheVariants as versions;
ghost use Rattle.rx_books_store.specs.BooksText.{above_text, below_text, total_of};
ghost use Rattle.rx_books_upkeep.specs.Figured.{family_lines, of_members, person_lines};

use crate::families::{Family, families_of};
use rx_books_store::OpenBooks;
use rx_books_text::{MemberLine, TotalLine, put_head, put_member, put_total};
use rx_fields::{Id, Memory};
use rx_ledger::{Member, MemberKey};
use rx_sorted::place_near;
use std::alloc::Global;
use std::thread::{self, Threads};

// About the bytes of a member line and of a total line.
const LINE: usize = 64;

/// What stands above and below the claims, each written on a thread of its own.
pub(crate) fn above_and_below<R: Threads + Sync>(
    rt: &R,
    alloc: Global,
    books: &OpenBooks,
    members: &[Member],
) -> Result<(Vec<u8>, Vec<u8>), Memory>
    requires ledger { IsLedger books.now.books.ledger }
    requires rise { IsAscending member_cmp member_key members.now }
    ensures above { IfOk result (λ sides. sides.0.items
        ≡ above_text books.now.books.period (of_members members.now books.now.books.ledger)) }
    ensures below { IfOk result (λ sides. sides.1.items
        ≡ below_text books.now.books.period (of_members members.now books.now.books.ledger)) }
{
    let (above, below) = thread::join(
        rt,
        || -> Result<Vec<u8>, Memory>
            requires { IsLedger books.now.books.ledger }
            ensures { IfOk result (λ text. text.items
                ≡ above_text books.entry.now.books.period (of_members members.entry.now books.entry.now.books.ledger)) }
        { above_claims(rt, alloc, books, members) },
        || -> Result<Vec<u8>, Memory>
            requires { (IsLedger books.now.books.ledger) × (IsAscending member_cmp member_key members.now) }
            ensures { IfOk result (λ text. text.items
                ≡ below_text books.entry.now.books.period (of_members members.entry.now books.entry.now.books.ledger)) }
        { below_claims(rt, alloc, books, members) },
    );
    Ok((above?, below?))
}

// The head line and the member lines.
fn above_claims<R: Threads + Sync>(
    rt: &R,
    alloc: Global,
    books: &OpenBooks,
    members: &[Member],
) -> Result<Vec<u8>, Memory>
    requires { IsLedger books.now.books.ledger }
    ensures { IfOk result (λ text. text.items ≡ above_text books.now.books.period (of_members members.now books.now.books.ledger)) }
{
    let mut text = Vec::with_capacity(alloc, members.len().saturating_mul(LINE))?;
    put_head(&mut text, books.period())?;
    with_persons(rt, alloc, text, books, members)
}

// The text with the lines of these members after it, half of them written on a thread of its own.
fn with_persons<R: Threads + Sync>(
    rt: &R,
    alloc: Global,
    text: Vec<u8>,
    books: &OpenBooks,
    members: &[Member],
) -> Result<Vec<u8>, Memory>
    requires { IsLedger books.now.books.ledger }
    ensures { IfOk result (λ all. all.items ≡ text.items ++ person_lines books.now.books members.now) }
{
    let (front, back) = members.split_at(members.len() / 2);
    let (front, back) = thread::join(
        rt,
        || -> Result<Vec<u8>, Memory>
            requires { IsLedger books.now.books.ledger }
            ensures { IfOk result (λ all. all.items ≡ text.items ++ person_lines books.entry.now.books front.entry.now) }
        { after(text, books, front) },
        || -> Result<Vec<u8>, Memory>
            requires { IsLedger books.now.books.ledger }
            ensures { IfOk result (λ all. all.items ≡ person_lines books.entry.now.books back.entry.now) }
        { persons_text(alloc, books, back) },
    );
    let mut all = front?;
    let back = back?;
    all.extend_from_slice(&back)?;
    Ok(all)
}

// The text with the lines of these members after it.
fn after(text: Vec<u8>, books: &OpenBooks, members: &[Member]) -> Result<Vec<u8>, Memory>
    requires { IsLedger books.now.books.ledger }
    ensures { IfOk result (λ all. all.items ≡ text.items ++ person_lines books.now.books members.now) }
{
    let mut text = text;
    put_persons(&mut text, books, members)?;
    Ok(text)
}

// The lines of these members.
fn persons_text(alloc: Global, books: &OpenBooks, members: &[Member]) -> Result<Vec<u8>, Memory>
    requires { IsLedger books.now.books.ledger }
    ensures { IfOk result (λ text. text.items ≡ person_lines books.now.books members.now) }
{
    let text = Vec::with_capacity(alloc, members.len().saturating_mul(LINE))?;
    after(text, books, members)
}

// The total lines of the families of these members.
fn below_claims<R: Threads + Sync>(
    rt: &R,
    alloc: Global,
    books: &OpenBooks,
    members: &[Member],
) -> Result<Vec<u8>, Memory>
    requires ledger { IsLedger books.now.books.ledger }
    requires rise { IsAscending member_cmp member_key members.now }
    ensures { IfOk result (λ text. text.items ≡ below_text books.now.books.period (of_members members.now books.now.books.ledger)) }
{
    let families = families_of(alloc, members)?;
    families_text(rt, alloc, books, families.as_slice())
}

// The total lines of these families, half of them written on a thread of its own.
fn families_text<R: Threads + Sync>(
    rt: &R,
    alloc: Global,
    books: &OpenBooks,
    families: &[Family],
) -> Result<Vec<u8>, Memory>
    requires { IsLedger books.now.books.ledger }
    ensures { IfOk result (λ text. text.items ≡ family_lines books.now.books families.now) }
{
    let (front, back) = families.split_at(families.len() / 2);
    let (front, back) = thread::join(
        rt,
        || -> Result<Vec<u8>, Memory>
            requires { IsLedger books.now.books.ledger }
            ensures { IfOk result (λ text. text.items ≡ family_lines books.entry.now.books front.entry.now) }
        { totals_text(alloc, books, front) },
        || -> Result<Vec<u8>, Memory>
            requires { IsLedger books.now.books.ledger }
            ensures { IfOk result (λ text. text.items ≡ family_lines books.entry.now.books back.entry.now) }
        { totals_text(alloc, books, back) },
    );
    let back = back?;
    let mut text = front?;
    text.extend_from_slice(&back)?;
    Ok(text)
}

// The total lines of these families.
fn totals_text(alloc: Global, books: &OpenBooks, families: &[Family]) -> Result<Vec<u8>, Memory>
    requires { IsLedger books.now.books.ledger }
    ensures { IfOk result (λ text. text.items ≡ family_lines books.now.books families.now) }
{
    let mut text = Vec::with_capacity(alloc, families.len().saturating_mul(LINE))?;
    put_families(&mut text, books, families)?;
    Ok(text)
}

// Puts the lines of these members. One is looked for where the one before it is.
#[tactic(auto, using(std::proofs::Common::append_assoc))]
fn put_persons(text: &mut Vec<u8>, books: &OpenBooks, members: &[Member]) -> Result<(), Memory>
    requires { IsLedger books.now.books.ledger }
    ensures { OnOk result (text.new.items ≡ text.old.items ++ person_lines books.now.books members.now) }
{
    let mut near = 0;
    for member in members {
        let (deductible, next) = deductible_near(books, near, &member.key);
        let line = MemberLine {
            member: *member,
            deductible,
        };
        put_member(text, &line)?;
        near = next;
    }
    Ok(())
}

// The deductible of a person so far, and the place after the one where the person is listed or would be. A person who isn't
// listed has none.
fn deductible_near(books: &OpenBooks, near: usize, key: &MemberKey) -> (u128, usize)
    requires { IsLedger books.now.books.ledger }
    ensures { result.0 ≡ deductible books.now.books.period books.now.books.ledger key.now.family key.now.person }
{
    match place_near(books.members(), near, key) {
        Ok(at) => (books.deductible_at(at), at.saturating_add(1)),
        Err(at) => (0, at),
    }
}

// Puts the total lines of these families.
#[tactic(auto, using(std::proofs::Common::append_assoc))]
fn put_families(text: &mut Vec<u8>, books: &OpenBooks, families: &[Family]) -> Result<(), Memory>
    requires { IsLedger books.now.books.ledger }
    ensures { OnOk result (text.new.items ≡ text.old.items ++ family_lines books.now.books families.now) }
{
    for family in families {
        put_total(text, &total_of(books, &family.id))?;
    }
    Ok(())
}

// The total line of a family. One that had no member has no claim.
fn total_of(books: &OpenBooks, family: &Id) -> TotalLine
    requires { IsLedger books.now.books.ledger }
    ensures { result ≡ total_of versions.Three books.now.books.period books.now.books.ledger family.now }
{
    match books.family_of(family) {
        Some(at) => TotalLine {
            family: *family,
            out_of_pocket: books.out_of_pocket_at(at),
            deductible: Some(books.family_deductible_at(at)),
        },
        None => TotalLine {
            family: *family,
            out_of_pocket: 0,
            deductible: Some(0),
        },
    }
}

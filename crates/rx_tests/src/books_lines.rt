// What no clause says: that lines of claims are lent from the text that was read.
use crate::same::same;
use crate::values::{TODAY, claim, key, member, this_year};
use rx_books_store::{Books, OpenBooks};
use rx_d0_values::Amounts;
use rx_fields::Key;
use rx_io::Pieces;
use rx_ledger::{Ledger, Row};
use std::alloc::Global;
use std::process::Abort;
use std::thread::Threads;

// The claim under a reference number, of this fee.
fn billed(rt: &impl Abort, reference: u64, dispensing_fee: u64) -> Row {
    let amounts = Amounts {
        ingredient_cost: 30_000,
        dispensing_fee,
        deductible: 100,
        copay: 30,
        coinsurance: 0,
    };
    let row = claim(rt, key(rt, reference, TODAY), b"C100", amounts, reference);
    row.expect(rt, "within the limits")
}

// The ledger of one member with this many claims.
fn ledger_of(rt: &impl Abort, alloc: Global, claims: u64) -> Ledger {
    let mut ledger = Ledger::new(alloc);
    let member = member(rt, b"C100", b"01", b"20261231");
    let added = ledger.add_member(member.expect(rt, "a member"));
    added.expect(rt, "a new member");
    for place in 0..claims {
        let reference = place.saturating_add(1).saturating_mul(10);
        let added = ledger.add_row(billed(rt, reference, 175));
        added.expect(rt, "a new row");
    }
    ledger
}

// The text of the books of a ledger, written anew.
fn written_anew(rt: &impl Abort, alloc: Global, ledger: &Ledger) -> Vec<u8> {
    let books = Books::from_ledger(alloc, ledger, this_year(rt)).expect(rt, "memory");
    books.write(alloc).expect(rt, "memory")
}

// Books that keep the text of this many claims, which they read in this many parts.
fn kept<R: Threads + Sync + Abort>(rt: &R, alloc: Global, parts: usize, claims: u64) -> Books {
    let text = written_anew(rt, alloc, &ledger_of(rt, alloc, claims));
    Books::read_kept(rt, alloc, parts, text).expect(rt, "books")
}

// Adds a claim.
fn add(rt: &impl Abort, books: &mut OpenBooks, row: Row) {
    let slot = books.slot_of(&row.key).expect(rt, "a slot");
    let is_free = books.row_at(slot).is_none();
    assert!(rt; is_free);
    let member = books.member_of(&row.family, &row.person);
    let family = books.family_of(&row.family).expect(rt, "a family");
    books.add(slot, family, member.expect(rt, "a member"), row);
}

// Takes out a claim.
fn take_out(rt: &impl Abort, books: &mut OpenBooks, key: &Key) {
    let slot = books.slot_of(key).expect(rt, "a slot");
    let is_taken = books.row_at(slot).is_some();
    assert!(rt; is_taken);
    let _row = books.remove(slot);
}

// The books, in which the claim under a reference number is replaced by one of another fee.
fn replaced_once(rt: &impl Abort, alloc: Global, books: Books, reference: u64) -> Books {
    let key = key(rt, reference, TODAY);
    let mut books = books.open(alloc, &[key]).expect(rt, "memory");
    take_out(rt, &mut books, &key);
    add(rt, &mut books, billed(rt, reference, 275));
    books.close()
}

// The books, in which these claims are replaced.
fn replaced(rt: &impl Abort, alloc: Global, books: Books, references: &[u64]) -> Books {
    let mut books = books;
    for reference in references {
        books = replaced_once(rt, alloc, books, *reference);
    }
    books
}

// Whether parts of another text are among the pieces of the text of books.
fn are_lent<R: Threads + Sync + Abort>(rt: &R, alloc: Global, books: &Books, parts: usize) -> bool {
    let pieces = books.write_pieces(rt, alloc, parts).expect(rt, "memory");
    match pieces {
        Pieces::Patched(_) => true,
        Pieces::Texts(_) => false,
    }
}

// Few claims are replaced; all are, which one thread lends, and several write anew.
#[test]
fn lines_of_a_text_that_is_kept_are_lent(rt: HostRuntime) {
    let alloc = rt.alloc();
    let books = replaced(&rt, alloc, kept(&rt, alloc, 1, 9), &[50]);
    same(&rt, are_lent(&rt, alloc, &books, 1), true);
    same(&rt, are_lent(&rt, alloc, &books, 3), true);
    let books = replaced(&rt, alloc, kept(&rt, alloc, 1, 2), &[10, 20]);
    same(&rt, are_lent(&rt, alloc, &books, 1), true);
    same(&rt, are_lent(&rt, alloc, &books, 3), false);
}

// The books, with one member more.
fn with_newcomer(rt: &impl Abort, alloc: Global, books: &Books) -> Books {
    let newcomer = member(rt, b"C150", b"01", b"20261231").expect(rt, "a member");
    let mut ledger = books.ledger(alloc).expect(rt, "memory");
    ledger.add_member(newcomer).expect(rt, "a new member");
    let (members, _) = ledger.into_lists();
    books.with_members(alloc, members).expect(rt, "memory")
}

#[test]
fn lines_are_lent_beside_a_new_member(rt: HostRuntime) {
    let alloc = rt.alloc();
    let books = with_newcomer(&rt, alloc, &kept(&rt, alloc, 1, 9));
    same(&rt, are_lent(&rt, alloc, &books, 1), true);
}

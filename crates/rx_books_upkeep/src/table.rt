//! A members table, read.
ghost use Rattle.std.specs.Prelude.{◌≡◌, [], IfOk, map};
ghost use Rattle.rx_books_text.specs.Printed.{line_feeds};
ghost use Rattle.rx_books_text.specs.TextReading.{lines};
ghost use Rattle.rx_books_upkeep.specs.Table.{headed, listed_at, member_added, member_at, row_read, rows_read, table_of};
ghost use Rattle.rx_books_upkeep.specs.TableAnswer.{Gives, Takes};

use crate::quick_table::read_readily;
use crate::table_fault::TableFault;
use crate::table_line::member_in;
use memchr::memchr;
use rx_fields::{MOST_LINES, Memory, Period};
use rx_ledger::{Member, MemberKey};
use rx_sorted::Ascending;
use std::alloc::Global;
use std::collections::BTreeMap;
use std::marker::Model;

/// What ends a line.
pub(crate) const LINE_FEED: u8 = b'\n';

/// The first line.
pub(crate) const HEADING: &[u8; 24] = b"family\tperson\tfirst\tlast";

/// Where a member is listed, and with which coverage.
#[derive(Clone, Copy)]
pub(crate) struct Listed {
    pub(crate) line: u64,
    pub(crate) coverage: Period,
}

// The members that are listed so far.
#[derive(Drop)]
struct Table {
    listed: BTreeMap<MemberKey, Listed>,
}

impl Model for Table {
    ghost use Rattle.rx_books_upkeep.specs.Table.{Entries};

    ghost Value = { Entries };

    ghost view = { λ t. t.listed.entries };
}

/// The members of a table, ascending by family and person, or its first fault (docs/FORMATS.md, "Members table").
pub fn read_members(alloc: Global, text: &[u8]) -> Result<Ascending<Member>, TableFault>
    ensures { Gives result (table_of text.now) }
{
    if line_feeds(text) > MOST_LINES {
        return Err(TableFault::TooMuch);
    }
    if let Some(list) = read_readily(alloc, text)? {
        return Ok(list);
    }
    let table = Table::read(alloc, text)?;
    Ok(table.members(alloc)?)
}

/// How many line feeds there are.
pub(crate) fn line_feeds(text: &[u8]) -> usize
    ensures { result ≡ line_feeds text.now }
{
    let mut found = 0;
    let mut rest = text;
    while let Some(end) = memchr(LINE_FEED, rest) {
        found += 1;
        rest = &rest[end + 1..];
    }
    found
}

impl Table {
    // The heading and the lines after it.
    fn read(alloc: Global, text: &[u8]) -> Result<Table, TableFault>
        ensures { Gives result (headed (lines text.now)) }
    {
        let Some(end) = memchr(LINE_FEED, text) else {
            return Err(TableFault::Heading);
        };
        if &text[..end] != HEADING.as_slice() {
            return Err(TableFault::Heading);
        }
        let mut table = Table {
            listed: BTreeMap::new(alloc),
        };
        table.read_rows(&text[end + 1..])?;
        Ok(table)
    }

    // Takes the lines after the heading.
    fn read_rows(&mut self, text: &[u8]) -> Result<(), TableFault>
        ensures { Takes result self.new (rows_read 2 self.old (lines text.now)) }
    {
        let mut number = 2;
        let mut rest = text;
        while let Some(end) = memchr(LINE_FEED, rest) {
            self.read_row(number, &rest[..end])?;
            number += 1;
            rest = &rest[end + 1..];
        }
        if !rest.is_empty() {
            return Err(TableFault::Unended(number));
        }
        Ok(())
    }

    // Takes the line of this number.
    #[tactic(auto, unfolding(crate::specs::Table::row_read))]
    fn read_row(&mut self, number: u64, line: &[u8]) -> Result<(), TableFault>
        ensures { Takes result self.new (row_read number self.old line.now) }
    {
        match member_in(line) {
            Ok(member) => self.add(number, member),
            Err(wrong) => Err(TableFault::Line(number, wrong)),
        }
    }

    // Takes the member of the line of this number.
    fn add(&mut self, number: u64, member: Member) -> Result<(), TableFault>
        ensures { Takes result self.new (member_added number self.old member (listed_at self.old member.key)) }
    {
        if let Some(earlier) = self.at(&member.key) {
            return Err(TableFault::Twice(number, earlier.line));
        }
        Ok(self.insert(number, member)?)
    }

    // Where the member is listed.
    fn at(&self, key: &MemberKey) -> Option<Listed>
        ensures { result ≡ listed_at self.now key.now }
    {
        self.listed.get(key).copied()
    }

    // Lists a member.
    fn insert(&mut self, number: u64, member: Member) -> Result<(), Memory>
        ensures { IfOk result (λ _. member_added number self.old member None ≡ Ok self.new) }
    {
        let listed = Listed {
            line: number,
            coverage: member.coverage,
        };
        self.listed.insert(member.key, listed)?;
        Ok(())
    }

    // The members that are listed, in order.
    fn members(&self, alloc: Global) -> Result<Ascending<Member>, Memory>
        ensures { IfOk result (λ list. list ≡ map member_at self.now) }
    {
        let mut list = Vec::with_capacity(alloc, self.listed.len())?;
        for (key, listed) in self.listed.iter() {
            list.push(Member {
                key: *key,
                coverage: listed.coverage,
            })?;
        }
        match Ascending::from_vec(list) {
            Ok(list) => Ok(list),
            Err(_) => unreachable!(),
        }
    }
}

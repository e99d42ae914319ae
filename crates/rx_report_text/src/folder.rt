ghost use Rattle.std.specs.Prelude.{◌≡◌, ◌++◌, IfOk, OnOk, codes, map};
ghost use Rattle.std.specs.List.{enumerate_from};
ghost use Rattle.rx_report_text.specs.Folder.{file_of, folder, index_text, leaf, leaves};
ghost use Rattle.rx_report_text.specs.Layouts.{page_name};
ghost use Rattle.rx_report_text.specs.Whole.{parts_of_page};

use crate::layout::{Layout, put_page_name};
use crate::origin::PageHead;
use crate::whole::put_page;
use crate::why::Whys;
use rx_fields::Memory;
use rx_print::Page;
use rx_report::{Account, Portion, Section};
use rx_settle::Tally;
use rx_sorted::Ascending;
use std::alloc::Global;

/// A page of a folder.
#[derive(Drop)]
pub struct PageFile {
    /// The name of its file: letters, digits and a point.
    pub name: Vec<u8>,
    /// The page.
    pub text: Vec<u8>,
}

/// The account of a portion of a batch as pages of a folder. `index.html` has the tables of an `explained_page`, and its rows
/// lead to the pages of the providers: `p1.html` is that of the first section, with its lines only, and leads back.
pub fn folder_pages(
    alloc: Global,
    head: &PageHead<'_>,
    account: &Account<'_>,
    portion: Portion<'_>,
    whys: &Whys,
) -> Result<Vec<PageFile>, Memory>
    ensures { IfOk result (λ pages. map file_of pages.items ≡ folder head.now portion.entry account.now whys.now) }
{
    let mut pages = Vec::new(alloc);
    pages.push(index_page(alloc, head, portion, account)?)?;
    put_leaves(alloc, &mut pages, head, portion, &account.sections, whys)?;
    Ok(pages)
}

fn index_page(
    alloc: Global,
    head: &PageHead<'_>,
    portion: Portion<'_>,
    account: &Account<'_>,
) -> Result<PageFile, Memory>
    ensures { IfOk result (λ file. file_of file ≡ (codes "index.html", index_text head.now portion.entry account.now)) }
{
    let none = Ascending::new(alloc);
    let (sections, total) = (account.sections.as_slice(), &account.total);
    let text = page_in(alloc, Layout::Index, head, portion, sections, total, &none)?;
    let name = Vec::from_slice(alloc, b"index.html")?;
    Ok(PageFile { name, text })
}

// The page of each section.
fn put_leaves(
    alloc: Global,
    pages: &mut Vec<PageFile>,
    head: &PageHead<'_>,
    portion: Portion<'_>,
    sections: &[Section<'_>],
    whys: &Whys,
) -> Result<(), Memory>
    ensures { OnOk result (map file_of pages.new.items
        ≡ map file_of pages.old.items ++ leaves head.now portion.entry whys.now (enumerate_from 0 sections.now)) }
{
    for (before, section) in sections.iter().enumerate() {
        pages.push(leaf_page(alloc, head, portion, before, section, whys)?)?;
    }
    Ok(())
}

fn leaf_page(
    alloc: Global,
    head: &PageHead<'_>,
    portion: Portion<'_>,
    before: usize,
    section: &Section<'_>,
    whys: &Whys,
) -> Result<PageFile, Memory>
    ensures { IfOk result (λ file. file_of file ≡ leaf head.now portion.entry whys.now before section.now) }
{
    let layout = Layout::Leaf(section.provider);
    let text = page_in(
        alloc,
        layout,
        head,
        portion,
        &[*section],
        &section.tally,
        whys,
    )?;
    let name = page_name(alloc, before)?;
    Ok(PageFile { name, text })
}

// The name of the page of the provider after this many.
fn page_name(alloc: Global, before: usize) -> Result<Vec<u8>, Memory>
    ensures { IfOk result (λ name. name.items ≡ page_name before) }
{
    let mut name = Page::new(alloc);
    put_page_name(&mut name, before);
    name.into_bytes()
}

fn page_in(
    alloc: Global,
    layout: Layout,
    head: &PageHead<'_>,
    portion: Portion<'_>,
    sections: &[Section<'_>],
    total: &Tally,
    whys: &Whys,
) -> Result<Vec<u8>, Memory>
    ensures { IfOk result (λ text. text.items
        ≡ parts_of_page layout head.now portion.entry sections.now total.now whys.now) }
{
    let mut page = Page::new(alloc);
    put_page(&mut page, layout, head, portion, sections, total, whys);
    page.into_bytes()
}

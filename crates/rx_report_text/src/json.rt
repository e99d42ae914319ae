ghost use Rattle.std.specs.Prelude.{◌≡◌, ◌++◌, ◌∷◌, [], IfOk};
ghost use Rattle.std.specs.List.{flat_map};
ghost use Rattle.rx_print.specs.Page.{Writes};
ghost use Rattle.rx_report.specs.Texts.{quoted};
ghost use Rattle.rx_report_text.specs.Json.{account_json, comma_section, counts_json, end_json, portion_json, provider_json};
ghost use Rattle.rx_report_text.specs.Json.{section_json, sections_json, tally_json};

use crate::money::put_net_cents;
use rx_fields::{Lot, Memory, Provider, Stamp};
use rx_print::Page;
use rx_report::{Account, Portion, Section, put_batch, put_lines_json, put_quoted};
use rx_settle::{Field, Tally};
use std::alloc::Global;

/// The account as a JSON object: which portion it is, a section for each provider with its counts, its net in cents and
/// its lines (`rx_report::put_lines_json`), the counts and the net of all, and the batch (`rx_report::put_batch`).
pub fn account_json(
    alloc: Global,
    lot: Lot,
    stamp: Option<Stamp>,
    portion: Portion<'_>,
    account: &Account<'_>,
) -> Result<Vec<u8>, Memory>
    ensures { IfOk result (λ text. text.items ≡ account_json lot stamp portion.entry account.now) }
{
    let mut page = Page::new(alloc);
    put_account(&mut page, lot, &stamp, portion, account);
    page.into_bytes()
}

fn put_account(
    page: &mut Page,
    lot: Lot,
    stamp: &Option<Stamp>,
    portion: Portion<'_>,
    account: &Account<'_>,
)
    ensures { Writes page.old page.new (account_json lot stamp.now portion.entry account.now) }
{
    page.put(b"{");
    put_portion(page, portion);
    page.put(b"\"sections\":[");
    put_sections(page, &account.sections);
    put_end(page, lot, stamp, &account.total);
}

// Whose lines they are, where they aren't all.
fn put_portion(page: &mut Page, portion: Portion<'_>)
    ensures { Writes page.old page.new (portion_json portion.entry) }
{
    match portion {
        Portion::Whole => {}
        Portion::Provider(id) => put_only(page, b"\"only_provider\":", id),
        Portion::Family(id) => put_only(page, b"\"only_family\":", id),
    }
}

fn put_only(page: &mut Page, name: &[u8], id: &[u8])
    ensures { Writes page.old page.new (name.now ++ (quoted id.now ++ 44 ∷ [])) }
{
    page.put(name);
    put_quoted(page, id);
    page.put(b",");
}

#[tactic(auto, using(std::proofs::Common::append_assoc), unfolding(crate::specs::Json::sections_json))]
fn put_sections(page: &mut Page, sections: &[Section<'_>])
    ensures { Writes page.old page.new (sections_json sections.now) }
{
    let [first, others @ ..] = sections else {
        return;
    };
    page.put(b"\n");
    put_section(page, first);
    put_others(page, others);
}

// Each section on a line of its own, after a comma.
fn put_others(page: &mut Page, sections: &[Section<'_>])
    ensures { Writes page.old page.new (flat_map comma_section sections.now) }
{
    for section in sections {
        page.put(b",\n");
        put_section(page, section);
    }
}

fn put_section(page: &mut Page, section: &Section<'_>)
    ensures { Writes page.old page.new (section_json section.now) }
{
    page.put(b"{\"provider\":");
    put_provider(page, &section.provider);
    page.put(b",");
    put_tally(page, &section.tally);
    page.put(b",\"lines\":");
    put_lines_json(page, section.lines);
    page.put(b"}");
}

// The end of the sections, the counts and the net of all, the batch, and the object's end.
fn put_end(page: &mut Page, lot: Lot, stamp: &Option<Stamp>, total: &Tally)
    ensures { Writes page.old page.new (end_json lot stamp.now total.now) }
{
    page.put(b"],\"total\":{");
    put_tally(page, total);
    page.put(b"},");
    put_batch(page, lot, stamp);
    page.put(b"}\n");
}

// The provider that a field names, or null.
fn put_provider(page: &mut Page, field: &Field)
    ensures { Writes page.old page.new (provider_json field.now) }
{
    match Provider::new(field) {
        Ok(provider) => put_quoted(page, provider.bytes()),
        Err(_) => page.put(b"null"),
    }
}

fn put_tally(page: &mut Page, tally: &Tally)
    ensures { Writes page.old page.new (tally_json tally.now) }
{
    put_counts(page, tally);
    put_net_cents(page, tally);
}

fn put_counts(page: &mut Page, tally: &Tally)
    ensures { Writes page.old page.new (counts_json tally.now) }
{
    page.put(b"\"paid\":");
    page.number(tally.paid);
    page.put(b",\"duplicate\":");
    page.number(tally.duplicate);
    page.put(b",\"approved\":");
    page.number(tally.approved);
    page.put(b",\"rejected\":");
    page.number(tally.rejected);
    page.put(b",\"net\":");
}

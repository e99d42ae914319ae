ghost use Rattle.std.specs.Prelude.{◌≡◌, ◌++◌, ◌∷◌, [], codes, IfOk};
ghost use Rattle.std.specs.Fmt.{decimal};
ghost use Rattle.std.specs.List.{flat_map, join_with_byte};
ghost use Rattle.rx_print.specs.Page.{Writes};
ghost use Rattle.rx_show.specs.Lines.{line};
ghost use Rattle.rx_show.specs.PlanLines.{after_blank, plan_lines, wave_lines};

use rx_fields::Memory;
use rx_print::Page;
use std::alloc::Global;

/// A line for each record with its place and its wave, then the number of waves, then the places of the chain
/// (docs/CLI.md, "plan"). Places and waves count from 1.
pub fn plan_lines(
    alloc: Global,
    numbers: &[usize],
    count: usize,
    chain: &[usize],
) -> Result<Vec<u8>, Memory>
    ensures { IfOk result (λ text. text.items ≡ plan_lines numbers.now count chain.now) }
{
    let mut page = Page::new(alloc);
    put_waves(&mut page, numbers);
    put_count(&mut page, count);
    put_chain(&mut page, chain);
    page.into_bytes()
}

// The line of each record.
fn put_waves(page: &mut Page, numbers: &[usize])
    ensures { Writes page.old page.new (wave_lines 1 numbers.now) }
{
    for (before, number) in numbers.iter().enumerate() {
        put_wave(page, before + 1, *number);
    }
}

// The line of the record at a place.
#[tactic(auto, using(std::proofs::Common::append_assoc))]
fn put_wave(page: &mut Page, place: usize, number: usize)
    ensures { Writes page.old page.new (line (decimal place ∷ decimal number ∷ [])) }
{
    page.number(place as u128);
    page.put(b" ");
    page.number(number as u128);
    page.put(b"\n");
}

// The line of the number of waves.
#[tactic(auto, using(std::proofs::Common::append_assoc))]
fn put_count(page: &mut Page, count: usize)
    ensures { Writes page.old page.new (line (codes "waves" ∷ decimal count ∷ [])) }
{
    page.put(b"waves ");
    page.number(count as u128);
    page.put(b"\n");
}

// The line of the chain.
#[tactic(auto, using(std::proofs::Common::append_assoc))]
fn put_chain(page: &mut Page, chain: &[usize])
    ensures { Writes page.old page.new (codes "chain" ++ flat_map after_blank chain.now ++ 10 ∷ []) }
{
    page.put(b"chain");
    put_members(page, chain);
    page.put(b"\n");
}

// Each place after a blank.
fn put_members(page: &mut Page, chain: &[usize])
    ensures { Writes page.old page.new (flat_map after_blank chain.now) }
{
    for place in chain {
        put_member(page, *place);
    }
}

#[tactic(auto, using(std::proofs::Common::append_assoc))]
fn put_member(page: &mut Page, place: usize)
    ensures { Writes page.old page.new (after_blank place) }
{
    page.put(b" ");
    page.number(place as u128);
}

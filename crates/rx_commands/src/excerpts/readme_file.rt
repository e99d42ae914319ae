//! What goes with an excerpt, for people.
ghost use Rattle.std.specs.Prelude.{◌≡◌, IfOk};
ghost use Rattle.rx_commands.specs.ExcerptReadme.{answer_words, commands_words, compared_words, front_words, readme_text};
ghost use Rattle.rx_print.specs.Page.{Writes};

use rx_explain_text::Compared;
use rx_fields::{Lot, Memory, digits_write};
use rx_print::{Page, Style};
use std::alloc::Global;

/// How the excerpt of the record at a place is run, the text with which the record has to be answered, and what a response
/// file has there, where one was given.
pub(crate) fn readme(
    alloc: Global,
    lot: Lot,
    place: u64,
    text: &[u8],
    compared: Option<Compared>,
) -> Result<Vec<u8>, Memory>
    ensures { IfOk result (λ readme. readme.items ≡ readme_text lot place text.now compared) }
{
    let mut page = Page::new(alloc);
    put_front(&mut page, lot, place);
    put_commands(&mut page, place);
    put_answer(&mut page, text);
    put_compared(&mut page, compared);
    page.into_bytes()
}

#[tactic(auto, using(std::proofs::Common::append_assoc), unfolding(crate::specs::ExcerptReadme::front_words))]
fn put_front(page: &mut Page, lot: Lot, place: u64)
    ensures { Writes page.old page.new (front_words lot place) }
{
    let number: [u8; 7] = digits_write(u64::from(lot.number()));
    page.say("Record ");
    page.number(u128::from(place));
    page.say(" of batch ");
    page.put(&number);
    page.say(
        ", with the members and claims of the families that it names, as they stood before it.\n",
    );
    page.say("The records before it are empty: each is rejected and changes nothing.\n\n");
}

#[tactic(auto, using(std::proofs::Common::append_assoc), unfolding(crate::specs::ExcerptReadme::commands_words))]
fn put_commands(page: &mut Page, place: u64)
    ensures { Writes page.old page.new (commands_words place) }
{
    page.say(
        "rxbatch run --sheet sheet.toml --books books.txt --batch batch.bin --response response.bin",
    );
    page.say(" --books-out books-after.txt --settlement settlement.txt\n");
    page.say("rxbatch explain --sheet sheet.toml --books books.txt --batch batch.bin --record ");
    page.number(u128::from(place));
    page.say("\n\n");
}

#[tactic(auto, using(std::proofs::Common::append_assoc), unfolding(crate::specs::ExcerptReadme::answer_words))]
fn put_answer(page: &mut Page, text: &[u8])
    ensures { Writes page.old page.new (answer_words text.now) }
{
    page.say("The answer to the record in response.bin has to be, after its reference:\n");
    page.escaped(Style::Terminal, text);
    page.say("\n");
}

#[tactic(auto, using(std::proofs::Common::append_assoc), unfolding(crate::specs::ExcerptReadme::compared_words))]
fn put_compared(page: &mut Page, compared: Option<Compared>)
    ensures { Writes page.old page.new (compared_words compared) }
{
    match compared {
        None => {}
        Some(Compared::Same) => page.say("\nThe response file has this very answer.\n"),
        Some(Compared::Differs) => page.say("\nThe response file has another answer.\n"),
        Some(Compared::Absent) => page.say("\nThe response file has no such record.\n"),
        Some(Compared::OtherBatch(_)) => page.say("\nThe response file answers another batch.\n"),
    }
}

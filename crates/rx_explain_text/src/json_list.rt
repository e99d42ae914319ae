ghost use Rattle.std.specs.Prelude.{◌≡◌, ◌++◌, List, OnOk, ℕ};
ghost use Rattle.std.specs.List.{flat_map};
ghost use Rattle.rx_explain_text.specs.Json.{after_comma, between_commas, code_json, decided_code, list_member, traced_json};
ghost use Rattle.rx_print.specs.Page.{Writes};

use crate::json::{put_code, put_decided_code, put_name, put_traced};
use rx_explain::Traced;
use rx_fields::Code;
use rx_print::Page;

// How items of a list are written.
pub(crate) trait Teller<T> {
    ghost json: { Self → T → List ℕ };

    // Puts an item.
    fn put(&self, page: &mut Page, item: &T)
        ensures { Writes page.old page.new (json self.now item.now) };
}

// Codes with their names.
pub(crate) struct Decided;

impl Teller<Code> for Decided {
    ghost json = { λ _ code. decided_code code };

    fn put(&self, page: &mut Page, code: &Code) {
        put_decided_code(page, *code);
    }
}

// Codes with what they say of a request.
#[derive(Drop)]
pub(crate) struct Spoken<'a> {
    pub(crate) request: &'a [u8],
    pub(crate) nth: u64,
}

impl Teller<Code> for Spoken<'_> {
    ghost json = { λ spoken code. code_json spoken.request.now spoken.nth code };

    fn put(&self, page: &mut Page, code: &Code) {
        put_code(page, *code, self.request, self.nth);
    }
}

// Standing claims, with where each comes from.
pub(crate) struct Standing;

impl Teller<Traced> for Standing {
    ghost json = { λ _ traced. traced_json traced };

    fn put(&self, page: &mut Page, traced: &Traced) {
        put_traced(page, traced);
    }
}

/// A list, in brackets, under its name.
#[tactic(auto, using(std::proofs::Common::append_assoc))]
pub(crate) fn put_list<T, W: Teller<T>>(page: &mut Page, name: &str, teller: &W, items: &[T])
    ensures { Writes page.old page.new (list_member name.now (W.json teller.now) items.now) }
{
    put_name(page, name);
    page.say("[");
    put_between(page, teller, items);
    page.say("]");
}

// The items, a comma between each two.
#[tactic(auto, using(std::proofs::Common::append_assoc))]
fn put_between<T, W: Teller<T>>(page: &mut Page, teller: &W, items: &[T])
    ensures { Writes page.old page.new (between_commas (W.json teller.now) items.now) }
{
    let [first, others @ ..] = items else {
        return;
    };
    teller.put(page, first);
    put_others(page, teller, others);
}

// The items, each after a comma.
fn put_others<T, W: Teller<T>>(page: &mut Page, teller: &W, items: &[T])
    ensures { Writes page.old page.new (flat_map (after_comma (W.json teller.now)) items.now) }
{
    for item in items {
        put_another(page, teller, item);
    }
}

#[tactic(auto, using(std::proofs::Common::append_assoc))]
fn put_another<T, W: Teller<T>>(page: &mut Page, teller: &W, item: &T)
    ensures { Writes page.old page.new (after_comma (W.json teller.now) item.now) }
{
    page.say(",");
    teller.put(page, item);
}

ghost use Rattle.std.specs.Prelude.{◌≡◌, ◌++◌, OnOk, codes, option_map};
ghost use Rattle.std.specs.Option.{unwrap_or};
ghost use Rattle.rx_explain_text.specs.Codes.{bytes_text, code_line, code_lines, in_quotes, named_code, own_text, value_text};
ghost use Rattle.rx_explain_text.specs.Codes.{expected_text};
ghost use Rattle.rx_explain_text.specs.RequestField.{field_number};
ghost use Rattle.rx_print.specs.Page.{Writes};

use crate::code_words::{expected, name};
use crate::request_field::{field_bytes, field_name};
use rx_d0_values::Codes;
use rx_fields::{Code, Door};
use rx_print::{Page, Style};

/// A line for each code of the nth transaction of a request, or of its header, where `nth` is 0: the field, its bytes and
/// what the table of codes expects.
pub(crate) fn put_codes(page: &mut Page, door: &Door, codes: &Codes, request: &[u8], nth: u64)
    ensures { Writes page.old page.new (code_lines door.now request.now nth codes.now) }
{
    for code in codes.as_slice() {
        put_code(page, door, *code, request, nth);
    }
}

#[tactic(auto, using(std::proofs::Common::append_assoc), unfolding(crate::specs::Codes::code_line))]
fn put_code(page: &mut Page, door: &Door, code: Code, request: &[u8], nth: u64)
    ensures { Writes page.old page.new (code_line door.now request.now nth code) }
{
    page.say("  ");
    put_named(page, code);
    page.say(": ");
    page.say(field_or_text(code));
    put_bytes(page, field_bytes(request, nth, code));
    put_expected(page, door, code);
}

// The field that a code speaks of, or the text as a whole.
fn field_or_text(code: Code) -> &'static str
    ensures { result.now ≡ unwrap_or (field_number code) (codes "the text") }
{
    match field_name(code) {
        Some(field) => field,
        None => "the text",
    }
}

#[tactic(auto, using(std::proofs::Common::append_assoc), unfolding(crate::specs::Codes::expected_text))]
fn put_expected(page: &mut Page, door: &Door, code: Code)
    ensures { Writes page.old page.new (expected_text door.now code) }
{
    page.say(", expected is ");
    page.say(expected(code));
    put_own(page, door, code);
    page.say("\n");
}

/// A code with its name.
#[tactic(auto, using(std::proofs::Common::append_assoc), unfolding(crate::specs::Codes::named_code))]
pub(crate) fn put_named(page: &mut Page, code: Code)
    ensures { Writes page.old page.new (named_code code) }
{
    page.put(&code.text());
    page.say(" ");
    page.say(name(code));
}

// The bytes of a field, or that it is absent.
#[tactic(auto, using(std::proofs::Common::append_assoc))]
fn put_bytes(page: &mut Page, bytes: Option<&[u8]>)
    ensures { Writes page.old page.new (bytes_text (option_map (λ b. b.now) bytes.entry)) }
{
    match bytes {
        Some(bytes) => {
            page.say(" is ");
            put_quoted(page, bytes)
        }
        None => page.say(" is absent"),
    }
}

/// Bytes of a file in quotes, as a terminal shows them.
#[tactic(auto, using(std::proofs::Common::append_assoc), unfolding(crate::specs::Codes::in_quotes))]
pub(crate) fn put_quoted(page: &mut Page, bytes: &[u8])
    ensures { Writes page.old page.new (in_quotes bytes.now) }
{
    page.say("\"");
    page.escaped(Style::Terminal, bytes);
    page.say("\"");
}

// The plan's own value, where the code expects that.
fn put_own(page: &mut Page, door: &Door, code: Code)
    ensures { Writes page.old page.new (own_text door.now code) }
{
    match code {
        Code::Bin => put_value(page, &door.bin),
        Code::ProcessorControlNumber => put_value(page, &door.pcn),
        _ => (),
    }
}

#[tactic(auto, using(std::proofs::Common::append_assoc), unfolding(crate::specs::Codes::value_text))]
fn put_value(page: &mut Page, bytes: &[u8])
    ensures { Writes page.old page.new (value_text bytes.now) }
{
    page.say(", ");
    put_quoted(page, bytes);
}

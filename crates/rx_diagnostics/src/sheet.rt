ghost use Rattle.std.specs.Prelude.{◌≡◌, ◌+◌, ◌++◌, ◌≤◌, [], IfOk, None, codes, count_by, length, option_map, string_bytes};
ghost use Rattle.std.specs.Result.{result_ok};
ghost use Rattle.std.specs.Str.{IsValidUpTo};
ghost use Rattle.toml.specs.Errors.{IsMemory, IsWithin};
ghost use Rattle.toml.specs.Parse.{parse_document};
ghost use Rattle.toml.specs.View.{table_view, view};
ghost use Rattle.rx_sheet.specs.SheetText.{tree_of};
ghost use Rattle.rx_sheet.specs.Names.{name_of};
ghost use Rattle.rx_diagnostics.specs.KnownKeys.{texts_of};
ghost use Rattle.rx_diagnostics.specs.Likeness.{nearest};
ghost use Rattle.rx_diagnostics.specs.Looks.{looks_like};
ghost use Rattle.rx_diagnostics.specs.SheetNames.{meant_text};
ghost use Rattle.rx_diagnostics.specs.SheetPlaces.{IsSheetPlace, sheet_place};
ghost use Rattle.rx_diagnostics.specs.SheetTexts.{missing_text, unread_sheet_text};
ghost use Rattle.rx_diagnostics.specs.SheetValues.{TellsDay, TellsDayText, TellsValue};
ghost use Rattle.rx_diagnostics.specs.SheetWords.{AreAfter, AreAt, AreOfWhole, TellsOfBytes, TellsOfKind, TellsOfReading, TellsOfSheet};
ghost use Rattle.rx_diagnostics.specs.SheetWords.{TellsWrong, TellsWrongIn, begins_character, comma_text, line_after};
ghost use Rattle.rx_diagnostics.specs.SheetWords.{meant_for, missing_in, missing_of};
ghost use Rattle.rx_diagnostics.specs.SheetWords.{place_after, unless_sheet};
ghost use Rattle.rx_diagnostics.specs.declared.place.Place.{Place};

use crate::likeness::nearest;
use crate::looks::looks_like;
use crate::place::{Place, front};
use crate::quoting::{from, line_feeds, line_of, quoted, said};
use crate::sheet_drugs::{drug_words, no_drug_key};
use crate::sheet_keys::{SHEET_KEYS, missing_key, name_of, wrong_key};
use crate::sheet_names::{meant_words, names_in};
use crate::sheet_places::place_in;
use crate::sheet_values::{backwards_words, expected_words, found, no_date, value_words};
use crate::words::Words;
use rx_fields::{Memory, date_read};
use rx_ledger::SheetKey;
use rx_sheet::SheetFault;
use rx_text::all_digits;
use std::alloc::{AllocError, Global};
use std::str::from_utf8;
use toml::{Table, Value};

/// The words of a fault of this plan sheet (docs/FORMATS.md, "Faults of a plan sheet"): key and value, or for a text
/// that is no TOML line and column.
///
/// # Errors
///
/// Only Memory.
pub fn sheet_words(alloc: Global, fault: SheetFault, text: &[u8]) -> Result<Words, Memory>
    ensures place { IfOk result (λ words. IsSheetPlace text.now fault words.place) }
    ensures said { IfOk result (TellsOfSheet text.now fault) }
{
    match fault {
        SheetFault::NotToml => not_toml(alloc, text),
        SheetFault::Missing(key) => at_key(alloc, fault, text, missing(alloc, key, text)?),
        SheetFault::Wrong(key) => at_key(alloc, fault, text, wrong(alloc, key, text)?),
        SheetFault::Memory => Ok(of_whole(said(alloc, "out of memory")?)),
    }
}

/// The words of a fault of a plan sheet that can't be read again.
///
/// # Errors
///
/// Only Memory.
pub fn unread_sheet_words(alloc: Global, fault: SheetFault) -> Result<Words, Memory>
    ensures place { IfOk result (λ words. words.place ≡ Place.Whole) }
    ensures text { IfOk result (λ words. string_bytes words.text ≡ unread_sheet_text fault) }
    ensures mend { IfOk result (λ words. words.mend.now ≡ []) }
{
    let text = unread_text(alloc, fault)?;
    Ok(of_whole(text))
}

// Words of the whole sheet, which no one step mends.
fn of_whole(said: String) -> Words
    ensures { AreOfWhole (string_bytes said) result }
{
    Words::new(Place::Whole, said)
}

// What is said where the text isn't known.
fn unread_text(alloc: Global, fault: SheetFault) -> Result<String, AllocError>
    ensures { IfOk result (λ said. string_bytes said ≡ unread_sheet_text fault) }
{
    match fault {
        SheetFault::NotToml => said(alloc, "not TOML"),
        SheetFault::Missing(key) => missing_key(alloc, key),
        SheetFault::Wrong(key) => wrong_key(alloc, key),
        SheetFault::Memory => said(alloc, "out of memory"),
    }
}

// The words of a text that is no TOML.
fn not_toml(alloc: Global, text: &[u8]) -> Result<Words, Memory>
    ensures { IfOk result (TellsOfKind text.now (unless_sheet (looks_like text.now))) }
{
    match other_kind(text) {
        Some(kind) => kind_words(alloc, kind),
        None => reading_words(alloc, text),
    }
}

// What the text looks like, unless like a sheet.
fn other_kind(text: &[u8]) -> Option<&'static str>
    ensures { option_map (λ kind. kind.now) result ≡ unless_sheet (looks_like text.now) }
{
    let kind = looks_like(text)?;
    if kind == "a plan sheet" {
        None
    } else {
        Some(kind)
    }
}

#[tactic(auto, using(std::proofs::Common::append_assoc))]
fn kind_words(alloc: Global, kind: &str) -> Result<Words, Memory>
    ensures { IfOk result (AreOfWhole (codes "not TOML: this looks like " ++ kind.now)) }
{
    Ok(of_whole(format!(in alloc; "not TOML: this looks like {kind}")?))
}

// The words of a text by the place up to which it can be read.
fn reading_words(alloc: Global, text: &[u8]) -> Result<Words, Memory>
    ensures { IfOk result (TellsOfKind text.now None) }
{
    match from_utf8(text) {
        Ok(text) => parse_words(alloc, text),
        Err(error) => encoding_words(alloc, text, error.valid_up_to()),
    }
}

// Writes a text in Latin-1 as UTF-8.
const TO_UTF8: &str =
    "sh -c 'iconv -f latin1 -t utf-8 \"$1\" > \"$1.new\" && mv \"$1.new\" \"$1\"' sh";

// The words of a text that isn't UTF-8 from a place on.
fn encoding_words(alloc: Global, text: &[u8], bytes: usize) -> Result<Words, Memory>
    requires { IsValidUpTo text.now bytes }
    ensures { IfOk result (TellsOfBytes text.now) }
{
    words_after(alloc, text, bytes, "not UTF-8", "", TO_UTF8)
}

// The words of a text that TOML's reader refuses.
fn parse_words(alloc: Global, text: &str) -> Result<Words, Memory>
    ensures { IfOk result (TellsOfReading text.now (parse_document text.now)) }
{
    match toml::table_from_str(alloc, text) {
        Ok(_) => Ok(of_whole(said(alloc, "not TOML")?)),
        Err(error) => refused_words(alloc, text.as_bytes(), &error),
    }
}

// The words of a text at which TOML's reader stopped.
#[tactic(auto, using(std::proofs::Common::append_assoc))]
fn refused_words(alloc: Global, text: &[u8], error: &toml::de::Error) -> Result<Words, Memory>
    requires { IsWithin text.now error.now }
    ensures read { IfOk result (λ _. ¬ IsMemory error.now) }
    ensures said { IfOk result (TellsOfReading text.now None) }
{
    let Some(span) = error.span() else {
        return Err(Memory);
    };
    let message = error.message();
    let message = format!(in alloc; "not TOML: {message}")?;
    let more = comma_words(from(text, span.start));
    words_after(alloc, text, span.start, message.as_str(), more, "")
}

// What is said of the comma of a number.
fn comma_words(rest: &[u8]) -> &'static str
    ensures { result.now ≡ comma_text rest.now }
{
    if rest.starts_with(b",") {
        ": a number has no comma"
    } else {
        ""
    }
}

// Words about the place after this many bytes, with its line.
#[tactic(auto, using(std::proofs::Common::append_assoc))]
fn words_after(
    alloc: Global,
    text: &[u8],
    bytes: usize,
    said: &str,
    more: &str,
    mend: &'static str,
) -> Result<Words, Memory>
    requires { bytes ≤ length text.now }
    ensures { IfOk result (AreAfter text.now bytes said.now more.now mend.now) }
{
    let line = quoted(alloc, line_of(text, line_after(text, bytes)))?;
    Ok(Words {
        place: place_after(text, bytes),
        text: format!(in alloc; "{said}: {line}{more}")?,
        mend,
    })
}

// The line and the column after this many bytes.
fn place_after(text: &[u8], bytes: usize) -> Place
    ensures { result ≡ place_after text.now bytes }
{
    let line = line_after(text, bytes);
    let column = characters(line_of(front(text, bytes), line)) as u64 + 1;
    Place::Column { line, column }
}

// The number of the line that goes on after this many bytes.
fn line_after(text: &[u8], bytes: usize) -> u64
    ensures { result ≡ line_after text.now bytes }
{
    line_feeds(front(text, bytes)) as u64 + 1
}

// How many characters begin in a text.
fn characters(bytes: &[u8]) -> usize
    ensures value { result ≡ count_by begins_character bytes.now }
    ensures few { result ≤ length bytes.now }
{
    bytes.iter().filter(|b| begins_character(**b)).count()
}

fn begins_character(byte: u8) -> bool
    ensures { result ≡ begins_character byte }
{
    byte & 0xC0 != 0x80
}

// What is said of a fault, at the line of the key that it is about.
fn at_key(alloc: Global, fault: SheetFault, text: &[u8], said: String) -> Result<Words, Memory>
    ensures { IfOk result (AreAt (sheet_place text.now fault) (string_bytes said)) }
{
    let place = place_of(alloc, fault, text)?;
    Ok(Words::new(place, said))
}

// Where a fault of a sheet stands.
#[tactic(auto, unfolding(crate::specs::SheetLines::line_of_key, crate::specs::SheetPlaces::sheet_place))]
fn place_of(alloc: Global, fault: SheetFault, text: &[u8]) -> Result<Place, Memory>
    ensures { IfOk result (λ place. place ≡ sheet_place text.now fault) }
{
    match tree_of(alloc, text)? {
        Some(sheet) => Ok(place_in(alloc, text, fault, &sheet)?),
        None => Ok(Place::Whole),
    }
}

// What is said of a key that isn't there.
fn missing(alloc: Global, key: SheetKey, text: &[u8]) -> Result<String, Memory>
    ensures { IfOk result (λ said. string_bytes said ≡ missing_of key text.now) }
{
    if text.is_empty() {
        let empty =
            "the file is empty: expected a plan sheet, which has a line as bin = \"900001\"";
        return Ok(said(alloc, empty)?);
    }
    let Some(sheet) = tree_of(alloc, text)? else {
        return Ok(missing_key(alloc, key)?);
    };
    Ok(missing_in(alloc, key, text, &sheet)?)
}

// What is said of a key that isn't in a sheet.
fn missing_in(
    alloc: Global,
    key: SheetKey,
    text: &[u8],
    sheet: &Table,
) -> Result<String, AllocError>
    ensures { IfOk result (λ said. string_bytes said ≡ missing_in text.now key (table_view sheet.now)) }
{
    match key {
        SheetKey::Tier | SheetKey::Price => no_drug_key(alloc, key, sheet),
        _ => missing_and_meant(alloc, key, text, sheet),
    }
}

// The same of a key of the sheet itself.
fn missing_and_meant(
    alloc: Global,
    key: SheetKey,
    text: &[u8],
    sheet: &Table,
) -> Result<String, AllocError>
    ensures { IfOk result (λ said.
        string_bytes said ≡ missing_text key ++ meant_for text.now key (table_view sheet.now)) }
{
    let meant = meant_in(alloc, key, text, sheet)?;
    let mut said = missing_key(alloc, key)?;
    said.push_str(meant.as_str())?;
    Ok(said)
}

// The key that may be meant by one that isn't in a sheet.
#[tactic(auto, unfolding(crate::specs::SheetWords::meant_for))]
fn meant_in(alloc: Global, key: SheetKey, text: &[u8], sheet: &Table) -> Result<String, AllocError>
    ensures { IfOk result (λ said. string_bytes said ≡ meant_for text.now key (table_view sheet.now)) }
{
    let others = names_in(alloc, sheet, &SHEET_KEYS)?;
    meant_among(alloc, key, text, others.as_slice())
}

// That of these names.
fn meant_among(
    alloc: Global,
    key: SheetKey,
    text: &[u8],
    others: &[&str],
) -> Result<String, AllocError>
    ensures { IfOk result (λ said. string_bytes said
        ≡ meant_text text.now (nearest (name_of key) (texts_of others.now))) }
{
    meant_words(alloc, text, nearest(name_of(key).as_bytes(), others))
}

// The table that the text stands for; None if it is no longer TOML.
#[tactic(auto, using(rx_sheet::proofs::Documents::document_read, rx_sheet::proofs::Documents::document_refused))]
fn tree_of(alloc: Global, text: &[u8]) -> Result<Option<Table>, Memory>
    ensures { IfOk result (λ tree. option_map table_view tree ≡ result_ok (tree_of text.now)) }
{
    match toml::table_from_slice(alloc, text) {
        Ok(tree) => Ok(Some(tree)),
        Err(error) if error.is_memory() => Err(Memory),
        Err(_) => Ok(None),
    }
}

// What is said of a value of another kind or outside its range.
fn wrong(alloc: Global, key: SheetKey, text: &[u8]) -> Result<String, Memory>
    ensures { IfOk result (λ said. TellsWrong key (tree_of text.now) (string_bytes said)) }
{
    match tree_of(alloc, text)? {
        Some(sheet) => wrong_in(alloc, key, &sheet),
        None => Ok(wrong_key(alloc, key)?),
    }
}

// What is said of it in a sheet.
fn wrong_in(alloc: Global, key: SheetKey, sheet: &Table) -> Result<String, Memory>
    ensures { IfOk result (λ said. TellsWrongIn key (table_view sheet.now) (string_bytes said)) }
{
    match key {
        SheetKey::Tiers | SheetKey::Drugs | SheetKey::Tier | SheetKey::Price => {
            Ok(drug_words(alloc, key, sheet)?)
        }
        SheetKey::PeriodFirst | SheetKey::PeriodLast => {
            let day = found(sheet, name_of(key));
            Ok(wrong_day(alloc, key, day, found(sheet, "period_first"))?)
        }
        _ => Ok(wrong_value(alloc, key, found(sheet, name_of(key)))?),
    }
}

// A value, and what is expected in its place.
fn wrong_value(alloc: Global, key: SheetKey, value: Option<&Value>) -> Result<String, AllocError>
    ensures { IfOk result (λ said. TellsValue key (option_map (λ v. view v.now) value.entry) (string_bytes said)) }
{
    match value {
        Some(value) => value_words(alloc, key, value),
        None => wrong_key(alloc, key),
    }
}

// A day that isn't written as a text, or a text that names no day.
fn wrong_day(
    alloc: Global,
    key: SheetKey,
    day: Option<&Value>,
    first: Option<&Value>,
) -> Result<String, AllocError>
    ensures { IfOk result (λ said. TellsDay key (option_map (λ v. view v.now) day.entry)
        (option_map (λ v. view v.now) first.entry) (string_bytes said)) }
{
    match day {
        Some(Value::String(day)) => day_words(alloc, key, day.as_str().as_bytes(), first),
        _ => wrong_value(alloc, key, day),
    }
}

// A text that is no date, or a last day before the first.
#[tactic(auto, unfolding(crate::specs::SheetValues::TellsDayText))]
fn day_words(
    alloc: Global,
    key: SheetKey,
    day: &[u8],
    first: Option<&Value>,
) -> Result<String, AllocError>
    ensures { IfOk result (λ said.
        TellsDayText key day.now (option_map (λ v. view v.now) first.entry) (string_bytes said)) }
{
    let shown = quoted(alloc, day)?;
    if day.len() != 8 || !all_digits(day) {
        return expected_words(alloc, key, &shown);
    }
    if date_read(day).is_err() {
        return no_date(alloc, key, &shown);
    }
    match first {
        Some(first) => backwards_words(alloc, key, &shown, first),
        None => expected_words(alloc, key, &shown),
    }
}

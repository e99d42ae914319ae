ghost use Rattle.std.specs.Prelude.{◌≡◌, IfSome};
ghost use Rattle.std.specs.Option.{option_copied};
ghost use Rattle.rx_commands.specs.Asked.{AsksFamily, AsksNumber, AsksProvider, AsksRecord, AsksReference, IsDigits, stamp_asked};
ghost use Rattle.rx_commands.specs.Asked.{stamp_or_fault};

use rx_explain::{At, Query};
use rx_fields::{Authorization, Provider, Reference, Stamp, trimmed};
use rx_report::Portion;
use rx_switch::SwitchFault;

// Nothing: no record is at place 0.
const NOTHING: Query = Query::Place(0);

/// What `--record` asks for: the record at a place, as `4`, or one transaction of it, as `4.2`. A text that is neither asks
/// for nothing.
pub fn record_asked(text: &str) -> Query
    ensures { AsksRecord text.now result }
{
    record_in(text).unwrap_or(NOTHING)
}

fn record_in(text: &str) -> Option<Query>
    ensures { IfSome result (AsksRecord text.now) }
{
    match text.split_once('.') {
        None => Some(Query::Place(digits(text)?)),
        Some((place, nth)) => Some(Query::One(At {
            place: digits(place)?,
            nth: digits(nth)?,
        })),
    }
}

/// What `--number` asks for: an authorization number. A text that is none asks for nothing.
pub fn number_asked(text: &str) -> Query
    ensures { AsksNumber text.now result }
{
    number_in(text).unwrap_or(NOTHING)
}

fn number_in(text: &str) -> Option<Query>
    ensures { IfSome result (AsksNumber text.now) }
{
    Some(Query::Number(Authorization::new(digits(text)?)?))
}

/// What `--rx` asks for: a prescription reference number, of one pharmacy where `--provider` names it. Texts that aren't
/// such ask for nothing.
pub fn reference_asked(text: &str, provider: Option<&str>) -> Query
    ensures { AsksReference text.now (option_copied provider.entry) result }
{
    reference_in(text, provider).unwrap_or(NOTHING)
}

fn reference_in(text: &str, provider: Option<&str>) -> Option<Query>
    ensures { IfSome result (AsksReference text.now (option_copied provider.entry)) }
{
    let reference = Reference::new(digits(text)?)?;
    match provider {
        None => Some(Query::Reference(reference)),
        Some(id) => {
            let provider = Provider::new(id.as_bytes()).ok()?;
            Some(Query::ReferenceAt(reference, provider))
        }
    }
}

/// What `--provider` asks a report for: the lines of a pharmacy. Blanks at the end of its ID don't count, as for `explain`; an
/// empty one is for all that name none.
pub fn provider_asked(id: &str) -> Portion<'_>
    ensures { AsksProvider id.now result }
{
    Portion::Provider(trimmed(id.as_bytes()))
}

/// What `--family` asks a report for: the lines of a family. Blanks at the end of its ID don't count.
pub fn family_asked(id: &str) -> Portion<'_>
    ensures { AsksFamily id.now result }
{
    Portion::Family(trimmed(id.as_bytes()))
}

/// The stamp that `--stamp` gives a report, if it stands.
///
/// # Errors
///
/// Stamp, where the text isn't the twelve digits of a date and a time: what a run refuses as its stamp.
pub fn stamp_asked(text: Option<&str>) -> Result<Option<Stamp>, SwitchFault>
    ensures { result ≡ stamp_asked (option_copied text.entry) }
{
    match text {
        None => Ok(None),
        Some(text) => stamp_or_fault(Stamp::new(text.as_bytes())),
    }
}

fn stamp_or_fault(stamp: Option<Stamp>) -> Result<Option<Stamp>, SwitchFault>
    ensures { result ≡ stamp_or_fault stamp }
{
    match stamp {
        None => Err(SwitchFault::Stamp),
        Some(stamp) => Ok(Some(stamp)),
    }
}

// A number that is written in digits only.
fn digits(text: &str) -> Option<u64>
    ensures { IfSome result (IsDigits text.now) }
{
    if matches!(text.as_bytes(), [b'+', ..]) {
        return None;
    }
    text.parse().ok()
}

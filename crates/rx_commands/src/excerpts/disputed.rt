//! The reply to a record, next to what a response file has at its place.
ghost use Rattle.std.specs.Prelude.{◌≡◌};
ghost use Rattle.std.specs.Option.{option_copied};
ghost use Rattle.rx_commands.specs.Compared.{is_detail};
ghost use Rattle.rx_commands.specs.Excerpts.{compared_in_file, compared_next_to};

use rx_batch::{Batch, Detail};
use rx_explain::item;
use rx_explain_text::Compared;
use rx_fields::Lot;

/// What a response file, if there is one, has at a place, next to the reply with this reference and this text to a record of
/// the lot there.
pub(crate) fn compared_next_to(
    lot: Lot,
    place: u64,
    reference: &[u8; 10],
    text: &[u8],
    file: Option<&Batch>,
) -> Option<Compared>
    ensures { result ≡ compared_next_to lot place reference.now text.now (option_copied file.entry) }
{
    match file {
        None => None,
        Some(file) => Some(compared(lot, place, reference, text, file)),
    }
}

// The same of a file.
fn compared(lot: Lot, place: u64, reference: &[u8; 10], text: &[u8], file: &Batch) -> Compared
    ensures { result ≡ compared_in_file lot place reference.now text.now file.now }
{
    let answered = file.head.lot();
    if answered.number() != lot.number() {
        return Compared::OtherBatch(answered);
    }
    let Some(detail) = item(file.details.as_slice(), place) else {
        return Compared::Absent;
    };
    if is_detail(reference, text, detail) {
        Compared::Same
    } else {
        Compared::Differs
    }
}

// Whether a detail has this reference and this text.
fn is_detail(reference: &[u8; 10], text: &[u8], detail: &Detail) -> bool
    ensures { result ≡ is_detail reference.now text.now detail.now }
{
    detail.reference == *reference && detail.text.bytes() == text
}

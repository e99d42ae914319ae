ghost use Rattle.std.specs.Prelude.{◌≡◌, ◌∷◌, [], IfNone, IfSome};
ghost use Rattle.rx_ledger.specs.Keys.{sheet_key_number};
ghost use Rattle.rx_switch.specs.Told.{refused};
ghost use Rattle.rx_check.specs.Numbered.{IsBatchNumbered, IsBooksNumbered, IsSheetNumbered, NoneNumbered};
ghost use Rattle.rx_check.specs.Numbered.{NoBatchNumbered, NoBooksNumbered, NoKeyNumbered, NoSheetNumbered};

use rx_batch::BatchFault;
use rx_books_text::BooksFault;
use rx_ledger::SheetKey;
use rx_sheet::SheetFault;
use rx_switch::SwitchFault;

/// The refusal that is reported as `refused N M P` with these numbers (docs/CLI.md, "Refusals"); None if no run reports them.
pub fn fault_numbered(kind: u64, within: u64, place: u64) -> Option<SwitchFault>
    ensures some { IfSome result (λ fault. (refused fault).numbers ≡ kind ∷ within ∷ place ∷ []) }
    ensures none { IfNone result (NoneNumbered kind within place) }
{
    match (kind, within, place) {
        (1, 0, 0) => Some(SwitchFault::Workers),
        (2, 0, 0) => Some(SwitchFault::Stamp),
        (3, _, _) => Some(SwitchFault::Sheet(sheet_numbered(within, place)?)),
        (4, _, _) => Some(SwitchFault::Books(books_numbered(within, place)?)),
        (5, _, _) => Some(SwitchFault::Batch(batch_numbered(within, place)?)),
        (6, 0, 0) => Some(SwitchFault::Memory),
        (7, 0, 0) => Some(SwitchFault::Thread),
        _ => None,
    }
}

fn sheet_numbered(within: u64, place: u64) -> Option<SheetFault>
    ensures some { IfSome result (IsSheetNumbered within place) }
    ensures none { IfNone result (NoSheetNumbered within place) }
{
    match (within, place) {
        (1, 0) => Some(SheetFault::NotToml),
        (2, number) => Some(SheetFault::Missing(key_numbered(number)?)),
        (3, number) => Some(SheetFault::Wrong(key_numbered(number)?)),
        _ => None,
    }
}

fn key_numbered(number: u64) -> Option<SheetKey>
    ensures some { IfSome result (λ key. sheet_key_number key ≡ number) }
    ensures none { IfNone result (NoKeyNumbered number) }
{
    Some(match number {
        1 => SheetKey::Bin,
        2 => SheetKey::Pcn,
        3 => SheetKey::PeriodFirst,
        4 => SheetKey::PeriodLast,
        5 => SheetKey::MemberDeductible,
        6 => SheetKey::FamilyMaximum,
        7 => SheetKey::RefillPercent,
        8 => SheetKey::MaxDays,
        9 => SheetKey::Fee,
        10 => SheetKey::Tiers,
        11 => SheetKey::Drugs,
        12 => SheetKey::Tier,
        13 => SheetKey::Price,
        14 => SheetKey::FamilyDeductible,
        _ => return None,
    })
}

fn books_numbered(within: u64, place: u64) -> Option<BooksFault>
    ensures some { IfSome result (IsBooksNumbered within place) }
    ensures none { IfNone result (NoBooksNumbered within place) }
{
    match (within, place) {
        (1, 0) => Some(BooksFault::Head),
        (2, line) => Some(BooksFault::Line(line)),
        (3, line) => Some(BooksFault::Order(line)),
        (4, line) => Some(BooksFault::UnknownMember(line)),
        (5, line) => Some(BooksFault::Totals(line)),
        (6, 0) => Some(BooksFault::TooMuch),
        _ => None,
    }
}

fn batch_numbered(within: u64, at: u64) -> Option<BatchFault>
    ensures some { IfSome result (IsBatchNumbered within at) }
    ensures none { IfNone result (NoBatchNumbered within at) }
{
    Some(match within {
        1 => BatchFault::Outside { at },
        2 => BatchFault::NoHeader { at },
        3 => BatchFault::HeaderShape { at },
        4 => BatchFault::Unclosed { at },
        5 => BatchFault::RecordKind { at },
        6 => BatchFault::DetailShape { at },
        7 => BatchFault::TrailerShape { at },
        8 => BatchFault::NoTrailer { at },
        9 => BatchFault::NumberDiffers { at },
        10 => BatchFault::CountDiffers { at },
        11 => BatchFault::AfterTrailer { at },
        12 => BatchFault::TooMuch { at },
        _ => return None,
    })
}

ghost use Rattle.std.specs.Prelude.{◌≡◌, ◌↔◌, ℕ, List, Ok, Err};
ghost use Rattle.rx_books_text.specs.Printed.{IsPrinted, PrintedParts, printed_text};
ghost use Rattle.rx_books_text.specs.TextFault.{HasFault};
ghost use Rattle.rx_books_text.specs.TextReading.{printed_of};
ghost use Rattle.rx_books_text.specs.declared.fault.BooksFault.{BooksFault};

/// What a text prints and what is read of it are one: it is read as these parts exactly where it is their one text, and
/// has a fault exactly where that fault follows the longest front of good lines. So no text prints two books, or books
/// and a fault, and each text does one of the two (docs/FORMATS.md, "Books file").
pub fn one_reading()
    ensures reads { (text : List ℕ) → (p : PrintedParts)
        → ((text ≡ printed_text p) × IsPrinted p) ↔ (printed_of text ≡ Ok p) }
    ensures refuses { (text : List ℕ) → (f : BooksFault) → HasFault text f ↔ (printed_of text ≡ Err f) }
{}

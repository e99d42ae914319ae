ghost use Rattle.std.specs.Prelude.{◌≡◌, ◌++◌, [], IfErr, IfOk, false, replicate, true};
ghost use Rattle.std.specs.Fmt.{decimal, signed_decimal};
ghost use Rattle.rx_fields.specs.Digits.{digits_text};
ghost use Rattle.rx_print.specs.CodeList.{code_list};
ghost use Rattle.rx_print.specs.Dates.{dashed};
ghost use Rattle.rx_print.specs.Decimal.{grouped};
ghost use Rattle.rx_print.specs.Escape.{escaped};
ghost use Rattle.rx_print.specs.Money.{money_text, price_text, right_in, signed_dollars, thousandths_text};
ghost use Rattle.rx_print.specs.Page.{Writes};
ghost use Rattle.rx_print.specs.Said.{said};

use crate::code_list::put_codes;
use crate::date::dashed_digits;
use crate::escape::put_escaped;
use crate::number::{put_amount, put_decimal, put_grouped, put_signed, put_signed_dollars};
use crate::style::Style;
use rx_d0_values::Codes;
use rx_fields::{Authorization, Day, Memory, date_write, digits_write};
use std::alloc::Global;

/// A text that is written from front to end. Once memory ran out, bytes are missing, and `into_bytes` gives the error.
#[derive(Drop)]
pub struct Page {
    alloc: Global,
    /// The bytes written so far.
    pub bytes: Vec<u8>,
    /// Whether bytes are missing, since memory ran out.
    pub lacks: bool,
}

impl Page {
    /// An empty text.
    pub fn new(alloc: Global) -> Page
        ensures bytes { result.bytes.items ≡ [] }
        ensures whole { result.lacks ≡ false }
    {
        Page {
            alloc,
            bytes: Vec::new(alloc),
            lacks: false,
        }
    }

    /// The allocator of its bytes.
    pub fn alloc(&self) -> Global {
        self.alloc
    }

    /// The bytes written.
    ///
    /// # Errors
    ///
    /// `Memory` where bytes are missing.
    pub fn into_bytes(self) -> Result<Vec<u8>, Memory>
        ensures bytes { IfOk result (λ bytes. (self.lacks ≡ false) × (bytes ≡ self.bytes)) }
        ensures refused { IfErr result (λ fault. self.lacks ≡ true) }
    {
        if self.lacks {
            return Err(Memory);
        }
        Ok(self.bytes)
    }

    /// Writes these bytes.
    pub fn put(&mut self, bytes: &[u8])
        ensures { Writes self.old self.new bytes.now }
    {
        self.lacks |= self.bytes.extend_from_slice(bytes).is_err();
    }

    /// Writes bytes of a file as this style has them.
    pub fn escaped(&mut self, style: Style, bytes: &[u8])
        ensures { Writes self.old self.new (escaped style bytes.now) }
    {
        self.lacks |= put_escaped(&mut self.bytes, style, bytes).is_err();
    }

    /// Writes words.
    #[tactic(auto, unfolding(crate::specs::Said::said))]
    pub fn say(&mut self, words: &str)
        ensures { Writes self.old self.new (said words.now) }
    {
        self.put(words.as_bytes());
    }

    /// Writes markup, which stands in the program.
    pub fn markup(&mut self, markup: &'static str)
        ensures { Writes self.old self.new markup.now }
    {
        self.put(markup.as_bytes());
    }

    /// Writes a number in decimal digits.
    pub fn number(&mut self, number: u128)
        ensures { Writes self.old self.new (decimal number) }
    {
        self.lacks |= put_decimal(&mut self.bytes, number).is_err();
    }

    /// Writes a number in decimal digits, after a minus where it is below zero.
    pub fn signed(&mut self, number: i128)
        ensures { Writes self.old self.new (signed_decimal number) }
    {
        self.lacks |= put_signed(&mut self.bytes, number).is_err();
    }

    /// Writes a number with a comma before each three digits from its end, as `1,980`.
    pub fn grouped(&mut self, number: u64)
        ensures { Writes self.old self.new (grouped number) }
    {
        self.lacks |= put_grouped(&mut self.bytes, number).is_err();
    }

    /// Writes an amount of cents as dollars and cents, as `$1,127.05`.
    #[tactic(auto, using(std::proofs::Common::append_assoc))]
    pub fn money(&mut self, cents: u128)
        ensures { Writes self.old self.new (money_text cents) }
    {
        self.put(b"$");
        self.lacks |= put_amount(&mut self.bytes, cents).is_err();
    }

    /// Writes an amount of cents as dollars and cents, after a minus where it is below zero, as `-171.75`.
    pub fn signed_dollars(&mut self, cents: i128)
        ensures { Writes self.old self.new (signed_dollars cents) }
    {
        self.lacks |= put_signed_dollars(&mut self.bytes, cents).is_err();
    }

    /// Writes an amount at the right end of a column of this width, in bytes.
    #[tactic(auto, using(std::proofs::Common::append_assoc))]
    pub fn column(&mut self, width: usize, cents: u128)
        ensures { Writes self.old self.new (right_in width (money_text cents)) }
    {
        let mut amount = Page::new(self.alloc);
        amount.money(cents);
        match amount.into_bytes() {
            Ok(amount) => {
                self.blanks(width.saturating_sub(amount.len()));
                self.put(&amount);
            }
            Err(Memory) => self.lacks = true,
        }
    }

    /// Writes this many blanks.
    pub fn blanks(&mut self, count: usize)
        ensures { Writes self.old self.new (replicate count 32) }
    {
        'blanks: for _ in 0..count {
            self.put(b" ");
        }
    }

    /// Writes a number of thousandths, as `30` or `0.500`.
    #[tactic(auto, using(std::proofs::Common::append_assoc))]
    pub fn thousandths(&mut self, number: u64)
        ensures { Writes self.old self.new (thousandths_text number) }
    {
        self.number(u128::from(number / 1000));
        if number % 1000 != 0 {
            let digits: [u8; 3] = digits_write(number % 1000);
            self.put(b".");
            self.put(&digits);
        }
    }

    /// Writes a price in hundredths of a cent as dollars, as `$9.50` or `$0.0375`.
    #[tactic(auto, using(std::proofs::Common::append_assoc))]
    pub fn price(&mut self, hundredths: u64)
        ensures { Writes self.old self.new (price_text hundredths) }
    {
        self.money(u128::from(hundredths / 100));
        if hundredths % 100 != 0 {
            let digits: [u8; 2] = digits_write(hundredths % 100);
            self.put(&digits);
        }
    }

    /// Writes reject codes with a comma between each two.
    pub fn codes(&mut self, codes: &Codes)
        ensures { Writes self.old self.new (code_list codes.now) }
    {
        self.lacks |= put_codes(&mut self.bytes, codes).is_err();
    }

    /// Writes an authorization number in its 15 digits.
    pub fn authorization(&mut self, number: Authorization)
        ensures { Writes self.old self.new (digits_text 15 number) }
    {
        let digits: [u8; 15] = digits_write(number.get());
        self.put(&digits);
    }

    /// Writes a day as `2026-03-05`.
    pub fn day(&mut self, day: Day)
        ensures { Writes self.old self.new (dashed day) }
    {
        self.put(&dashed_digits(date_write(day)));
    }
}

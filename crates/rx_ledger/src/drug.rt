ghost use Rattle.std.specs.Prelude.{◌≡◌};
ghost use Rattle.rx_ledger.specs.Plan.{is_drug};

use rx_fields::MOST_CENTS;

/// The largest price of a plan, in hundredths of a cent per unit.
pub const MOST_PRICE: u64 = 1_000_000_000;

/// What a member pays of a drug, besides the deductible.
#[derive(Clone, Copy, PartialEq, Eq)]
pub enum Share {
    /// A fixed copay, in cents: 0 to 99,999,999.
    Copay(u64),
    /// A percentage of what is left after the deductible: 0 to 100.
    Percent(u8),
}

/// What the plan says of a product.
#[derive(Clone, Copy, PartialEq, Eq)]
pub struct Drug {
    /// What the member pays.
    pub share: Share,
    /// The price, in hundredths of a cent per unit: 0 to 1,000,000,000.
    pub price: u64,
}

impl Drug {
    /// Whether price, copay and percentage are within their ranges.
    pub fn is_in_range(&self) -> bool
        ensures { result ≡ is_drug self.now }
    {
        let fits = match self.share {
            Share::Copay(cents) => cents <= MOST_CENTS,
            Share::Percent(percent) => percent <= 100,
        };
        fits && self.price <= MOST_PRICE
    }
}

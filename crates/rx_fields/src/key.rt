use crate::bounded::Reference;
use crate::day::Day;
use crate::short_id::Provider;

/// A fill key: what a standing claim is known by. Ordered by provider, then reference, then date
/// (docs/RULES.md, "Words").
#[derive(Clone, Copy, PartialEq, Eq, PartialOrd, Ord)]
pub struct Key {
    /// The pharmacy's id.
    pub provider: Provider,
    /// The prescription reference number.
    pub reference: Reference,
    /// The date of service.
    pub date: Day,
}

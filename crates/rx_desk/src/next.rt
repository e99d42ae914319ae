use rx_adjudicate::Order;

/// What a desk issues.
#[derive(Drop)]
pub enum Next {
    /// A record whose earlier sharers were all given, with its books. The desk keeps an equal order as out.
    Order(Order),
    /// Records are left, and each shares with an earlier one that wasn't given.
    Later,
    /// All records were taken.
    Over,
    /// Out of memory; nothing changed.
    Memory,
}

use crate::state::State;
use rx_adjudicate::Order;

/// What is left of an order that was taken back, and of the copy that the desk kept of it: nothing but memory.
#[derive(Drop)]
pub struct Remains {
    pub(crate) order: Order,
    pub(crate) state: State,
}

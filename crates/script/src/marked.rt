// What the fields of an order gave.

// A value, and whether the comma after it calls for another order.
// Stays: the value is there either way, so that no option says it, and an enum of two cases with one value is no plainer.
#[derive(Clone, Copy)]
pub(crate) struct Marked<T> {
    pub(crate) value: T,
    pub(crate) more: bool,
}

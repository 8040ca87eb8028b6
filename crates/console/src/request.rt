use crate::turn::Turn;
use wire::order::Order;

// A call at an open console, as a value.
pub enum Request<'a> {
    // opens again, over the console's own store as it was left
    Open,
    Tick(u32),
    Propose(Turn, &'a [Order]),
    Pass(Turn),
    Hear(&'a [u8]),
}

// A call at an open console that may bring new parts, as a value.
pub enum FullRequest<'a, S, B> {
    // opens again, over the console's own store as it was left, with these seals and this board
    OpenWith(S, B),
    // a call that keeps the console's seals and board
    Plain(Request<'a>),
}

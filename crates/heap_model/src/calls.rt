pub(crate) mod collect;
pub(crate) mod collector_calls;
pub(crate) mod laws;
pub(crate) mod seat_calls;

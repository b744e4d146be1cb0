//! Tests of plays, runs, crews and queues by their public calls, in a crate of their own, so that each library is proved once.
#![tactic(auto)]

#[cfg(test)]
mod tests;

//! Compare and swap: a cas puts its value in exactly where the cell is as its register was read.

use super::grown;
use std::test::Fail;

/// Entries on one field of the board, and whether each may stand after those above that may.
const ONE_FIELD: &[&str] = &[
    "0 num 1 5 = ok => legal",
    "1 num 1 6 = ok => legal",
    // The field is nil and was never set, as register 5 is; register 1 has another value.
    "0 cas 0 3 5 1 = now - => not legal",
    "0 cas 0 3 5 1 = was 0:1 => not legal",
    "0 cas 0 3 1 1 = was - => not legal",
    "0 cas 0 3 1 1 = now 0:1 => not legal",
    "0 cas 0 3 1 1 = now - => legal",
    "0 cas 0 3 5 1 = was - => legal",
    // Now it is so no longer.
    "1 cas 0 3 5 1 = was - => not legal",
    "1 cas 0 3 5 1 = was 0:1 => not legal",
    "1 cas 0 3 5 1 = now - => not legal",
    "1 cas 0 3 5 1 = now 0:1 => legal",
    "1 get 2 0 3 = number 5 at 0:1 => legal",
    // The same number, but read from no field.
    "1 num 3 5 = ok => legal",
    "1 cas 0 3 3 1 = was 0:1 => not legal",
    "1 cas 0 3 3 1 = now 0:1 => legal",
    "1 cas 0 3 2 1 = now 0:1 => not legal",
    "1 cas 0 3 2 1 = was 0:1 => legal",
    "1 get 4 0 3 = number 6 at 1:1 => legal",
    // The same number again, but under another stamp.
    "0 get 6 0 3 = number 6 at 1:1 => legal",
    "0 set 0 3 6 = was 1:1 => legal",
    "1 cas 0 3 4 1 = was 0:2 => not legal",
    "1 cas 0 3 4 1 = now 1:1 => not legal",
    "1 cas 0 3 4 1 = now 0:2 => legal",
    // What swaps nothing uses up no stamp.
    "1 set 0 4 1 = was - => legal",
    "1 get 7 0 4 = number 6 at 1:2 => legal",
];

#[test]
fn swaps_where_the_field_is_as_it_was_read(rt: HostRuntime) -> Result<(), Fail> {
    grown(&rt, ONE_FIELD)?;
    Ok(())
}

/// Entries where register 1 is nil and register 2 has a record of two fields.
const REFUSED: &[&str] = &[
    "0 new 2 2 = 0.0 => legal",
    "0 cas 1 0 5 2 = was - => not legal",
    "0 cas 1 0 5 2 = no field => not legal",
    "0 cas 1 4096 5 2 = no object => legal",
    "0 cas 2 2 5 2 = now - => not legal",
    "0 cas 2 2 5 2 = no object => not legal",
    "0 cas 2 2 5 2 = no field => legal",
    "0 cas 2 1 5 2 = no field => not legal",
    // An object is put in as well as a number, each under its stamp.
    "0 cas 2 1 5 2 = was - => legal",
    "0 cas 0 0 5 2 = was - => legal",
    "0 cas 0 1 5 2 = was - => legal",
    "0 get 7 0 1 = object 0.0 at 0:3 => legal",
];

#[test]
fn refuses_a_cas_as_a_set(rt: HostRuntime) -> Result<(), Fail> {
    grown(&rt, REFUSED)?;
    Ok(())
}

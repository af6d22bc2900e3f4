mod applications;
mod bytes;
mod keys;
mod messages;
mod statistics;
mod streams;

use of_types::ByteList;

/// Tells whether a list has these bytes.
fn has_bytes(list: ByteList, bytes: &[u8]) -> bool {
    let is_same = list.as_slice() == bytes;
    drop(list);
    is_same
}

mod cache;
mod lists;
mod netlog;
mod policy;
mod shadows;
mod store;
mod words;

use of_match::{Key, Match};

/// The key of all packets at priority 7.
fn key() -> Key {
    Key {
        priority: 7,
        matching: Match::any(),
    }
}

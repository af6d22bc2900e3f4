//! What has the key of a flow entry.

ghost use Rattle.std.specs.Prelude.{◌≡◌};
ghost use Rattle.of_match.specs.declared.key.Key.{Key};

use flow_table::{Lost, ViewRow};
use of_match::Key;
use of_stats::FlowRow;

/// A row of a flow entry, with its key.
pub trait Keyed {
    // The key.
    ghost key_of: { Self → Key };

    /// Lends the key; takes no memory.
    fn key(&self) -> &Key
        ensures { result.now ≡ key_of self.now };
}

impl Keyed for ViewRow {
    ghost key_of = { λ r. r.key };

    fn key(&self) -> &Key {
        &self.key
    }
}

impl Keyed for FlowRow {
    ghost key_of = { λ f. f.key };

    fn key(&self) -> &Key {
        &self.key
    }
}

impl Keyed for (Key, Lost) {
    ghost key_of = { λ c. c.0 };

    fn key(&self) -> &Key {
        &self.0
    }
}

//! What an entry has lost that was removed and added again.

ghost use Rattle.std.specs.Prelude.{◌≡◌, List};
ghost use Rattle.of_match.specs.declared.key.Key.{Key};
ghost use Rattle.flow_table.specs.declared.lost.Lost.{Lost};
ghost use Rattle.flow_table.specs.Corrected.{lost_at};

use of_match::Key;

/// What an entry that was removed and added again has lost: a switch counts it from 0, as a new one.
#[derive(Clone, Copy, Debug, PartialEq, Eq)]
pub struct Lost {
    /// How many packets it had counted.
    pub packets: u64,
    /// How many bytes those packets had.
    pub bytes: u64,
    /// How many seconds it had stood.
    pub age: u64,
    /// The hard timeout with which it was asked for, in seconds; 0: none.
    pub hard: u16,
}

/// Rows of what entries have lost, each with the key of its entry.
pub trait LostRows {
    // The rows; the first one of a key counts.
    ghost rows: { Self → List (Key × Lost) };

    /// Gives what the entry of a key has lost, `None` where no row has the key; takes no memory.
    fn get(&self, key: &Key) -> Option<Lost>
        ensures { result ≡ lost_at key.now (rows self.now) };
}

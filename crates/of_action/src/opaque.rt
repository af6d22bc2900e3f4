//! What stands in a vendor's action.

ghost use Rattle.std.specs.Prelude.{◌≡◌};

use of_types::ByteList;
use std::cmp::{Eq, PartialEq};
use std::marker::Model;

/// The bytes after the four-byte head of a vendor's action, its vendor number of four bytes first (OpenFlow
/// 1.0.0, 5.2.4 Flow Action Structures). Contracts see the list of their values.
#[derive(Drop, Debug, Clone)]
pub struct Opaque {
    body: ByteList,
}

impl Model for Opaque {
    ghost use Rattle.std.specs.Prelude.{List, ℕ};

    ghost Value = { List ℕ };

    ghost view = { λ s. s.body };
}

impl Opaque {
    /// Takes an action's bytes after its head; takes no memory.
    pub fn from_list(body: ByteList) -> Opaque
        ensures { result ≡ body }
    {
        Opaque { body }
    }

    /// Gives the bytes back; takes no memory.
    pub fn into_list(self) -> ByteList
        ensures { result ≡ self }
    {
        self.body
    }

    /// Lends the bytes as a slice.
    pub fn as_slice(&self) -> &[u8]
        ensures { result.now ≡ self.now }
    {
        self.body.as_slice()
    }
}

impl PartialEq for Opaque {
    ghost use Rattle.std.specs.Prelude.{nat_eq};
    ghost use Rattle.std.specs.Cmp.Lexicographic.{pointwise};
    ghost use Rattle.std.specs.Cmp.Rules.{comparing};
    ghost use Rattle.std.proofs.Common.{rules};

    ghost eq = { λ x y. pointwise nat_eq x y };

    ghost laws = { Prim.search (comparing, rules) };

    fn eq(&self, other: &Opaque) -> bool {
        self.body == other.body
    }
}

impl Eq for Opaque {
    ghost use Rattle.std.specs.Cmp.Rules.{comparing};
    ghost use Rattle.std.proofs.Common.{rules};

    ghost laws = { Prim.search (comparing, rules) };
}

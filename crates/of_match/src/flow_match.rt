//! A match in its normal form.

ghost use Rattle.of_match.specs.Fields.{IsNormal};

use crate::codec::{read_fields, wildcards, write_fields};
use crate::fields::Fields;

/// A flow match, kept as the 40 bytes of its normal form (OpenFlow 1.0.0, 5.2.3).
///
/// Its order is that of the 40 bytes.
#[derive(Clone, Copy, Debug, PartialEq, Eq, PartialOrd, Ord, Hash)]
pub struct Match {
    bytes: [u8; 40],
    pub ghost normal: { IsNormal bytes },
}

impl Match {
    ghost use Rattle.std.specs.Prelude.{◌≡◌};
    ghost use Rattle.of_match.specs.Fields.{bytes_of, IsFields, HasPrefixes, normal_fields, any_fields, is_exact};
    ghost use Rattle.of_match.specs.Match.{match_of, fields_in};

    /// Makes the match with the given fields, whose prefixes are 1 to 32 bits long.
    ///
    /// The bits of an address that its prefix ignores are cleared.
    #[tactic(auto, unfolding(crate::specs::Match::match_of))]
    pub fn new(fields: &Fields) -> Match
        requires { HasPrefixes fields.now }
        ensures fields { fields_in result ≡ normal_fields fields.now }
        ensures value { result ≡ match_of (bytes_of fields.now) }
    {
        Match {
            bytes: write_fields(*fields),
        }
    }

    /// Makes the match of every packet: each field is any.
    pub fn any() -> Match
        ensures fields { fields_in result ≡ any_fields }
        ensures value { result ≡ match_of (bytes_of any_fields) }
    {
        Match::new(&Fields::ANY)
    }

    /// Reads the match that 40 bytes of the wire stand for; any bytes do.
    ///
    /// Ignored bits, pads and the wildcard bits above 21 count for nothing.
    #[tactic(auto, unfolding(crate::specs::Match::match_of))]
    pub fn decode(bytes: &[u8; 40]) -> Match
        ensures { result ≡ match_of bytes.now }
    {
        Match {
            bytes: write_fields(read_fields(bytes)),
        }
    }

    /// Writes the 40 bytes of the normal form.
    #[tactic(auto, unfolding(crate::specs::Match::fields_in))]
    pub fn encode(&self) -> [u8; 40]
        ensures normal { result ≡ bytes_of (fields_in self.now) }
        ensures kept { result ≡ self.now.bytes }
    {
        self.bytes
    }

    /// Reads the twelve fields.
    #[tactic(auto, unfolding(crate::specs::Match::fields_in))]
    pub fn fields(&self) -> Fields
        ensures value { result ≡ fields_in self.now }
        ensures within { IsFields result }
    {
        read_fields(&self.bytes)
    }

    /// Tells whether no bit of the wildcards is set (OpenFlow 1.0.0, 3.4): no field is any, and the prefixes
    /// are whole addresses.
    pub fn is_exact(&self) -> bool
        ensures { result ≡ is_exact (fields_in self.now) }
    {
        wildcards(self.fields()) == 0
    }
}

//! Flow matches of OpenFlow 1.0.0 in normal form: twelve fields, 40 bytes, a text, and the keys of flow entries.
//!
//! `Match::decode` and `Match::encode` are the normal form (`normal`, `kept`); `Match::new`, `Match::fields` (`value`,
//! `within`) and `text` are exact. `covers` says of each packet key whether the match covers it (`covers`, `value`).
//! Laws: `decode_after_encode`, `fields_of_matches`, `one_normal_form`, `numbers_of_keys`.
#![tactic(auto)]

mod codec;
mod covering;
mod fields;
mod flow_match;
mod key;
mod laws;
mod packet_key;
mod printing;

pub use covering::covers;
pub use fields::Fields;
pub use flow_match::Match;
pub use key::Key;
pub use laws::{decode_after_encode, fields_of_matches, numbers_of_keys, one_normal_form};
pub use packet_key::PacketKey;
pub use printing::text;

//! Messages of OpenFlow 1.0 as values and as bytes.
//!
//! `decode` answers Ok exactly on the grammar, else the first fault by one stated order (`exact`, `found`, `only`);
//! `check` answers the same without memory. `encode`, `encode_into` and `size` are the one spelling. Matches are in
//! normal form. Laws: `decode_after_encode`, `one_reading`, `encode_after_decode`. See docs/WIRE.md.
#![tactic(auto)]

mod bodies;
mod checking;
mod fault;
mod front;
mod kind;
mod laws;
mod message;
mod port_list;
mod reading;
mod writing;

pub use bodies::{
    FeaturesReply, FlowMod, FlowRemoved, PacketIn, PacketOut, PortMod, PortStatus, Stats,
    SwitchConfig,
};
pub use checking::check;
pub use fault::WireFault;
pub use kind::MessageKind;
pub use laws::{decode_after_encode, encode_after_decode, one_reading};
pub use message::{Envelope, Message};
pub use port_list::PortList;
pub use reading::decode;
pub use writing::{encode, encode_into, size};

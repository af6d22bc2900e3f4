//! The plain words that all OpenFlow 1.0 crates share: constants, errors, ports, numbers in bytes, lists of bytes, and
//! acts.
//!
//! `get_u16`, `put_u16` and their kin read and write exactly the field at its offset, and change no other byte (`field`,
//! `front`). `ByteList` is seen as a list of bytes. Laws: `laws_of_fields`, `law_of_layouts`.
#![tactic(auto)]

pub mod actions;
mod byte_list;
pub mod errors;
mod fields;
pub mod flows;
mod journal;
pub mod kinds;
pub mod limits;
mod port_desc;
pub mod ports;
pub mod stats;

pub use byte_list::ByteList;
pub use errors::OfError;
pub use fields::{
    get_array, get_u8, get_u16, get_u32, get_u64, law_of_layouts, laws_of_fields, put_array,
    put_bytes, put_u8, put_u16, put_u32, put_u64,
};
pub use journal::{Act, PortChange, Stimulus, TookWhat, WorldStim};
pub use port_desc::PortDesc;

/// A switch's number (OpenFlow 1.0.0, 5.3.1 Handshake: `datapath_id`).
pub type Dpid = u64;

/// A port's number on its switch (OpenFlow 1.0.0, 5.2.1 Port Structures).
pub type PortNo = u16;

/// What ties an answer to its request (OpenFlow 1.0.0, 5.1 OpenFlow Header: `xid`).
pub type Xid = u32;

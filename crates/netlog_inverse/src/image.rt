//! Images: what stood in one place of a switch before it was touched.

use flow_table::{Lost, ViewRow};
use of_match::Key;
use of_types::{ByteList, Dpid, PortNo};

/// What stands in the owner's view and in the cache once an image is played.
#[derive(Drop, Debug, PartialEq, Eq)]
pub enum PutBack {
    /// The row of a key, `None` where nothing stood there, and what the cache holds of the key.
    Row {
        key: Key,
        row: Option<ViewRow>,
        lost: Option<Lost>,
    },
    /// The config of a port.
    Config {
        port: PortNo,
        config: u32,
    },
    /// The configuration of a switch.
    Settings {
        flags: u16,
        miss_send_len: u16,
    },
}

/// What stood in one place of a switch before it was touched, and the messages that put it back, encoded.
///
/// A message that is never sent is empty. In the image of a port or a configuration `add` holds the one message.
#[derive(Drop, Debug, PartialEq, Eq)]
pub struct Image {
    /// What the place holds of it again.
    pub put: PutBack,
    /// The DELETE_STRICT of a key at which nothing stood.
    pub delete: ByteList,
    /// The MODIFY_STRICT of an entry, with its actions and its cookie.
    pub modify: ByteList,
    /// The ADD of an entry, with what is left of its hard timeout.
    pub add: ByteList,
    /// Whether the entry that stands at the key now stands for the one of the image.
    pub stands: bool,
}

/// What undoes one change: an image of each place that it touches.
#[derive(Drop, Debug)]
pub struct Inverse {
    /// The images, in key order.
    pub images: Vec<Image>,
}

/// An image of a place of one switch.
#[derive(Drop, Debug, PartialEq, Eq)]
pub struct Logged {
    /// The switch's number.
    pub dpid: Dpid,
    /// What stood there.
    pub image: Image,
}

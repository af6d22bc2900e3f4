//! What a guard finds in tables.

/// What a guard found first in the tables of a network.
#[derive(Clone, Copy, Debug, PartialEq, Eq)]
pub enum Found {
    /// A row that changes packets on their way to a link: so they need not be those that the next switch is asked about.
    Edit {
        /// The switch.
        dpid: u64,
        /// The row's place in the switch's table, counted from 0.
        position: usize,
    },
    /// A place that packets may come back to.
    Loop {
        /// The address of the packets as a number; `None` is any address that no row names.
        value: Option<u64>,
        /// The switch.
        dpid: u64,
        /// The port at which they come in.
        port: u16,
    },
}

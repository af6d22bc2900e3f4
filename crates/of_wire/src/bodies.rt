//! What stands behind a message's header, where it is more than bytes.

use crate::port_list::PortList;
use of_action::ActionList;
use of_match::Match;
use of_types::{ByteList, Dpid, PortDesc, PortNo};

/// What a switch is and can (OpenFlow 1.0.0, 5.3.1 Handshake).
#[derive(Drop, Debug, Clone, PartialEq, Eq)]
pub struct FeaturesReply {
    /// The switch's number, which the standard calls `datapath_id`.
    pub dpid: Dpid,
    /// How many packets the switch can keep.
    pub n_buffers: u32,
    /// How many tables it has.
    pub n_tables: u8,
    /// Bits of what it can.
    pub capabilities: u32,
    /// Bits of the actions that it knows, each by the number of its type.
    pub actions: u32,
    /// Its ports, 48 bytes each.
    pub ports: PortList,
}

/// A switch's configuration (OpenFlow 1.0.0, 5.3.2 Switch Configuration).
#[derive(Clone, Copy, Debug, PartialEq, Eq)]
pub struct SwitchConfig {
    /// What becomes of fragments: 0 for nothing special.
    pub flags: u16,
    /// How many bytes of a packet without a flow are sent to the controller.
    pub miss_send_len: u16,
}

/// A packet that a switch sends (OpenFlow 1.0.0, 5.4.1 Packet-In Message).
#[derive(Drop, Debug, Clone, PartialEq, Eq)]
pub struct PacketIn {
    /// The number by which the switch keeps the packet, or NO_BUFFER.
    pub buffer_id: u32,
    /// How many bytes the packet has.
    pub total_len: u16,
    /// The port that it came in by.
    pub in_port: PortNo,
    /// NO_MATCH 0 or ACTION 1.
    pub reason: u8,
    /// The packet, or a front of it, from the Ethernet header on.
    pub payload: ByteList,
}

/// A flow that is gone (OpenFlow 1.0.0, 5.4.2 Flow Removed Message).
#[derive(Clone, Copy, Debug, PartialEq, Eq)]
pub struct FlowRemoved {
    /// The flow's match, in its normal form.
    pub matching: Match,
    /// The number that the controller gave the flow.
    pub cookie: u64,
    /// The flow's priority.
    pub priority: u16,
    /// IDLE_TIMEOUT 0, HARD_TIMEOUT 1 or DELETE 2.
    pub reason: u8,
    /// How many whole seconds the flow stood.
    pub duration_sec: u32,
    /// How many nanoseconds it stood beyond those.
    pub duration_nsec: u32,
    /// After how many seconds without a packet it goes; 0 for never.
    pub idle_timeout: u16,
    /// How many packets it counted.
    pub packet_count: u64,
    /// How many bytes it counted.
    pub byte_count: u64,
}

/// A port that came, went or changed (OpenFlow 1.0.0, 5.4.3 Port Status Message).
#[derive(Clone, Copy, Debug, PartialEq, Eq)]
pub struct PortStatus {
    /// ADD 0, DELETE 1 or MODIFY 2.
    pub reason: u8,
    /// The port as it is now; as it was, where it went.
    pub port: PortDesc,
}

/// A packet that a switch is to send (OpenFlow 1.0.0, 5.3.6 Send Packet Message).
#[derive(Drop, Debug, Clone, PartialEq, Eq)]
pub struct PacketOut {
    /// The number by which the switch keeps the packet, or NO_BUFFER.
    pub buffer_id: u32,
    /// The port that the packet came in by, or NONE.
    pub in_port: PortNo,
    /// What is done to the packet.
    pub actions: ActionList,
    /// The packet from the Ethernet header on; empty where the switch keeps it.
    pub payload: ByteList,
}

/// A change of the flow table (OpenFlow 1.0.0, 5.3.3 Modify State Messages). Timeouts are in seconds.
#[derive(Drop, Debug, Clone, PartialEq, Eq)]
pub struct FlowMod {
    /// Which packets the flow takes, or which flows are meant.
    pub matching: Match,
    /// The number that the controller gives the flow.
    pub cookie: u64,
    /// ADD 0, MODIFY 1, MODIFY_STRICT 2, DELETE 3 or DELETE_STRICT 4.
    pub command: u16,
    /// After how many seconds without a packet the flow goes; 0 for never.
    pub idle: u16,
    /// After how many seconds the flow goes; 0 for never.
    pub hard: u16,
    /// The flow's priority; a greater one wins.
    pub priority: u16,
    /// The number of a kept packet that the actions are done to, or NO_BUFFER.
    pub buffer_id: u32,
    /// A DELETE means flows that send there alone; NONE for all.
    pub out_port: PortNo,
    /// Bits: SEND_FLOW_REM 1, CHECK_OVERLAP 2, EMERG 4.
    pub flags: u16,
    /// What is done to the flow's packets.
    pub actions: ActionList,
}

/// A change of a port (OpenFlow 1.0.0, 5.3.3 Modify State Messages).
#[derive(Clone, Copy, Debug, PartialEq, Eq)]
pub struct PortMod {
    /// The port's number.
    pub port_no: PortNo,
    /// Its Ethernet address, to be sure which port is meant.
    pub hw_addr: [u8; 6],
    /// The bits that are wanted, of those in the mask.
    pub config: u32,
    /// The bits of the config that change.
    pub mask: u32,
    /// Bits of the features that the port advertises; 0 for no change.
    pub advertise: u32,
}

/// A request for statistics or a part of the reply (OpenFlow 1.0.0, 5.3.5 Read State Messages); `kind` is
/// what the standard calls the type.
#[derive(Drop, Debug, Clone, PartialEq, Eq)]
pub struct Stats {
    /// DESC 0, FLOW 1, AGGREGATE 2, TABLE 3, PORT 4, or another one.
    pub kind: u16,
    /// Of a reply MORE 1, where more parts follow; of a request 0.
    pub flags: u16,
    /// What stands behind the 12 bytes in front, as it is; `of_stats` reads and writes it.
    pub body: ByteList,
}

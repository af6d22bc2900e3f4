//! The version and the types of messages (OpenFlow 1.0.0, 5.1 OpenFlow Header).

/// The version of OpenFlow 1.0.
pub const VERSION: u8 = 1;

/// Types of messages, as the second byte of the header has them.
pub const HELLO: u8 = 0;
/// 5.4.4 Error Message.
pub const ERROR: u8 = 1;
/// 5.5.2 Echo Request.
pub const ECHO_REQUEST: u8 = 2;
/// 5.5.3 Echo Reply.
pub const ECHO_REPLY: u8 = 3;
/// 5.5.4 Vendor.
pub const VENDOR: u8 = 4;
/// 5.3.1 Handshake.
pub const FEATURES_REQUEST: u8 = 5;
/// 5.3.1 Handshake.
pub const FEATURES_REPLY: u8 = 6;
/// 5.3.2 Switch Configuration.
pub const GET_CONFIG_REQUEST: u8 = 7;
/// 5.3.2 Switch Configuration.
pub const GET_CONFIG_REPLY: u8 = 8;
/// 5.3.2 Switch Configuration.
pub const SET_CONFIG: u8 = 9;
/// 5.4.1 Packet-In Message.
pub const PACKET_IN: u8 = 10;
/// 5.4.2 Flow Removed Message.
pub const FLOW_REMOVED: u8 = 11;
/// 5.4.3 Port Status Message.
pub const PORT_STATUS: u8 = 12;
/// 5.3.6 Send Packet Message.
pub const PACKET_OUT: u8 = 13;
/// 5.3.3 Modify State Messages.
pub const FLOW_MOD: u8 = 14;
/// 5.3.3 Modify State Messages.
pub const PORT_MOD: u8 = 15;
/// 5.3.5 Read State Messages.
pub const STATS_REQUEST: u8 = 16;
/// 5.3.5 Read State Messages.
pub const STATS_REPLY: u8 = 17;
/// 5.3.7 Barrier Message.
pub const BARRIER_REQUEST: u8 = 18;
/// 5.3.7 Barrier Message.
pub const BARRIER_REPLY: u8 = 19;
/// 5.3.4 Queue Configuration Messages.
pub const QUEUE_GET_CONFIG_REQUEST: u8 = 20;
/// 5.3.4 Queue Configuration Messages.
pub const QUEUE_GET_CONFIG_REPLY: u8 = 21;

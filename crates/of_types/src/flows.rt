//! Commands, flags and reasons of flows, and numbers of buffers (OpenFlow 1.0.0, 5.3.3 Modify State
//! Messages, 5.4.1 Packet-In Message and 5.4.2 Flow Removed Message).

ghost use Rattle.std.specs.Prelude.{◌≡◌, ◌==◌, ◌/◌, ◌%◌};

/// Commands of a FLOW_MOD: a new flow.
pub const ADD: u16 = 0;
/// All flows that the match covers get the actions.
pub const MODIFY: u16 = 1;
/// The flow of this very match and priority gets the actions.
pub const MODIFY_STRICT: u16 = 2;
/// All flows that the match covers go.
pub const DELETE: u16 = 3;
/// The flow of this very match and priority goes.
pub const DELETE_STRICT: u16 = 4;

/// Flags of a FLOW_MOD: a FLOW_REMOVED is wanted when the flow goes.
pub const SEND_FLOW_REM: u16 = 1;
/// The flow is refused where it overlaps another of its priority.
pub const CHECK_OVERLAP: u16 = 2;
/// The flow is one for the time without a controller.
pub const EMERG: u16 = 4;

/// Tells whether the flags of a FLOW_MOD or of an entry have SEND_FLOW_REM.
pub fn sends_flow_removed(flags: u16) -> bool
    ensures { result ≡ (flags % 2 == 1) }
{
    flags & SEND_FLOW_REM != 0
}

/// Tells whether the flags of a FLOW_MOD have CHECK_OVERLAP.
pub fn checks_overlap(flags: u16) -> bool
    ensures { result ≡ (flags / 2 % 2 == 1) }
{
    flags & CHECK_OVERLAP != 0
}

/// Tells whether the flags of a FLOW_MOD have EMERG.
pub fn is_emergency(flags: u16) -> bool
    ensures { result ≡ (flags / 4 % 2 == 1) }
{
    flags & EMERG != 0
}

/// Keeps those flags of a FLOW_MOD that an entry keeps: SEND_FLOW_REM alone.
pub fn kept_flags(flags: u16) -> u16
    ensures { result ≡ flags % 2 }
{
    flags & SEND_FLOW_REM
}

/// Reasons of a FLOW_REMOVED: the idle time was over.
pub const IDLE_TIMEOUT: u8 = 0;
/// The hard time was over.
pub const HARD_TIMEOUT: u8 = 1;
/// A FLOW_MOD removed the flow; the standard's name is DELETE.
pub const DELETED: u8 = 2;

/// Reasons of a PACKET_IN: no flow covers the packet.
pub const NO_MATCH: u8 = 0;
/// An action sent the packet.
pub const ACTION: u8 = 1;

/// The number of no buffer.
pub const NO_BUFFER: u32 = 0xffff_ffff;

//! Errors that switches send, as a kind and a code (OpenFlow 1.0.0, 5.4.4 Error Message).

use thiserror::Error;

/// An error that a switch sends (OpenFlow 1.0.0, 5.4.4 Error Message).
#[derive(Clone, Copy, Debug, PartialEq, Eq, PartialOrd, Ord, Hash, Error)]
#[error("the switch answered with error {kind}, code {code}")]
pub struct OfError {
    /// What was at fault, which the standard calls the error's type: one of the kinds below.
    pub kind: u16,
    /// What was wrong with it, by kind.
    pub code: u16,
}

/// The request was not understood.
pub const BAD_REQUEST: u16 = 1;
/// An action is at fault.
pub const BAD_ACTION: u16 = 2;
/// A FLOW_MOD was refused.
pub const FLOW_MOD_FAILED: u16 = 3;
/// A PORT_MOD was refused.
pub const PORT_MOD_FAILED: u16 = 4;

/// BAD_REQUEST: the message's type is not supported.
pub const REQUEST_BAD_TYPE: OfError = OfError { kind: 1, code: 1 };
/// BAD_REQUEST: the statistics' type is not supported.
pub const REQUEST_BAD_STAT: OfError = OfError { kind: 1, code: 2 };
/// BAD_REQUEST: the vendor is not supported.
pub const REQUEST_BAD_VENDOR: OfError = OfError { kind: 1, code: 3 };
/// BAD_REQUEST: not permitted.
pub const REQUEST_EPERM: OfError = OfError { kind: 1, code: 5 };
/// BAD_REQUEST: a wrong length.
pub const REQUEST_BAD_LEN: OfError = OfError { kind: 1, code: 6 };
/// BAD_REQUEST: no such buffer.
pub const REQUEST_BUFFER_UNKNOWN: OfError = OfError { kind: 1, code: 8 };

/// BAD_ACTION: the action's type is not known.
pub const ACTION_BAD_TYPE: OfError = OfError { kind: 2, code: 0 };
/// BAD_ACTION: a wrong length.
pub const ACTION_BAD_LEN: OfError = OfError { kind: 2, code: 1 };
/// BAD_ACTION: the vendor is not known.
pub const ACTION_BAD_VENDOR: OfError = OfError { kind: 2, code: 2 };
/// BAD_ACTION: no such port.
pub const ACTION_BAD_OUT_PORT: OfError = OfError { kind: 2, code: 4 };

/// FLOW_MOD_FAILED: the table is full.
pub const FLOW_TABLES_FULL: OfError = OfError { kind: 3, code: 0 };
/// FLOW_MOD_FAILED: another flow of the priority overlaps.
pub const FLOW_OVERLAP: OfError = OfError { kind: 3, code: 1 };
/// FLOW_MOD_FAILED: not permitted.
pub const FLOW_EPERM: OfError = OfError { kind: 3, code: 2 };
/// FLOW_MOD_FAILED: no such command.
pub const FLOW_BAD_COMMAND: OfError = OfError { kind: 3, code: 4 };

/// PORT_MOD_FAILED: no such port.
pub const PORT_BAD_PORT: OfError = OfError { kind: 4, code: 0 };
/// PORT_MOD_FAILED: the address is not the port's.
pub const PORT_BAD_HW_ADDR: OfError = OfError { kind: 4, code: 1 };

//! Names of the errors of switches, without `OFPET_` and what the codes of a type begin with (OpenFlow 1.0.0, 5.4.4
//! Error Message).

use crate::values::Named;
use of_types::OfError;
use std::fmt;

/// An error by the names of its type and its code: `FLOW_MOD_FAILED OVERLAP`. What has no name is told as a number.
#[derive(Clone, Copy)]
pub(crate) struct ErrorWords(pub(crate) OfError);

impl fmt::Display for ErrorWords {
    fn fmt<W: fmt::Write>(&self, f: &mut fmt::Formatter<W>) -> fmt::Result {
        let error = self.0;
        let kind = Named {
            name: type_name(error.kind),
            number: u64::from(error.kind),
        };
        let code = Named {
            name: code_name(error),
            number: u64::from(error.code),
        };
        write!(f, "{kind} {code}")
    }
}

fn type_name(kind: u16) -> Option<&'static str> {
    Some(match kind {
        0 => "HELLO_FAILED",
        1 => "BAD_REQUEST",
        2 => "BAD_ACTION",
        3 => "FLOW_MOD_FAILED",
        4 => "PORT_MOD_FAILED",
        5 => "QUEUE_OP_FAILED",
        _ => return None,
    })
}

fn code_name(error: OfError) -> Option<&'static str> {
    match error.kind {
        0 => hello_failed(error.code),
        1 => bad_request(error.code),
        2 => bad_action(error.code),
        3 => flow_mod_failed(error.code),
        4 => port_mod_failed(error.code),
        5 => queue_op_failed(error.code),
        _ => None,
    }
}

fn hello_failed(code: u16) -> Option<&'static str> {
    match code {
        0 => Some("INCOMPATIBLE"),
        1 => Some("EPERM"),
        _ => None,
    }
}

fn bad_request(code: u16) -> Option<&'static str> {
    Some(match code {
        0 => "BAD_VERSION",
        1 => "BAD_TYPE",
        2 => "BAD_STAT",
        3 => "BAD_VENDOR",
        4 => "BAD_SUBTYPE",
        5 => "EPERM",
        6 => "BAD_LEN",
        7 => "BUFFER_EMPTY",
        8 => "BUFFER_UNKNOWN",
        _ => return None,
    })
}

fn bad_action(code: u16) -> Option<&'static str> {
    Some(match code {
        0 => "BAD_TYPE",
        1 => "BAD_LEN",
        2 => "BAD_VENDOR",
        3 => "BAD_VENDOR_TYPE",
        4 => "BAD_OUT_PORT",
        5 => "BAD_ARGUMENT",
        6 => "EPERM",
        7 => "TOO_MANY",
        8 => "BAD_QUEUE",
        _ => return None,
    })
}

fn flow_mod_failed(code: u16) -> Option<&'static str> {
    Some(match code {
        0 => "ALL_TABLES_FULL",
        1 => "OVERLAP",
        2 => "EPERM",
        3 => "BAD_EMERG_TIMEOUT",
        4 => "BAD_COMMAND",
        5 => "UNSUPPORTED",
        _ => return None,
    })
}

fn port_mod_failed(code: u16) -> Option<&'static str> {
    match code {
        0 => Some("BAD_PORT"),
        1 => Some("BAD_HW_ADDR"),
        _ => None,
    }
}

fn queue_op_failed(code: u16) -> Option<&'static str> {
    match code {
        0 => Some("BAD_PORT"),
        1 => Some("BAD_QUEUE"),
        2 => Some("EPERM"),
        _ => None,
    }
}

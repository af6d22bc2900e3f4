//! Why a rehearsal ends without the whole report.

use crash_policy::PolicyFault;
use event_dispatch::Served;
use lego_io::{ReadAllFault, WriteFault};
use lego_model::{SessionFault, SessionKind};
use net_txn::TxnFault;
use of_types::Dpid;
use session_text::SessionError;
use std::alloc::{AllocError, AllocFailed};
use std::io;
use thiserror::Error;

/// Why a rehearsal ends without the whole report. It shows as the line that is written, which is that of `legosdn replay`, and has
/// the status of that.
#[derive(Drop, Debug, Error)]
pub enum Stop {
    /// The program takes no words.
    #[error("usage: legosdn rehearse")]
    Usage,
    /// The input has more bytes than an input may have.
    #[error("bad size")]
    Size,
    /// The input has no line `---`.
    #[error("bad separator")]
    Separator,
    /// The input has a judge that a rehearsal does not take yet.
    #[error("bad policy later")]
    PolicyLater,
    /// An application of the policy has no command.
    #[error("bad policy missing command")]
    NoCommand,
    /// It is no policy: the first fault.
    #[error("bad policy {0}")]
    Policy(PolicyFault),
    /// A line of the session has this fault.
    #[error("bad session {0} {1}")]
    Session(u64, &'static str),
    /// The input could not be read to its end.
    #[error("read fault")]
    ReadFault,
    /// The report could not be written.
    #[error("write fault")]
    WriteFault,
    /// The outside stays shut.
    #[error("world shut")]
    Shut,
    /// The outside failed at what comes next, or the system refused a clock.
    #[error("world fault")]
    NextFault,
    /// This switch sent what is no message, or too many messages.
    #[error("switch broke {0}")]
    SwitchBroke(Dpid),
    /// This switch refused what the controller asked of its own.
    #[error("diverged {0}")]
    Diverged(Dpid),
    /// After the last batch this many events were left.
    #[error("events left {0}")]
    EventsLeft(usize),
    /// Memory ran out.
    #[error("no memory")]
    NoMemory,
}

impl Stop {
    /// The status of the program.
    pub(crate) fn status(&self) -> u8 {
        match self {
            Stop::Usage => 2,
            Stop::Size
            | Stop::Separator
            | Stop::PolicyLater
            | Stop::NoCommand
            | Stop::Policy(_)
            | Stop::Session(_, _) => 3,
            Stop::ReadFault => 4,
            Stop::WriteFault => 5,
            Stop::Shut | Stop::NextFault => 6,
            Stop::SwitchBroke(_) => 8,
            Stop::Diverged(_) => 9,
            Stop::EventsLeft(_) => 10,
            Stop::NoMemory => 12,
        }
    }
}

/// What stopped a run, if it did not come to its end.
pub(crate) fn stop_of(served: Served) -> Result<(), Stop> {
    match served {
        Served::Ended { .. } => Ok(()),
        Served::WriteFault => Err(Stop::WriteFault),
        Served::Shut => Err(Stop::Shut),
        Served::NextFault => Err(Stop::NextFault),
        Served::Txn(TxnFault::SwitchBroke(dpid, _) | TxnFault::Flooded(dpid, _)) => {
            Err(Stop::SwitchBroke(dpid))
        }
        Served::Txn(TxnFault::Diverged(dpid, _, _)) => Err(Stop::Diverged(dpid)),
        Served::EventsLeft(left) => Err(Stop::EventsLeft(left)),
        Served::NoMemory | Served::Txn(TxnFault::NoMemory) => Err(Stop::NoMemory),
    }
}

/// What is wrong with a line, in the words of a refused session.
fn kind_word(kind: SessionKind) -> &'static str {
    match kind {
        SessionKind::Long => "long",
        SessionKind::Text => "text",
        SessionKind::Order => "order",
        SessionKind::Word => "word",
        SessionKind::Number => "number",
        SessionKind::Range => "range",
        SessionKind::Hex => "hex",
        SessionKind::Switch => "switch",
        SessionKind::App => "app",
        SessionKind::Raw => "raw",
    }
}

impl From<AllocError> for Stop {
    fn from(_error: AllocError) -> Stop {
        Stop::NoMemory
    }
}

impl<T: Drop> From<AllocFailed<T>> for Stop {
    fn from(_error: AllocFailed<T>) -> Stop {
        Stop::NoMemory
    }
}

impl From<io::Error> for Stop {
    fn from(error: io::Error) -> Stop {
        if error.kind() == io::ErrorKind::OutOfMemory {
            Stop::NoMemory
        } else {
            Stop::NextFault
        }
    }
}

impl From<ReadAllFault> for Stop {
    fn from(fault: ReadAllFault) -> Stop {
        match fault {
            ReadAllFault::Read => Stop::ReadFault,
            ReadAllFault::TooLong => Stop::Size,
            ReadAllFault::NoMemory => Stop::NoMemory,
        }
    }
}

impl From<WriteFault> for Stop {
    fn from(_fault: WriteFault) -> Stop {
        Stop::WriteFault
    }
}

impl From<PolicyFault> for Stop {
    fn from(fault: PolicyFault) -> Stop {
        match fault {
            PolicyFault::NoMemory => Stop::NoMemory,
            fault => Stop::Policy(fault),
        }
    }
}

impl From<SessionError> for Stop {
    fn from(error: SessionError) -> Stop {
        match error {
            SessionError::Bad(SessionFault { line, kind }) => Stop::Session(line, kind_word(kind)),
            SessionError::NoMemory => Stop::NoMemory,
        }
    }
}

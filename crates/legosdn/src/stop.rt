//! Why a command ends without the whole report.

ghost use Rattle.std.specs.Prelude.{◌≡◌, ◌++◌, codes, OnOk, OnErr, decimal};
ghost use Rattle.command_words.specs.Commands.{usage_line as usage_text};
ghost use Rattle.std.specs.Io.KnownBytes.{append_known};
ghost use Rattle.lego_io.specs.Count.{Rose, NeverFell};
ghost use Rattle.lego_model.specs.RunReport.{line_of};
ghost use Rattle.lego_io.specs.Sink.{TookPart};
ghost use Rattle.legosdn.specs.Stops.{stop_status, stop_line, refusal_line, kind_word, policy_words, policy_line, stop_of_reading, stop_of_policy, stop_of_session, stop_of_switch};
ghost use Rattle.legosdn.specs.declared.stop.Stop.TheVariants as stops;

use command_words::usage_line;
use crash_policy::PolicyFault;
use itoa::Buffer;
use lego_io::{ReadAllFault, Sink, WriteFault, write_all};
use lego_model::{SessionFault, SessionKind};
use net_txn::TxnFault;
use of_types::Dpid;
use session_text::SessionError;
use std::alloc::AllocError;
use thiserror::Error;

/// Why an input is refused.
#[derive(Drop, Debug, PartialEq, Eq, Error)]
pub enum InputRefusal {
    /// It has more bytes than an input may have.
    #[error("the input has more bytes than an input may have")]
    Size,
    /// It has no line `---`.
    #[error("the input has no line ---")]
    Separator,
    /// Its policy names no program to start.
    #[error("the policy names no program")]
    NoCommand,
    /// It is no policy: the first fault.
    #[error("bad policy {0}")]
    Policy(PolicyFault),
    /// Behind the separator stands no session: the first fault.
    #[error("behind the separator stands no session")]
    Session(SessionFault),
}

/// Why a command ends without the whole report. It has a status of its own and, but for a failed write, a line.
#[derive(Drop, Debug, PartialEq, Eq, Error)]
pub enum Stop {
    /// The words are no command.
    #[error("the words are no command")]
    Usage,
    /// The input is refused.
    #[error("{0}")]
    Refused(InputRefusal),
    /// The input could not be read to its end.
    #[error("the input could not be read to its end")]
    ReadFault,
    /// The report could not be written.
    #[error("the report could not be written")]
    WriteFault,
    /// The outside stays shut.
    #[error("the world stays shut")]
    Shut,
    /// The outside failed at what comes next.
    #[error("the world failed at what comes next")]
    NextFault,
    /// This switch sent what is no message, or too many messages.
    #[error("switch {0} sent what is no message, or too many messages")]
    SwitchBroke(Dpid),
    /// This switch refused what the controller asked of its own.
    #[error("switch {0} refused a message of the controller")]
    Diverged(Dpid),
    /// After the last batch this many events were left.
    #[error("{0} events were left")]
    EventsLeft(usize),
    /// Memory ran out.
    #[error("no memory")]
    NoMemory,
}

impl Stop {
    /// Gives the status of the program.
    pub fn status(&self) -> u8
        ensures { result ≡ stop_status self.now }
    {
        match self {
            Stop::Usage => 2,
            Stop::Refused(_) => 3,
            Stop::ReadFault => 4,
            Stop::WriteFault => 5,
            Stop::Shut | Stop::NextFault => 6,
            Stop::SwitchBroke(_) => 8,
            Stop::Diverged(_) => 9,
            Stop::EventsLeft(_) => 10,
            Stop::NoMemory => 12,
        }
    }

    /// Writes the line, which takes no memory.
    #[tactic(auto, unfolding(crate::specs::Stops::stop_line, lego_model::specs::RunReport::line_of))]
    pub fn write_line<K: Sink>(&self, sink: &mut K) -> Result<(), WriteFault>
        ensures all { OnOk result (K.contents sink.new ≡ append_known (K.contents sink.old) (stop_line self.now)) }
        ensures part { OnErr result (TookPart (K.contents sink.old) (K.contents sink.new) (stop_line self.now)) }
        ensures fault_rose { OnErr result (Rose (K.faults sink.old) (K.faults sink.new)) }
        ensures never_fell { NeverFell (K.faults sink.old) (K.faults sink.new) }
    {
        match self {
            Stop::Usage => write_usage(sink),
            Stop::Refused(refusal) => refusal.write_line(sink),
            Stop::ReadFault => write_all(sink, b"read fault\n"),
            Stop::WriteFault => Ok(()),
            Stop::Shut => write_all(sink, b"world shut\n"),
            Stop::NextFault => write_all(sink, b"world fault\n"),
            Stop::SwitchBroke(dpid) => write_numbered(sink, b"switch broke ", *dpid, b"\n"),
            Stop::Diverged(dpid) => write_numbered(sink, b"diverged ", *dpid, b"\n"),
            Stop::EventsLeft(left) => write_numbered(sink, b"events left ", *left as u64, b"\n"),
            Stop::NoMemory => write_all(sink, b"no memory\n"),
        }
    }
}

impl InputRefusal {
    /// Writes the line, which takes no memory.
    #[tactic(auto, unfolding(crate::specs::Stops::refusal_line, lego_model::specs::RunReport::line_of))]
    fn write_line<K: Sink>(&self, sink: &mut K) -> Result<(), WriteFault>
        ensures all { OnOk result (K.contents sink.new ≡ append_known (K.contents sink.old) (refusal_line self.now)) }
        ensures part { OnErr result (TookPart (K.contents sink.old) (K.contents sink.new) (refusal_line self.now)) }
        ensures fault_rose { OnErr result (Rose (K.faults sink.old) (K.faults sink.new)) }
        ensures never_fell { NeverFell (K.faults sink.old) (K.faults sink.new) }
    {
        match self {
            InputRefusal::Size => write_all(sink, b"bad size\n"),
            InputRefusal::Separator => write_all(sink, b"bad separator\n"),
            InputRefusal::NoCommand => write_all(sink, b"bad policy missing command\n"),
            InputRefusal::Policy(fault) => write_policy(sink, fault),
            InputRefusal::Session(fault) => {
                let kind = kind_end(fault.kind);
                write_numbered(sink, b"bad session ", fault.line, kind.as_bytes())
            }
        }
    }
}

/// Writes the line that says which words are commands.
#[tactic(auto, unfolding(lego_model::specs::RunReport::line_of))]
fn write_usage<K: Sink>(sink: &mut K) -> Result<(), WriteFault>
    ensures all { OnOk result (K.contents sink.new ≡ append_known (K.contents sink.old) (line_of usage_text)) }
    ensures part { OnErr result (TookPart (K.contents sink.old) (K.contents sink.new) (line_of usage_text)) }
    ensures fault_rose { OnErr result (Rose (K.faults sink.old) (K.faults sink.new)) }
    ensures never_fell { NeverFell (K.faults sink.old) (K.faults sink.new) }
{
    write_between(sink, b"", usage_line().as_bytes(), b"\n")
}

/// Writes the line of a fault of a policy.
#[tactic(auto, unfolding(crate::specs::Stops::policy_words, crate::specs::Stops::fault_words, lego_model::specs::RunReport::line_of))]
fn write_policy<K: Sink>(sink: &mut K, fault: &PolicyFault) -> Result<(), WriteFault>
    ensures all { OnOk result (K.contents sink.new ≡ append_known (K.contents sink.old) (policy_line (policy_words fault.now))) }
    ensures part { OnErr result (TookPart (K.contents sink.old) (K.contents sink.new) (policy_line (policy_words fault.now))) }
    ensures fault_rose { OnErr result (Rose (K.faults sink.old) (K.faults sink.new)) }
    ensures never_fell { NeverFell (K.faults sink.old) (K.faults sink.new) }
{
    match fault {
        PolicyFault::Text => write_all(sink, b"bad policy text\n"),
        PolicyFault::UnknownKey(key) => write_between(
            sink,
            b"bad policy unknown ",
            key.as_bytes(),
            b"\n",
        ),
        PolicyFault::Missing(key) => write_between(
            sink,
            b"bad policy missing ",
            key.as_bytes(),
            b"\n",
        ),
        PolicyFault::Range(key) => write_between(sink, b"bad policy range ", key.as_bytes(), b"\n"),
        PolicyFault::Double(name) => write_between(
            sink,
            b"bad policy double ",
            name.as_bytes(),
            b"\n",
        ),
        PolicyFault::NoMemory => write_all(sink, b"bad policy no memory\n"),
    }
}

/// Writes bytes between others.
fn write_between<K: Sink>(
    sink: &mut K,
    front: &[u8],
    middle: &[u8],
    end: &[u8],
) -> Result<(), WriteFault>
    ensures all { OnOk result (K.contents sink.new ≡ append_known (K.contents sink.old) (front.now ++ middle.now ++ end.now)) }
    ensures part { OnErr result (TookPart (K.contents sink.old) (K.contents sink.new) (front.now ++ middle.now ++ end.now)) }
    ensures fault_rose { OnErr result (Rose (K.faults sink.old) (K.faults sink.new)) }
    ensures never_fell { NeverFell (K.faults sink.old) (K.faults sink.new) }
{
    write_all(sink, front)?;
    write_all(sink, middle)?;
    write_all(sink, end)
}

/// Writes a line with a number in it.
fn write_numbered<K: Sink>(
    sink: &mut K,
    front: &[u8],
    number: u64,
    end: &[u8],
) -> Result<(), WriteFault>
    ensures all { OnOk result (K.contents sink.new ≡ append_known (K.contents sink.old) (front.now ++ decimal number ++ end.now)) }
    ensures part { OnErr result (TookPart (K.contents sink.old) (K.contents sink.new) (front.now ++ decimal number ++ end.now)) }
    ensures fault_rose { OnErr result (Rose (K.faults sink.old) (K.faults sink.new)) }
    ensures never_fell { NeverFell (K.faults sink.old) (K.faults sink.new) }
{
    write_between(sink, front, Buffer::new().format(number).as_bytes(), end)
}

/// Spells what is wrong with a line of a session, as the end of a line.
#[tactic(auto, unfolding(lego_model::specs::RunReport::line_of))]
fn kind_end(kind: SessionKind) -> &'static str
    ensures { result.now ≡ line_of (codes " " ++ kind_word kind) }
{
    match kind {
        SessionKind::Long => " long\n",
        SessionKind::Text => " text\n",
        SessionKind::Order => " order\n",
        SessionKind::Word => " word\n",
        SessionKind::Number => " number\n",
        SessionKind::Range => " range\n",
        SessionKind::Hex => " hex\n",
        SessionKind::Switch => " switch\n",
        SessionKind::App => " app\n",
        SessionKind::Raw => " raw\n",
    }
}

impl From<AllocError> for Stop {
    ghost from_gives = { λ _ stop. stop ≡ stops.NoMemory };

    fn from(_error: AllocError) -> Stop {
        Stop::NoMemory
    }
}

impl From<InputRefusal> for Stop {
    ghost from_gives = { λ refusal stop. stop ≡ stops.Refused refusal };

    fn from(refusal: InputRefusal) -> Stop {
        Stop::Refused(refusal)
    }
}

impl From<ReadAllFault> for Stop {
    ghost from_gives = { λ fault stop. stop ≡ stop_of_reading fault };

    fn from(fault: ReadAllFault) -> Stop {
        match fault {
            ReadAllFault::Read => Stop::ReadFault,
            ReadAllFault::TooLong => Stop::Refused(InputRefusal::Size),
            ReadAllFault::NoMemory => Stop::NoMemory,
        }
    }
}

impl From<PolicyFault> for Stop {
    ghost from_gives = { λ fault stop. stop ≡ stop_of_policy fault };

    fn from(fault: PolicyFault) -> Stop {
        match fault {
            PolicyFault::NoMemory => Stop::NoMemory,
            fault => Stop::Refused(InputRefusal::Policy(fault)),
        }
    }
}

impl From<SessionError> for Stop {
    ghost from_gives = { λ error stop. stop ≡ stop_of_session error };

    fn from(error: SessionError) -> Stop {
        match error {
            SessionError::Bad(fault) => Stop::Refused(InputRefusal::Session(fault)),
            SessionError::NoMemory => Stop::NoMemory,
        }
    }
}

impl From<TxnFault> for Stop {
    ghost from_gives = { λ fault stop. stop ≡ stop_of_switch fault };

    fn from(fault: TxnFault) -> Stop {
        match fault {
            TxnFault::SwitchBroke(dpid, _) | TxnFault::Flooded(dpid, _) => Stop::SwitchBroke(dpid),
            TxnFault::Diverged(dpid, _, _) => Stop::Diverged(dpid),
            TxnFault::NoMemory => Stop::NoMemory,
        }
    }
}

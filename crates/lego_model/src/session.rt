//! A session as plain data, and why a text is none.

use app_frames::StartScript;
use of_types::Dpid;
use session_lists::{ReplyList, StimulusList};
use thiserror::Error;

/// What a session text declares, scripts and lets happen. An application is named by its index.
#[derive(Drop, Debug)]
pub struct Session {
    /// The simulated switches: datapath id, room for flow entries, port numbers ascending.
    pub switches: Vec<(Dpid, u32, Vec<u16>)>,
    /// How the starts of an application end, each application's own in order.
    pub starts: Vec<(u32, StartScript)>,
    /// What an application gives in its turns, each application's own in order.
    pub replies: ReplyList,
    /// Which calls to send to or receive from a switch fail, counted from 1.
    pub faults: Vec<(Dpid, u64)>,
    /// What happens, in order.
    pub stimuli: StimulusList,
}

/// What is wrong with a line of a session text.
#[derive(Clone, Copy, Debug, PartialEq, Eq, Error)]
pub enum SessionKind {
    /// It has more than 4,194,304 bytes.
    #[error("it has more than 4,194,304 bytes")]
    Long,
    /// A byte is no printable ASCII character.
    #[error("a byte is no printable ASCII character")]
    Text,
    /// The first line is not `session 1`, a later one is, or a moment is below the last one.
    #[error("it stands in the wrong place, or its moment is below the last one")]
    Order,
    /// An unknown word or step, a wrong number of words, or a step behind an end.
    #[error("an unknown word or step, or a wrong number of words")]
    Word,
    /// A word is no decimal number.
    #[error("a word is no decimal number")]
    Number,
    /// A number or a size is beyond its limit, or ports do not ascend.
    #[error("a number or a size is beyond its limit, or ports do not ascend")]
    Range,
    /// A word is no hexadecimal text.
    #[error("a word is no hexadecimal text")]
    Hex,
    /// A switch is not declared above, or declared twice.
    #[error("a switch is not declared above, or declared twice")]
    Switch,
    /// There is no such application.
    #[error("there is no such application")]
    App,
    /// The bytes are a message that no `raw` line may have.
    #[error("the bytes are a message that no `raw` line may have")]
    Raw,
}

/// The first fault of a session text.
#[derive(Clone, Copy, Debug, PartialEq, Eq, Error)]
#[error("line {line}: {kind}")]
pub struct SessionFault {
    /// The line of the whole input, counted from 1.
    pub line: u64,
    /// What is wrong with it.
    pub kind: SessionKind,
}

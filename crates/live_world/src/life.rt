//! How long a connection may stay silent.

ghost use Rattle.std.specs.Prelude.{◌≡◌};
ghost use Rattle.live_world.specs.Life.{due_of, heard_at, asked_at};

use of_types::Dpid;

/// How many milliseconds a connection has to say who it is.
pub(crate) const GREETING_MILLISECONDS: u64 = 5_000;

/// After how many milliseconds of silence a switch is asked whether it is there, and how many it has to answer.
pub(crate) const SILENT_MILLISECONDS: u64 = 15_000;

/// Who is at the other end.
#[derive(Clone, Copy, Debug, PartialEq, Eq)]
pub enum Stage {
    /// It has not said so yet.
    Greeting,
    /// It says that it is this switch, and has not joined yet.
    Named(Dpid),
    /// This switch, which has joined.
    Joined(Dpid),
}

/// What is known of a connection's time, in milliseconds.
#[derive(Clone, Copy, Debug, PartialEq, Eq)]
pub struct Life {
    /// Who is at the other end.
    pub stage: Stage,
    /// When the connection came.
    pub since: u64,
    /// When bytes came last.
    pub heard: u64,
    /// When the switch was asked whether it is there, if no byte came since.
    pub asked: Option<u64>,
}

/// What is due on a connection.
#[derive(Clone, Copy, Debug, PartialEq, Eq)]
pub enum Due {
    /// Nothing.
    Nothing,
    /// It is to be asked whether it is there.
    Ask,
    /// It is to be closed.
    Close,
}

impl Life {
    /// Begins the life of a connection that comes now.
    pub fn new(now: u64) -> Life
        ensures { result ≡ record { stage = Stage.Greeting; since = now; heard = now; asked = None } }
    {
        Life {
            stage: Stage::Greeting,
            since: now,
            heard: now,
            asked: None,
        }
    }

    /// Bytes came.
    pub fn hear(&mut self, now: u64)
        ensures { self.new ≡ heard_at now self.old }
    {
        self.heard = now;
        self.asked = None;
    }

    /// The switch was asked whether it is there.
    pub fn ask(&mut self, now: u64)
        ensures { self.new ≡ asked_at now self.old }
    {
        self.asked = Some(now);
    }

    /// Tells what is due.
    pub fn due(&self, now: u64) -> Due
        ensures { result ≡ due_of now self.now }
    {
        let silent_since = match (self.stage, self.asked) {
            (Stage::Greeting, _) => {
                return if now.saturating_sub(self.since) < GREETING_MILLISECONDS {
                    Due::Nothing
                } else {
                    Due::Close
                };
            }
            (Stage::Named(_), _) => return Due::Nothing,
            (Stage::Joined(_), Some(asked)) => asked,
            (Stage::Joined(_), None) => self.heard,
        };
        if now.saturating_sub(silent_since) < SILENT_MILLISECONDS {
            Due::Nothing
        } else if self.asked.is_some() {
            Due::Close
        } else {
            Due::Ask
        }
    }
}

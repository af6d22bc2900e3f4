//! What LegoSDN is to do, as definitions: sessions, the reference controller, the report, and what a run promises.
//!
//! There is no call here. The crates above are proved against these words. To read: `specs/WholeRun.antt` and
//! `CutRun.antt` (what a run promises), `Controller.antt` (the reference controller), `Turns.antt` (a turn),
//! `Answers.antt` (what a message is answered), `Agreement.antt` (when switches agree), `AtOnce.antt` (the dialogue with
//! the application), `SessionText.antt` (the grammar), `RunReport.antt` (the report). docs/PROMISE.md leads through them.
#![tactic(auto)]

mod fault;
mod session;
mod turn;
mod wait;

pub use fault::TxnFault;
pub use session::{Session, SessionFault, SessionKind};
pub use turn::TurnWord;
pub use wait::{Awaited, Heard, Notices, Refusal};

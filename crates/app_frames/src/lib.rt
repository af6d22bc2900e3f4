//! The frames between the host and its applications, as values and as bytes.
//!
//! `decode_app` and `decode_host` answer the frame at the front (`exact`), None exactly where it is yet to come (`none`),
//! or the first fault by one stated order (`found`, `only`). `encode_app` and `encode_host` write the one spelling of a
//! frame that `fits`. Laws: `laws_of_app_frames`, `laws_of_host_frames`. See docs/FRAMES.md.
#![tactic(auto)]

mod app;
mod cause;
mod fault;
mod frame;
mod front;
mod host;
mod kind;
mod laws;
mod script;

pub use app::{decode_app, encode_app};
pub use cause::{Cause, Tried};
pub use fault::{AppFrameError, FrameFault};
pub use frame::{Answer, AppFrame, Event, EventKind, HostFrame, MOST_CHECKPOINT_BYTES};
pub use host::{decode_host, encode_host};
pub use laws::{laws_of_app_frames, laws_of_host_frames};
pub use script::{Script, ScriptStep, StartScript};

//! A world that tells its acts in words: it passes each call on, and writes a line for each act to a sink of its own.
//!
//! `Traced` is a `World` that tells what the inner one tells: each of its calls keeps the inner world's promise, so what was
//! passed on, what was answered and what was counted are the inner world's; it is `Told` where the inner one is. Contracts see it as that world (`Traced::new`,
//! `Traced::silent`), which it lends (`Traced::world`, `Traced::world_mut`). What another part of the program leaves in the `Aside` that it
//! hands out is told before the next act. A line that cannot be made or written is left
//! out, and changes no answer. Of the texts no clause speaks: docs/TRACE.md shows them.
#![tactic(auto)]

mod aside;
mod scribe;
mod traced;

pub use aside::Aside;
pub use traced::Traced;

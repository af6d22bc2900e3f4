//! The course of a run, in any world that tells: what is kept of the messages that come while something else is awaited, and which events wait.
//!
//! There are definitions alone: `specs/Tables.antt` has the tables as the owners of their entries see them, `specs/Messages.antt` what becomes of
//! messages, `specs/Asked.antt` what an application asks, `specs/Applications.antt` how it is started, `specs/Moves.antt` the moves of a run,
//! `specs/Turns.antt` a turn and who has one, `specs/Parts.antt` the parts of a run, one behind the other, and `specs/Points.antt` its
//! quiescent points.
#![tactic(auto)]

//! An application as the host keeps it, and how its turns and starts end.

ghost use Rattle.std.specs.Prelude.{◌≡◌, false, []};

use crate::intake::TakeBuffer;
use app_frames::{Cause, Tried};
use of_types::ByteList;
use std::alloc::Global;

/// An application as the host keeps it.
#[derive(Drop, Debug)]
pub struct AppState {
    /// Its index, by which the world knows it.
    pub index: u32,
    /// Whether it was started and has not failed since.
    pub alive: bool,
    /// The bytes that were taken from it and not read.
    pub rest: ByteList,
    /// What its bytes are taken into.
    pub(crate) buffer: TakeBuffer,
}

impl AppState {
    /// Returns an application that was not started yet; takes no memory.
    pub fn new(alloc: Global, index: u32) -> AppState
        ensures { result ≡ record { index = index; alive = false; rest = []; buffer = tt } }
    {
        AppState {
            index,
            alive: false,
            rest: ByteList::new(alloc),
            buffer: TakeBuffer::new(),
        }
    }
}

/// How a turn ended.
#[derive(Drop, Debug, PartialEq, Eq)]
pub enum TurnEnd {
    /// The application is done with the event. With `stop` no further application is given it.
    Done { stop: bool },
    /// It failed, and why.
    Failed(Cause),
}

/// Whether an application is back after its attempts to start it, and how each ended.
#[derive(Drop, Debug)]
pub struct Back {
    /// Whether it runs and is ready.
    pub back: bool,
    /// How each attempt ended, in order.
    pub tries: Vec<Tried>,
}

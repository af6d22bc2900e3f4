//! What the engine keeps of a run beside its applications.

ghost use Rattle.std.specs.Prelude.{IfOk, OnOk};
ghost use Rattle.event_dispatch.specs.Lines.{CoreAtFirst, OnlyNotes, WritesLines};

use checkpoint_store::Store;
use lego_io::{Sink, WriteFault, write_all};
use net_txn::{EventQueue, Net};
use of_types::ByteList;
use std::alloc::{AllocError, Global};

/// A run so far, but for its applications.
#[derive(Drop, Debug)]
pub(crate) struct Core {
    pub(crate) alloc: Global,
    pub(crate) net: Net,
    pub(crate) queue: EventQueue,
    /// How many events were dispatched.
    pub(crate) events: u64,
    /// The kept checkpoint of each application, and the one that its turn staged.
    pub(crate) store: Store,
    /// Lines of the report that were not written yet.
    pub(crate) lines: Vec<u8>,
}

impl Core {
    /// Makes one for so many applications, of which nothing has happened.
    pub(crate) fn new(alloc: Global, apps: u32) -> Result<Core, AllocError>
        ensures { IfOk result (CoreAtFirst apps) }
    {
        Ok(Core {
            alloc,
            net: Net::new(alloc)?,
            queue: EventQueue::new(alloc),
            events: 0,
            store: Store::new(alloc, apps)?,
            lines: Vec::new(alloc),
        })
    }

    /// Appends bytes to those that are to be written.
    pub(crate) fn note_bytes(&mut self, bytes: &[u8]) -> Result<(), AllocError>
        ensures { OnOk result (OnlyNotes bytes.now self.old self.new) }
    {
        self.lines.extend_from_slice(bytes)?;
        Ok(())
    }

    /// Appends a line to those that are to be written.
    pub(crate) fn note(&mut self, line: &ByteList) -> Result<(), AllocError>
        ensures { OnOk result (OnlyNotes line.now self.old self.new) }
    {
        self.lines.extend_from_slice(line.as_slice())?;
        Ok(())
    }

    /// Writes the lines, after which none is left.
    pub(crate) fn write<K: Sink>(&mut self, sink: &mut K) -> Result<(), WriteFault>
        ensures { WritesLines (K.contents sink.old) (K.contents sink.new) (K.faults sink.old) (K.faults sink.new) self.old self.new result }
    {
        write_all(sink, &self.lines)?;
        self.lines.clear();
        Ok(())
    }
}

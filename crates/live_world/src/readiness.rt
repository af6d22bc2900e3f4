//! What a source was told to be ready for.

use mio::event::Event;

/// Whether a read and a write of a source are worth a try. The system tells each change once, so that this stays until one would wait.
#[derive(Clone, Copy, Debug, PartialEq, Eq)]
pub(crate) struct Readiness {
    pub(crate) is_readable: bool,
    pub(crate) is_writable: bool,
    /// The other side sends no more, or the source failed: what was sent before and the end can be read.
    is_hung_up: bool,
}

impl Readiness {
    /// A new source: each is worth a try.
    pub(crate) fn new() -> Readiness {
        Readiness {
            is_readable: true,
            is_writable: true,
            is_hung_up: false,
        }
    }

    /// The system told this.
    pub(crate) fn note(&mut self, event: &Event) {
        if event.is_read_closed() || event.is_error() {
            self.is_hung_up = true;
        }
        if event.is_readable() || self.is_hung_up {
            self.is_readable = true;
        }
        if event.is_writable() || event.is_write_closed() {
            self.is_writable = true;
        }
    }

    /// A read gave fewer bytes than it could: so no more wait now. The end of a source that hung up can still be read.
    pub(crate) fn came_short(&mut self) {
        self.is_readable = self.is_hung_up;
    }
}

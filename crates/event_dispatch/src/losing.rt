//! Switches that were lost, and are told.

ghost use Rattle.std.specs.Prelude.{OnOk};
ghost use Rattle.lego_model.specs.RunReport.{lost_line as lost_line_of};
ghost use Rattle.event_dispatch.specs.Lines.{OnlyNotes, LostTold};

use crate::engine_core::Core;
use of_types::Dpid;
use report_text::lost_line;
use std::alloc::AllocError;

impl Core {
    /// Appends the line of a switch that was lost.
    pub(crate) fn note_loss(&mut self, dpid: Dpid) -> Result<(), AllocError>
        ensures { OnOk result (OnlyNotes (lost_line_of dpid) self.old self.new) }
    {
        let line = lost_line(self.alloc, dpid)?;
        self.note(&line)
    }

    /// Tells the switches that were lost, in order: each gets its line, and its Leave event joins those that wait.
    pub(crate) fn tell_lost(&mut self) -> Result<(), AllocError>
        ensures { OnOk result (LostTold self.old self.new) }
    {
        while let Some(event) = self.net.lost()? {
            self.note_loss(event.dpid)?;
            self.queue.push(event)?;
        }
        Ok(())
    }
}

//! Time in a switch.

ghost use Rattle.std.specs.Prelude.{◌≡◌, ◌≤◌, length, All, IsOk, IfOk, OnOk, OnErr};
ghost use Rattle.of_types.specs.declared.journal.Stimulus.TheVariants.{Advance};
ghost use Rattle.of_wire.specs.Reading.{reading_of};
ghost use Rattle.flow_table.specs.Step.{after_stimulus, sent_by_stimulus};
ghost use Rattle.switch_sim.specs.Readable.{AreReadable};
ghost use Rattle.switch_sim.specs.Sound.{IsSound};

use crate::message_list::MessageList;
use crate::switch::SimSwitch;
use crate::table::due;
use std::alloc::AllocError;

impl SimSwitch {
    /// Finds that the switch is sound, as its type says.
    pub(crate) fn is_sound(&self)
        ensures { IsSound self.now.declared.cap self.now.moment self.now.table.entries self.now.ports }
    {
        let _moment = self.moment;
    }

    #[tactic(auto, unfolding(flow_table::specs::Step::sent_by_stimulus))]
    fn due_messages(&self, moment: u64) -> Result<MessageList, AllocError>
        requires after { self.now.moment ≤ moment }
        requires within { moment ≤ 4294967295 }
        ensures sent { IfOk result (λ list. list ≡ sent_by_stimulus (Advance moment) self.now) }
        ensures readable { IfOk result AreReadable }
    {
        self.is_sound();
        due(self.alloc, &self.table, moment)
    }

    /// Gives what the switch sends when the moment moves on to this one (OpenFlow 1.0.0, 3.3 Flow Removal): a FLOW_REMOVED
    /// for each entry that is due and asks for it, at most as many as the table takes. The switch stays; `pass` moves it.
    ///
    /// A moment is in seconds, not before the last and at most 4,294,967,295.
    pub fn due(&self, moment: u64) -> Result<MessageList, AllocError>
        requires after { self.now.moment ≤ moment }
        requires within { moment ≤ 4294967295 }
        ensures sent { IfOk result (λ list. list ≡ sent_by_stimulus (Advance moment) self.now) }
        ensures readable { IfOk result (λ list. All (λ bytes. IsOk (reading_of bytes)) list) }
        ensures short { IfOk result (λ list. All (λ bytes. length bytes ≤ 65535) list) }
        ensures few { IfOk result (λ list. length list ≤ self.now.declared.cap) }
    {
        self.is_sound();
        self.due_messages(moment)
    }

    /// Moves the moment on to this one, and the entries that are due go, as a stimulus does it, but nothing is sent;
    /// takes no memory. `due` gives before what is to be sent.
    ///
    /// A moment is in seconds, not before the last and at most 4,294,967,295.
    #[tactic(auto, unfolding(flow_table::specs::Step::after_stimulus))]
    pub fn pass(&mut self, moment: u64)
        requires after { self.old.moment ≤ moment }
        requires within { moment ≤ 4294967295 }
        ensures after { self.new ≡ after_stimulus (Advance moment) self.old }
        ensures serials { self.new.table.next ≡ self.old.table.next }
    {
        self.table.remove_due(moment);
        self.moment = moment;
    }

    /// Moves the moment on.
    pub(crate) fn advance(&mut self, moment: u64) -> Result<MessageList, AllocError>
        requires after { self.old.moment ≤ moment }
        requires within { moment ≤ 4294967295 }
        ensures sent { IfOk result (λ list. list ≡ sent_by_stimulus (Advance moment) self.old) }
        ensures readable { IfOk result AreReadable }
        ensures ok { OnOk result (self.new ≡ after_stimulus (Advance moment) self.old) }
        ensures err { OnErr result (self.new ≡ self.old) }
    {
        let messages = self.due(moment)?;
        self.pass(moment);
        Ok(messages)
    }
}

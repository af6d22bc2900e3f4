//! What was told, for contracts alone.

ghost use Rattle.std.specs.Prelude.{◌≡◌, ◌≤◌, length, false, IfOk};
ghost use Rattle.telling_world.specs.Story.{untold, noted, opened, came, started, gave, took, ended, sent, received, HoldsItem, HoldsTaken, Spelled, is_byte};

use crate::note::Note;
use http_server::Log;
use of_types::Dpid;
use outside::{GiveFault, Item, LinkFault, NextFault, OpenFault, Short, StartFault, Taken};
use std::marker::Model;

/// What was told. It takes no memory: nothing reads it when the program runs.
#[derive(Drop)]
pub(crate) struct Story {
    notes: Log<Note, ()>,
}

impl Model for Story {
    ghost use Rattle.telling_world.specs.Story.{StoryData, told, NoneWait};

    ghost Value = { StoryData };

    ghost view = { λ s. (told s.notes.items).story };

    ghost invariant = { λ s. NoneWait s.notes.items };
}

/// Notes these bytes, one by one.
#[tactic(auto, using(crate::specs::laws::NoteLaws::spelled_next, crate::specs::laws::NoteLaws::spelled_none))]
fn spell(notes: &mut Log<Note, ()>, bytes: &[u8])
    ensures { Spelled bytes.now notes.old.items notes.new.items }
{
    for byte in bytes {
        *notes = notes.and(&Note::Byte(*byte), &());
    }
}

impl Story {
    /// Nothing was told yet.
    #[tactic(auto, using(crate::specs::laws::NoteLaws::none_noted))]
    pub(crate) fn new() -> Story
        ensures { result ≡ untold }
    {
        Story { notes: Log::new() }
    }

    /// Notes this, with these bytes.
    #[tactic(auto, using(crate::specs::laws::NoteLaws::note_kept))]
    fn note(&mut self, bytes: &[u8], note: Note)
        requires { is_byte note ≡ false }
        ensures { self.new ≡ noted note bytes.now self.old }
    {
        spell(&mut self.notes, bytes);
        self.notes = self.notes.and(&note, &());
    }

    /// The world was opened, or not.
    #[tactic(auto, unfolding(crate::specs::Story::noted, crate::specs::Story::opened, outside::specs::Calls::open_steps))]
    pub(crate) fn opened(&mut self, answer: &Result<(), OpenFault>)
        ensures { self.new ≡ opened answer.now self.old }
    {
        let note = match answer {
            Ok(()) => Note::Opened,
            Err(OpenFault::Shut) => Note::Shut,
            Err(OpenFault::Short) => Note::Short,
        };
        self.note(&[], note);
    }

    /// This came next, or nothing did.
    #[tactic(auto, unfolding(crate::specs::Story::noted, crate::specs::Story::came, outside::specs::Calls::next_steps, outside::specs::Calls::item_step))]
    pub(crate) fn came(&mut self, answer: &Result<Item, NextFault>, buf: &[u8])
        requires { IfOk answer.now (λ item. HoldsItem item buf.now) }
        ensures { self.new ≡ came answer.now buf.now self.old }
    {
        match answer {
            Ok(Item::From(dpid, length)) => self.note(&buf[..*length], Note::From(*dpid)),
            Ok(Item::Joined(dpid, length)) => self.note(&buf[..*length], Note::Joined(*dpid)),
            Ok(Item::Left(dpid)) => self.note(&[], Note::Left(*dpid)),
            Ok(Item::Moment(moment)) => self.note(&[], Note::Moment(*moment)),
            Ok(Item::Idle) => self.note(&[], Note::Idle),
            Ok(Item::End) => self.note(&[], Note::End),
            Err(NextFault::Failed) => self.note(&[], Note::Untellable),
            Err(NextFault::Short) => self.note(&[], Note::Short),
        }
    }

    /// An application was started, or not.
    #[tactic(auto, unfolding(crate::specs::Story::noted, crate::specs::Story::started, outside::specs::Calls::start_steps))]
    pub(crate) fn started(&mut self, app: u32, answer: &Result<(), StartFault>)
        ensures { self.new ≡ started app answer.now self.old }
    {
        let note = match answer {
            Ok(()) => Note::Started(app),
            Err(StartFault::NotStarted) => Note::NotStarted(app),
            Err(StartFault::Short) => Note::Short,
        };
        self.note(&[], note);
    }

    /// An application was given bytes, or not.
    #[tactic(auto, unfolding(crate::specs::Story::noted, crate::specs::Story::gave, outside::specs::Calls::give_steps))]
    pub(crate) fn gave(&mut self, app: u32, bytes: &[u8], answer: &Result<(), GiveFault>)
        ensures { self.new ≡ gave app bytes.now answer.now self.old }
    {
        match answer {
            Ok(()) => self.note(bytes, Note::Gave(app)),
            Err(GiveFault::Gone) => self.note(bytes, Note::Gone(app)),
            Err(GiveFault::Short) => self.note(&[], Note::Short),
        }
    }

    /// Bytes were taken of an application, or not.
    #[tactic(auto, unfolding(crate::specs::Story::noted, crate::specs::Story::took, outside::specs::Calls::take_steps))]
    pub(crate) fn took(&mut self, app: u32, answer: &Result<Taken, Short>, buf: &[u8])
        requires { IfOk answer.now (λ what. HoldsTaken what buf.now) }
        ensures { self.new ≡ took app answer.now buf.now self.old }
    {
        let room = buf.len();
        match answer {
            Ok(Taken::Some(length)) => self.note(&buf[..*length], Note::Took(app, room)),
            Ok(Taken::Closed) => self.note(&[], Note::Closed(app, room)),
            Ok(Taken::Silent) => self.note(&[], Note::Silent(app, room)),
            Err(_) => self.note(&[], Note::Short),
        }
    }

    /// An application was ended.
    #[tactic(auto, unfolding(crate::specs::Story::noted, crate::specs::Story::ended, outside::specs::Calls::end_steps))]
    pub(crate) fn ended(&mut self, app: u32)
        ensures { self.new ≡ ended app self.old }
    {
        self.note(&[], Note::Ended(app));
    }

    /// A message was sent to a switch, or not.
    #[tactic(auto, unfolding(crate::specs::Story::noted, crate::specs::Story::sent, outside::specs::Calls::send_steps))]
    pub(crate) fn sent(&mut self, dpid: Dpid, frame: &[u8], answer: &Result<(), LinkFault>)
        ensures { self.new ≡ sent dpid frame.now answer.now self.old }
    {
        match answer {
            Ok(()) => self.note(frame, Note::Sent(dpid)),
            Err(LinkFault::Failed) => self.note(&[], Note::Unsent(dpid)),
            Err(LinkFault::Short) => self.note(&[], Note::ShortOf(dpid)),
        }
    }

    /// A message of a switch was got, or not.
    #[tactic(auto, unfolding(crate::specs::Story::noted, crate::specs::Story::received, outside::specs::Calls::receive_steps))]
    pub(crate) fn received(&mut self, dpid: Dpid, answer: &Result<usize, LinkFault>, buf: &[u8])
        requires { IfOk answer.now (λ n. n ≤ length buf.now) }
        ensures { self.new ≡ received dpid answer.now buf.now self.old }
    {
        match answer {
            Ok(length) => self.note(&buf[..*length], Note::Got(dpid)),
            Err(LinkFault::Failed) => self.note(&[], Note::Unreceived(dpid)),
            Err(LinkFault::Short) => self.note(&[], Note::ShortOf(dpid)),
        }
    }
}

//! Recordings: a policy, the line `---`, and the session that does a run again under it.

ghost use Rattle.std.specs.Prelude.{◌≡◌, ◌-◌, length, map, IfOk, slice_get, string_bytes};
ghost use Rattle.crash_policy.specs.Policies.{app_value};
ghost use Rattle.outside.specs.Seen.{Shown};
ghost use Rattle.session_record.specs.Texts.{IsText};
ghost use Rattle.session_record.specs.Remarks.{AreRemarks};
ghost use Rattle.legosdn.specs.Recorded.{Kept, ends_line, recording_text, IsRecording};

use crate::kept_source::KeptSource;
use crate::policy::ReadProgram;
use crate::top::app_names;
use command_words::{Command, read_words};
use crash_policy::read_policy;
use lego_io::{Sink, write_all};
use of_types::ByteList;
use outside::{Told, World};
use session_record::Recorder;
use std::alloc::{AllocError, Global};
use telling_world::Telling;
use trace_world::{Aside, Traced};

/// The first line of a recording that stands among other things.
const FIRST_LINE: &[u8] = b"# recording: a policy, and a session that does the run again\n";

/// What is written in place of a recording that memory is short for.
const NO_MEMORY: &[u8] = b"# no recording: no memory\n";

/// A world whose run can be written down as a session.
pub trait Recorded: World {
    // What it keeps of its run beside its switches and what happened.
    ghost kept: { Self → Kept };

    /// Spells the run so far as a session that does it again. The application with index i has the name at position i.
    fn session(&self, names: &[String]) -> Result<ByteList, AllocError>
        ensures { IfOk result (IsText (Shown Self.Tells (Self.seen self.now)) (Self.seen self.now) (map (λ s. string_bytes s) names.now) (kept self.now).deeds (kept self.now).losses) };

    /// Comments on a text of this run, line by line: on what no line of a session can say, with its count.
    fn remarks(&self, session: &[u8]) -> Result<String, AllocError>
        ensures { IfOk result (λ remarks. AreRemarks (string_bytes remarks)) };

    /// Hands out the place of what is told before the next act, if its acts are told.
    fn aside(&self) -> Option<Aside>;
}

impl<W: Told + Drop, E: Sink + Drop> Recorded for Traced<Recorder<W>, E> {
    ghost kept = { λ s. record { deeds = s.log; losses = s.links.losses.items } };

    fn session(&self, names: &[String]) -> Result<ByteList, AllocError> {
        self.world().text(names)
    }

    fn remarks(&self, session: &[u8]) -> Result<String, AllocError> {
        self.world().remarks(session)
    }

    fn aside(&self) -> Option<Aside> {
        Traced::aside(self)
    }
}

impl<W: Recorded + Drop> Recorded for Telling<W> {
    ghost kept = { λ t. W.kept t.world };

    #[tactic(auto, using(session_record::specs::laws::SpelledLaws::text_unshown))]
    fn session(&self, names: &[String]) -> Result<ByteList, AllocError> {
        self.shows_nothing();
        self.world().session(names)
    }

    fn remarks(&self, session: &[u8]) -> Result<String, AllocError> {
        self.world().remarks(session)
    }

    fn aside(&self) -> Option<Aside> {
        self.world().aside()
    }
}

/// Tells whether a text is empty, or ends with LF.
fn is_ended(text: &[u8]) -> bool
    ensures { result ≡ ends_line (slice_get text.now (length text.now - 1)) }
{
    match text.last() {
        Some(byte) => *byte == b'\n',
        None => true,
    }
}

/// Spells a recording of this policy and session, with comments in front of the session.
#[tactic(auto, unfolding(crate::specs::Recorded::recording_text, crate::specs::Recorded::whole_lines))]
fn text_of(
    alloc: Global,
    policy: &[u8],
    remarks: &[u8],
    session: &[u8],
) -> Result<Vec<u8>, AllocError>
    ensures { IfOk result (λ out. out.items ≡ recording_text policy.now remarks.now session.now) }
{
    let mut out = Vec::from_slice(alloc, policy)?;
    if !is_ended(policy) {
        out.push(b'\n')?;
    }
    out.extend_from_slice(b"---\n")?;
    out.extend_from_slice(remarks)?;
    out.extend_from_slice(session)?;
    Ok(out)
}

/// Gives the recording of a run under this policy.
pub fn recording_of<W: Recorded>(
    alloc: Global,
    read: &ReadProgram,
    live: &W,
) -> Result<Vec<u8>, AllocError>
    ensures { IfOk result (λ out. IsRecording W.Tells (W.seen live.now) (map app_value read.now.program.apps.items) read.now.text.items (W.kept live.now) out.items) }
{
    let names = app_names(alloc, &read.program.apps)?;
    let session = live.session(&names)?;
    let remarks = live.remarks(session.as_slice())?;
    text_of(alloc, &read.text, remarks.as_bytes(), session.as_slice())
}

/// The recording of a run under a policy of this text, with its comments first, or nothing where it is none.
fn commented_of<W: Told + Drop>(
    alloc: Global,
    recorder: &Recorder<W>,
    policy: &[u8],
) -> Result<Vec<u8>, AllocError> {
    let mut out = Vec::new(alloc);
    let Ok(file) = read_policy(alloc, policy) else {
        return Ok(out);
    };
    let names = app_names(alloc, &file.apps)?;
    let session = recorder.text(&names)?;
    out.extend_from_slice(FIRST_LINE)?;
    out.extend_from_slice(recorder.remarks(session.as_slice())?.as_bytes())?;
    out.extend_from_slice(&text_of(alloc, policy, &[], session.as_slice())?)?;
    Ok(out)
}

/// Whether these words are the command `run`.
fn is_run(alloc: Global, words: &[String]) -> bool {
    matches!(read_words(alloc, words), Ok(Some(Command::Run { .. })))
}

/// Whether these words are the command `record`.
pub fn is_record(alloc: Global, words: &[String]) -> bool {
    matches!(read_words(alloc, words), Ok(Some(Command::Record { .. })))
}

/// Writes the recording of a run to the sink, where the words are the command of one. What was read of the source is the policy.
pub fn write_recording<S, W: Told + Drop, K: Sink>(
    alloc: Global,
    words: &[String],
    source: &KeptSource<S>,
    recorder: &Recorder<W>,
    sink: &mut K,
) {
    if !is_run(alloc, words) {
        return;
    }
    let recording = match source.kept() {
        Some(policy) => commented_of(alloc, recorder, policy),
        None => Err(AllocError),
    };
    let _ = match recording {
        Ok(text) => write_all(sink, &text),
        Err(AllocError) => write_all(sink, NO_MEMORY),
    };
}

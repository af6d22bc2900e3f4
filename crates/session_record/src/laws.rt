//! Laws of recordings, each the contract of a function that does nothing.

ghost use Rattle.session_record.specs.Readings.{SwitchIsRead, JoinIsRead, LeaveIsRead, MomentIsRead, FrameIsRead, RawIsRead, PortIsRead, CountIsRead, LossIsRead, StartIsRead, ReplyIsRead, TextIsRead};

/// Lines as a recording writes them are read as what they were written for.
pub fn lines_are_read()
    ensures switch { SwitchIsRead }
    ensures join { JoinIsRead }
    ensures leave { LeaveIsRead }
    ensures moment { MomentIsRead }
    ensures frame { FrameIsRead }
    ensures raw { RawIsRead }
    ensures port { PortIsRead }
    ensures count { CountIsRead }
    ensures loss { LossIsRead }
    ensures start { StartIsRead }
    ensures reply { ReplyIsRead }
{}

/// A text of lines that are read one after the other is read as the session that they make.
pub fn texts_are_read()
    ensures { TextIsRead }
{}

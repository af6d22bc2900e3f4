//! What became of calls for applications.

ghost use Rattle.std.specs.Prelude.{◌≡◌};
ghost use Rattle.session_record.specs.Deeds as deeds;
ghost use Rattle.session_record.specs.Ends.{end_in};

/// What became of a call for an application.
#[derive(Clone, Copy, Debug, PartialEq, Eq)]
pub enum DeedKind {
    /// It was to start: an attempt begins.
    Started,
    /// The attempt does not stand.
    Refused,
    /// It was to be given an Event: a turn begins.
    Event,
    /// The Event could not be given.
    Unasked,
    /// It was given another frame: a checkpoint, or an Answer.
    Given,
    /// That frame could not be given.
    Gone,
    /// It gave bytes.
    Piece,
    /// It has closed its end.
    Closed,
    /// It gave nothing in time.
    Silent,
}

/// How the bytes of an application end, as far as it was told.
#[derive(Clone, Copy, Debug, PartialEq, Eq)]
pub(crate) enum Ending {
    /// It has closed its end.
    Closes,
    /// It gave nothing in time.
    Stalls,
    /// Nobody asked for more.
    Untold,
}

impl DeedKind {
    /// Tells whether an attempt to start begins.
    pub(crate) fn is_started(self) -> bool
        ensures { result ≡ deeds.is_started self }
    {
        matches!(self, DeedKind::Started)
    }

    /// Tells whether a turn begins.
    pub(crate) fn is_event(self) -> bool
        ensures { result ≡ deeds.is_event self }
    {
        matches!(self, DeedKind::Event)
    }

    /// Tells whether an attempt did not stand.
    pub(crate) fn is_refused(self) -> bool
        ensures { result ≡ deeds.is_refused self }
    {
        matches!(self, DeedKind::Refused)
    }

    /// Tells whether an Event could not be given.
    pub(crate) fn is_unasked(self) -> bool
        ensures { result ≡ deeds.is_unasked self }
    {
        matches!(self, DeedKind::Unasked)
    }

    /// Tells whether a frame that is no Event was given.
    pub(crate) fn is_given(self) -> bool
        ensures { result ≡ deeds.is_given self }
    {
        matches!(self, DeedKind::Given)
    }

    /// Tells whether a frame could not be given.
    pub(crate) fn is_lost(self) -> bool
        ensures { result ≡ deeds.is_lost self }
    {
        matches!(self, DeedKind::Unasked | DeedKind::Gone)
    }

    /// Tells how the bytes end behind this deed.
    pub(crate) fn ending(self, before: Ending) -> Ending
        ensures { end_in result ≡ deeds.end_by (end_in before) self }
    {
        match self {
            DeedKind::Piece => Ending::Untold,
            DeedKind::Closed => Ending::Closes,
            DeedKind::Silent => Ending::Stalls,
            _ => before,
        }
    }
}

//! The kinds of frames and of events, and their numbers.

ghost use Rattle.std.specs.Prelude.{◌≡◌};
ghost use Rattle.app_frames.specs.Kinds.{app_kind_of, number_of_app, host_kind_of, number_of_host, event_kind_of, number_of_event};

use crate::frame::EventKind;

/// A kind of frame from an application.
#[derive(Clone, Copy, Debug, PartialEq, Eq)]
pub(crate) enum AppKind {
    Message = 1,
    Save,
    Keep,
    Undo,
    Done,
    Ready,
}

/// A kind of frame from the host.
#[derive(Clone, Copy, Debug, PartialEq, Eq)]
pub(crate) enum HostKind {
    Restore = 1,
    Event,
    Answer,
}

impl AppKind {
    /// The kind of a number.
    #[tactic(auto, unfolding(crate::specs::Kinds::app_kind_of))]
    pub(crate) fn from_number(number: u8) -> Option<AppKind>
        ensures { result ≡ app_kind_of number }
    {
        match number {
            1 => Some(AppKind::Message),
            2 => Some(AppKind::Save),
            3 => Some(AppKind::Keep),
            4 => Some(AppKind::Undo),
            5 => Some(AppKind::Done),
            6 => Some(AppKind::Ready),
            _ => None,
        }
    }

    /// The kind's number.
    pub(crate) fn number(self) -> u8
        ensures { result ≡ number_of_app self }
    {
        self as u8
    }
}

impl HostKind {
    /// The kind of a number.
    #[tactic(auto, unfolding(crate::specs::Kinds::host_kind_of))]
    pub(crate) fn from_number(number: u8) -> Option<HostKind>
        ensures { result ≡ host_kind_of number }
    {
        match number {
            1 => Some(HostKind::Restore),
            2 => Some(HostKind::Event),
            3 => Some(HostKind::Answer),
            _ => None,
        }
    }

    /// The kind's number.
    pub(crate) fn number(self) -> u8
        ensures { result ≡ number_of_host self }
    {
        self as u8
    }
}

impl EventKind {
    /// The kind of a number.
    #[tactic(auto, unfolding(crate::specs::Kinds::event_kind_of))]
    pub(crate) fn from_number(number: u8) -> Option<EventKind>
        ensures { result ≡ event_kind_of number }
    {
        match number {
            1 => Some(EventKind::Join),
            2 => Some(EventKind::Leave),
            3 => Some(EventKind::PacketIn),
            4 => Some(EventKind::FlowRemoved),
            5 => Some(EventKind::PortStatus),
            6 => Some(EventKind::SwitchError),
            _ => None,
        }
    }

    /// The kind's number.
    pub(crate) fn number(self) -> u8
        ensures { result ≡ number_of_event self }
    {
        self as u8
    }
}

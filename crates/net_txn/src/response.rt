//! What comes in a wait before the reply to its barrier.

ghost use Rattle.std.specs.Prelude.{◌≡◌, ◌++◌, Some, IfErr, OnOk, OnErr};
ghost use Rattle.lego_model.specs.declared.wait.Notices.TheVariants.{Held};
ghost use Rattle.net_txn.specs.Waits.{first_of, held_notice, nothing_brought};

use crate::trouble::Trouble;
use lego_model::{Notices, Refusal};
use of_types::ByteList;
use std::alloc::{AllocError, Global};
use std::marker::Model;

/// What came in a wait: the first refusal, and the notices that are held. Contracts see the two.
#[derive(Drop, Debug)]
pub(crate) struct Response {
    alloc: Global,
    pub(crate) refusal: Option<Refusal>,
    pub(crate) notices: Vec<ByteList>,
}

impl Model for Response {
    ghost use Rattle.net_txn.specs.Waits.{Brought};

    ghost Value = { Brought };

    ghost view = { λ s. record { refusal = s.refusal; notices = s.notices.items } };
}

/// Appends a copy of a notice.
fn push_copy(alloc: Global, notices: &mut Vec<ByteList>, message: &[u8]) -> Result<(), AllocError>
    ensures { OnOk result (notices.new.items ≡ notices.old.items ++ held_notice Held message.now) }
{
    notices.push(ByteList::from_slice(alloc, message)?)?;
    Ok(())
}

impl Response {
    /// Returns the response of a wait in which nothing came.
    pub(crate) fn new(alloc: Global) -> Response
        ensures { result ≡ nothing_brought }
    {
        Response {
            alloc,
            refusal: None,
            notices: Vec::new(alloc),
        }
    }

    /// Keeps the first refusal.
    pub(crate) fn note(&mut self, refusal: Refusal)
        ensures { self.new ≡ record self.old { refusal = first_of self.old.refusal (Some refusal) } }
    {
        if self.refusal.is_none() {
            self.refusal = Some(refusal);
        }
    }

    /// Holds a copy of a notice, where notices are held. It fails only there.
    pub(crate) fn hold(&mut self, notices: Notices, message: &[u8]) -> Result<(), Trouble>
        ensures ok { OnOk result (self.new ≡ record self.old { notices = self.old.notices ++ held_notice notices message.now }) }
        ensures err { OnErr result (notices ≡ Held) }
        ensures full { IfErr result (λ t. t ≡ Trouble.Full) }
    {
        match notices {
            Notices::Held => match push_copy(self.alloc, &mut self.notices, message) {
                Ok(()) => Ok(()),
                Err(_) => Err(Trouble::Full),
            },
            Notices::Dropped | Notices::Kept => Ok(()),
        }
    }
}

//! The one object that stands for the switches and the applications.

ghost use Rattle.std.specs.Prelude.{◌≡◌, ◌<◌, ◌≤◌, ◌↔◌, length, IsTrue, IsOk};
ghost use Rattle.of_wire.specs.Reading.{reading_of};
ghost use Rattle.outside.specs.Seen.{Seen};
ghost use Rattle.outside.specs.Calls.{most_message, Opens, Nexts, Starts, Gives, Takes, Ends, Sends, Receives, PartsWith};
ghost use Rattle.outside.specs.Parting.{TellsMessage, GivesMessage};

use crate::faults::{GiveFault, LinkFault, NextFault, OpenFault, Short, StartFault};
use crate::item::{Item, Taken};
use of_types::Dpid;

/// The switches and the applications, so that one history orders all that happens between them and the engine.
/// Applications are named by their index, switches by their number.
pub trait World {
    // Whether it tells its history: nothing is of this type where it tells nothing, one value where it tells.
    ghost Tells: { Type 0 };

    // What else it was given and never changes, as the scripts of applications.
    ghost Own: { Type 0 };

    // Whether its switches can be parted with: nothing is of this type where they cannot, one value where they can. Such a world
    // itself ends the link of a switch that sends bytes which are no message, and gives none of them.
    ghost CanPart: { Type 0 };

    // What is seen of it.
    ghost seen: { Self → Seen Own };

    /// Opens the world, with its switches' connections at this port.
    fn open(&mut self, port: u16) -> Result<(), OpenFault>
        ensures { Opens Tells (seen self.old) (seen self.new) result };

    /// Tells what comes next. Where that has bytes, they stand in the front of the buffer.
    fn next(&mut self, buf: &mut [u8]) -> Result<Item, NextFault>
        requires { most_message ≤ length buf.old }
        ensures nexts { Nexts Tells (seen self.old) (seen self.new) result buf.new }
        ensures message { CanPart → TellsMessage result buf.new };

    /// Starts the application by these words.
    fn start(&mut self, app: u32, words: &[String]) -> Result<(), StartFault>
        ensures { Starts Tells app (seen self.old) (seen self.new) result };

    /// Gives the bytes to the application.
    fn give(&mut self, app: u32, bytes: &[u8]) -> Result<(), GiveFault>
        ensures { Gives Tells app bytes.now (seen self.old) (seen self.new) result };

    /// Takes bytes from the application into the front of the buffer.
    fn take(&mut self, app: u32, buf: &mut [u8]) -> Result<Taken, Short>
        requires { 0 < length buf.old }
        ensures { Takes Tells app (seen self.old) (seen self.new) result buf.new };

    /// Ends the application, if it was started. It takes no memory.
    fn end(&mut self, app: u32)
        ensures { Ends Tells app (seen self.old) (seen self.new) };

    /// Sends one message to the switch. Where this answers `Failed` while the switch is joined, the switch is lost: it is
    /// out, with all that it sent and was not taken yet, until it joins again.
    fn send(&mut self, dpid: Dpid, frame: &[u8]) -> Result<(), LinkFault>
        requires { IsOk (reading_of frame.now) }
        ensures { Sends Tells dpid frame.now (seen self.old) (seen self.new) result };

    /// Takes one whole message from the switch into the front of the buffer, and answers how many bytes it has. Where
    /// this answers `Failed` while the switch is joined, the switch is lost, as by `send`.
    fn recv(&mut self, dpid: Dpid, buf: &mut [u8]) -> Result<usize, LinkFault>
        requires { most_message ≤ length buf.old }
        ensures receives { Receives Tells dpid (seen self.old) (seen self.new) result buf.new }
        ensures message { CanPart → GivesMessage result buf.new };

    /// Tells whether its switches can be parted with.
    fn can_part(&self) -> bool
        ensures { IsTrue result ↔ CanPart };

    /// Parts with a switch that broke the rules of its link: the link ends. A switch that is joined is lost, as where `send`
    /// answers `Failed`. Where switches cannot be parted with, nothing is promised.
    fn part(&mut self, dpid: Dpid)
        ensures { CanPart → PartsWith Tells dpid (seen self.old) (seen self.new) };
}

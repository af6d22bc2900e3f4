//! Laws of releases, each the contract of a function that does nothing.

ghost use Rattle.std.specs.Prelude.{ℕ, List, ◌++◌};
ghost use Rattle.app_frames.specs.declared.frame.Event.{Event};
ghost use Rattle.lego_model.specs.declared.fault.TxnFault.{TxnFault};
ghost use Rattle.lego_model.specs.Packets.{Held, HeldBack};
ghost use Rattle.outside.specs.Seen.{Seen, Continues};
ghost use Rattle.outside.specs.State.{state};
ghost use Rattle.outside.specs.Conforming.{Conforming};
ghost use Rattle.net_txn.specs.Net.{NetState};
ghost use Rattle.net_txn.specs.Releases.{ReleasesAll, StopsRelease};
ghost use Rattle.net_txn.specs.Undos.{AreJoined};
ghost use Rattle.switch_laws.specs.Released.{MovesOrLoses, ReleaseShown, StopsFor};
ghost use Rattle.switch_laws.specs.Since.{Ready};
ghost use Rattle.switch_laws.specs.Sound.{Sound};

use outside::World;

/// A release in a world that keeps its word: as they are shown the switches stand then as the reference
/// controller's do that releases the same packets and loses the same of their switches, its events joined the queue, and all is ready
/// again. In any world that tells, where each switch that has a view was joined, each switch moved by the packets that were sent
/// to it alone, or was lost, and the history released them in order.
pub fn packets_are_shown<W: World>()
    ensures shown { (held : HeldBack) (sent : List Held) (old new : Seen W.Own) (net now_net : NetState) (queue now_queue : List Event) → W.Tells → Conforming new
        → ReleasesAll W.Tells held.packets sent old new net now_net (queue ++ held.notices) now_queue → Ready old net → Sound (state old) → ReleaseShown held sent old new net now_net queue now_queue }
    ensures moved { (held sent : List Held) (old new : Seen W.Own) (net now_net : NetState) (queue now_queue : List Event) → W.Tells → AreJoined net.views (state old)
        → ReleasesAll W.Tells held sent old new net now_net queue now_queue → MovesOrLoses sent old new }
{}

/// A release that stopped, in a world that keeps its word: memory ran out, or a packet made its switch send more messages than a
/// wait takes.
pub fn stopped_releases_are_plain<W: World>()
    ensures { (start : ℕ) (old new : Seen W.Own) (net : NetState) (queue : List Event) (fault : TxnFault) → W.Tells → Conforming new → Continues W.Tells old new
        → StopsRelease W.Tells start old new net queue fault → Ready old net → StopsFor old new fault }
{}

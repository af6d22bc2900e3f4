//! Laws of switches as their engine shows them, each the contract of a function that does nothing.

ghost use Rattle.std.specs.Prelude.{◌≡◌, ℕ, List, [], map, filter};
ghost use Rattle.of_types.specs.declared.journal.Stimulus.{Stimulus};
ghost use Rattle.of_types.specs.declared.journal.Stimulus.TheVariants.{Advance};
ghost use Rattle.of_match.specs.declared.key.Key.{Key};
ghost use Rattle.of_wire.specs.declared.bodies.PacketOut.{PacketOut as Packet};
ghost use Rattle.of_wire.specs.declared.bodies.Stats.{Stats as StatsBody};
ghost use Rattle.of_wire.specs.declared.message.Message.TheVariants.{PacketOut, StatsRequest};
ghost use Rattle.flow_table.specs.declared.entry.Entry.{Entry};
ghost use Rattle.flow_table.specs.declared.lost.Lost.{Lost};
ghost use Rattle.flow_table.specs.declared.view.ViewRow.{ViewRow};
ghost use Rattle.flow_table.specs.Corrected.{shown_entry};
ghost use Rattle.flow_table.specs.Expiry.{by_deadline, deadline, expiry_notices, is_due, notice_at};
ghost use Rattle.flow_table.specs.Switch.{SwitchState};
ghost use Rattle.flow_table.specs.Step.{flow_removed, after_message, sent_by_message, after_stimulus, sent_by_stimulus};
ghost use Rattle.undo_laws.specs.CorrectedSwitch.{corrected_switch, GoesAlong, GoTogether, AskAll, asks_shown, IsNoMoment, HaveRest, owner_flags, is_asked_for};

/// What happens to a switch happens to what is shown of it, and so does a PACKET_OUT; it sends the same. Where time passes this
/// is so if each entry goes together with what is shown of it. Of the entries that go then, notices of those are shown for which
/// their owners asked, in the order of the switch's own, each of the entry as it is shown.
pub fn switches_are_shown()
    ensures stimulus { (shown : Entry → Entry) → GoesAlong shown → (x : Stimulus) (s : SwitchState) → IsNoMoment x
        → after_stimulus x (corrected_switch shown s) ≡ corrected_switch shown (after_stimulus x s) }
    ensures sent { (shown : Entry → Entry) → GoesAlong shown → (x : Stimulus) (s : SwitchState) → IsNoMoment x
        → sent_by_stimulus x (corrected_switch shown s) ≡ sent_by_stimulus x s }
    ensures packet { (shown : Entry → Entry) → GoesAlong shown → (p : Packet) (s : SwitchState)
        → after_message (PacketOut p) (corrected_switch shown s) ≡ corrected_switch shown (after_message (PacketOut p) s) }
    ensures packet_sent { (shown : Entry → Entry) → GoesAlong shown → (xid : ℕ) (p : Packet) (s : SwitchState)
        → sent_by_message xid (PacketOut p) (corrected_switch shown s) ≡ sent_by_message xid (PacketOut p) s }
    ensures moment { (shown : Entry → Entry) → GoesAlong shown → (now : ℕ) (s : SwitchState) → GoTogether shown s.table.entries
        → after_stimulus (Advance now) (corrected_switch shown s) ≡ corrected_switch shown (after_stimulus (Advance now) s) }
    ensures notices { (shown : Entry → Entry) → GoesAlong shown → (now : ℕ) (es : List Entry) → GoTogether shown es
        → expiry_notices now (map shown es) ≡ map (λ e. notice_at (deadline e) (shown e)) (filter (asks_shown shown) (by_deadline (filter (is_due now) es))) }
{}

/// The engine shows an entry with what it has lost and with its owner's flags. What happens to an entry happens to it as it is
/// shown; both go together where it has what is left of its hard timeout, and so where it has lost nothing. Where a switch has
/// SEND_FLOW_REM in each entry and none has lost anything, a notice that is shown says what the switch's own says. Where none has
/// lost anything, a switch answers a request of statistics as it is shown: they tell no flags.
pub fn owners_see()
    ensures along { (rows : List ViewRow) (lost : List (Key × Lost)) → GoesAlong (shown_entry rows lost) }
    ensures together { (rows : List ViewRow) (lost : List (Key × Lost)) (es : List Entry) → HaveRest lost es → GoTogether (shown_entry rows lost) es }
    ensures nothing_lost { (rows : List ViewRow) (es : List Entry) → HaveRest [] es }
    ensures notices { (rows : List ViewRow) (now : ℕ) (es : List Entry) → AskAll es
        → map flow_removed (expiry_notices now (map (shown_entry rows []) es)) ≡ map flow_removed (filter (is_asked_for (owner_flags rows)) (expiry_notices now es)) }
    ensures statistics { (rows : List ViewRow) (xid : ℕ) (m : StatsBody) (s : SwitchState)
        → sent_by_message xid (StatsRequest m) (corrected_switch (shown_entry rows []) s) ≡ sent_by_message xid (StatsRequest m) s }
{}

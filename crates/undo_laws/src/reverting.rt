//! Laws of the messages that revert a log backwards, each the contract of a function that does nothing.

ghost use Rattle.std.specs.Prelude.{◌≡◌, ◌≢◌, ℕ, ◌+◌, ◌-◌, ◌%◌, ◌<◌, ◌≤◌, List, [], ◌∷◌, ◌++◌, length, None, IsSome};
ghost use Rattle.of_match.specs.declared.key.Key.{Key};
ghost use Rattle.of_action.specs.declared.action.Action.{Action};
ghost use Rattle.of_wire.specs.declared.bodies.FlowMod.{FlowMod};
ghost use Rattle.flow_table.specs.declared.entry.Entry.{Entry};
ghost use Rattle.flow_table.specs.Table.{TableState, entry_at, with_entry};
ghost use Rattle.flow_table.specs.Change.{key_in, new_entry, refusal, changed, change, notices_of};
ghost use Rattle.flow_table.specs.Expiry.{deadline};
ghost use Rattle.flow_timeouts.specs.Timeouts.{remaining_of};
ghost use Rattle.undo_laws.specs.Serials.{IsSerialed};
ghost use Rattle.undo_laws.specs.Log.{Inverse, Remove, PutBack, GiveActions, back, logged, logged_by, undo_one, undo};
ghost use Rattle.undo_laws.specs.Reverting.{Reverts, CanRevert, SameKeys};

/// A log can be reverted backwards: where nothing is logged, after one change more, after an undo of its newest part,
/// and in each table with the same keys.
pub fn logs_can_be_reverted()
    ensures nothing { (cap now : ℕ) (t : TableState) → length t.entries ≤ cap → CanRevert cap now [] t }
    ensures changed { (cap now : ℕ) (log : List Inverse) (m : FlowMod) (t : TableState) → IsSerialed t
        → refusal cap m t.entries ≡ None → CanRevert cap now log t → CanRevert cap now (log ++ logged m t.entries) (changed now m t) }
    ensures change { (cap now : ℕ) (log : List Inverse) (m : FlowMod) (t : TableState) → IsSerialed t
        → CanRevert cap now log t → CanRevert cap now (log ++ logged_by cap m t.entries) (change cap now m t) }
    ensures undone { (cap now : ℕ) (log newer : List Inverse) (t : TableState) → CanRevert cap now (log ++ newer) t
        → CanRevert cap now log (undo now newer t) }
    ensures same_keys { (cap now : ℕ) (log : List Inverse) (t u : TableState) → IsSerialed t → IsSerialed u
        → SameKeys t.entries u.entries → CanRevert cap now log t → CanRevert cap now log u }
{}

/// No inverse of a log that can be reverted is refused: the table has room, nothing overlaps that is looked at, and an
/// entry whose actions are to be given back stands.
pub fn no_inverse_is_refused()
    ensures { (cap now : ℕ) (x : Inverse) (log : List Inverse) (m : FlowMod) (t : TableState)
        → CanRevert cap now (x ∷ log) t → Reverts x m → refusal cap m (undo now log t).entries ≡ None }
{}

/// What the messages do. The ADD of an entry gives it but for flags, hard timeout, age and counters; with what is
/// left of the hard timeout it goes when the old one would have gone, its idle time begun anew. Only a removal tells.
pub fn messages_revert()
    ensures removal { (now : ℕ) (k : Key) (m : FlowMod) (t : TableState) → Reverts (Remove k) m
        → changed now m t ≡ undo_one now (Remove k) t }
    ensures actions { (now : ℕ) (k : Key) (actions : List Action) (m : FlowMod) (t : TableState)
        → IsSome (entry_at k t.entries) → Reverts (GiveActions k actions) m
        → changed now m t ≡ undo_one now (GiveActions k actions) t }
    ensures addition { (now : ℕ) (e : Entry) (m : FlowMod) (t : TableState) → Reverts (PutBack e) m
        → changed now m t ≡ record { entries = with_entry (new_entry now t.next m) t.entries; next = t.next + 1 } }
    ensures entry { (now serial : ℕ) (e : Entry) (m : FlowMod) → key_in m ≡ e.key → m.actions ≡ e.actions
        → m.cookie ≡ e.cookie → m.idle ≡ e.idle
        → new_entry now serial m
        ≡ record (back now serial e) { hard = m.hard; flags = m.flags % 2; installed = now; packets = 0; bytes = 0 } }
    ensures deadline { (now serial : ℕ) (e : Entry) (m : FlowMod) → e.installed ≤ now
        → (e.hard ≢ 0 → now - e.installed < e.hard) → m.idle ≡ e.idle → m.hard ≡ remaining_of e.hard (now - e.installed)
        → deadline (new_entry now serial m) ≡ deadline (back now serial e) }
    ensures no_notice_addition { (now : ℕ) (e : Entry) (m : FlowMod) (es : List Entry) → Reverts (PutBack e) m
        → notices_of now m es ≡ [] }
    ensures no_notice_actions { (now : ℕ) (k : Key) (actions : List Action) (m : FlowMod) (es : List Entry)
        → Reverts (GiveActions k actions) m → notices_of now m es ≡ [] }
{}

//! Laws of tables as their engine shows them, each the contract of a function that does nothing.

ghost use Rattle.std.specs.Prelude.{◌≡◌, ℕ, true, false, List, map, filter, IsSome};
ghost use Rattle.of_match.specs.declared.key.Key.{Key};
ghost use Rattle.of_action.specs.declared.action.Action.{Action};
ghost use Rattle.of_wire.specs.declared.bodies.FlowMod.{FlowMod};
ghost use Rattle.flow_table.specs.declared.entry.Entry.{Entry};
ghost use Rattle.flow_table.specs.Table.{TableState, IsTable, entry_at};
ghost use Rattle.flow_table.specs.Change.{key_in, adds, deletes, refusal, changed, new_entry};
ghost use Rattle.undo_laws.specs.Serials.{IsSerialed};
ghost use Rattle.undo_laws.specs.Log.{Remove, PutBack, GiveActions, logged, back, undo_one};
ghost use Rattle.undo_laws.specs.Reverting.{Reverts};
ghost use Rattle.undo_laws.specs.Corrected.{IsCorrection, AgreeBut, corrected, AsksTheSame};

/// A message with the engine's own flags, buffer, cookie and timeouts is refused alike and logs the same.
pub fn same_is_asked()
    ensures refusal { (cap : ℕ) (sent m : FlowMod) (es : List Entry) → AsksTheSame sent m → refusal cap sent es ≡ refusal cap m es }
    ensures logged { (sent m : FlowMod) (es : List Entry) → AsksTheSame sent m → logged sent es ≡ logged m es }
{}

/// The table as it is shown refuses what the switch's own refuses, loses the same entries, and goes through the
/// same changes. Where an entry is put in, what is shown of its key alone is new.
pub fn changes_are_shown()
    ensures serials { (shown : Entry → Entry) → IsCorrection shown → (t : TableState) → IsSerialed t → IsSerialed (corrected shown t) }
    ensures refusal { (shown : Entry → Entry) → IsCorrection shown → (cap : ℕ) (m : FlowMod) (es : List Entry)
        → refusal cap m (map shown es) ≡ refusal cap m es }
    ensures adds { (shown : Entry → Entry) → IsCorrection shown → (m : FlowMod) (es : List Entry) → adds m (map shown es) ≡ adds m es }
    ensures removed { (shown : Entry → Entry) → IsCorrection shown → (m : FlowMod) (es : List Entry)
        → filter (deletes m) (map shown es) ≡ map shown (filter (deletes m) es) }
    ensures kept { (now : ℕ) (shown : Entry → Entry) (sent m : FlowMod) (t : TableState) → IsCorrection shown → AsksTheSame sent m
        → adds m t.entries ≡ false → corrected shown (changed now sent t) ≡ changed now m (corrected shown t) }
    ensures added { (now : ℕ) (shown after : Entry → Entry) (sent m : FlowMod) (t : TableState) → IsTable t.entries
        → IsCorrection shown → IsCorrection after → AgreeBut (key_in m) shown after → AsksTheSame sent m
        → adds m t.entries ≡ true → after (new_entry now t.next sent) ≡ new_entry now t.next m
        → corrected after (changed now sent t) ≡ changed now m (corrected shown t) }
{}

/// The messages that revert inverses do to the table as it is shown what the inverses say. Where an entry is put
/// back, what is shown of its key alone is new.
pub fn inverses_are_shown()
    ensures removal { (now : ℕ) (shown : Entry → Entry) (k : Key) (m : FlowMod) (t : TableState) → IsCorrection shown
        → Reverts (Remove k) m → corrected shown (changed now m t) ≡ undo_one now (Remove k) (corrected shown t) }
    ensures actions { (now : ℕ) (shown : Entry → Entry) (k : Key) (actions : List Action) (m : FlowMod) (t : TableState)
        → IsCorrection shown → IsSome (entry_at k t.entries) → Reverts (GiveActions k actions) m
        → corrected shown (changed now m t) ≡ undo_one now (GiveActions k actions) (corrected shown t) }
    ensures put_back { (now : ℕ) (shown after : Entry → Entry) (e : Entry) (m : FlowMod) (t : TableState) → IsTable t.entries
        → IsCorrection shown → IsCorrection after → AgreeBut e.key shown after → Reverts (PutBack e) m
        → after (new_entry now t.next m) ≡ back now t.next e
        → corrected after (changed now m t) ≡ undo_one now (PutBack e) (corrected shown t) }
{}

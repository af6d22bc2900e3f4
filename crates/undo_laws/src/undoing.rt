//! Laws of logs and of undo, each the contract of a function that does nothing.

ghost use Rattle.std.specs.Prelude.{◌≡◌, ◌⊎◌, ℕ, true, List, [], ◌++◌, Option, Some};
ghost use Rattle.std.specs.Option.{option_map};
ghost use Rattle.of_match.specs.declared.key.Key.{Key};
ghost use Rattle.of_types.specs.declared.errors.OfError.{OfError};
ghost use Rattle.of_wire.specs.declared.bodies.FlowMod.{FlowMod};
ghost use Rattle.flow_table.specs.declared.entry.Entry.{Entry};
ghost use Rattle.flow_table.specs.Table.{TableState, entry_at};
ghost use Rattle.flow_table.specs.Change.{refusal, changed, change};
ghost use Rattle.flow_table.specs.Undone.{undone, used_or};
ghost use Rattle.undo_laws.specs.Serials.{IsSerialed};
ghost use Rattle.undo_laws.specs.Log.{Inverse, Image, logged, logged_by, undo, merge, image_of, given_back, seen};
ghost use Rattle.undo_laws.specs.Reverting.{CanRevert};
ghost use Rattle.undo_laws.specs.Same.{SameButSerials};
ghost use Rattle.undo_laws.specs.Stands.{Stands, is_gone};

/// What a longer log says of a key is the older image and the newer one in one, and reverting them one after the
/// other is reverting both in one.
pub fn longer_logs()
    ensures image { (k : Key) (older newer : List Inverse)
        → image_of k (older ++ newer) ≡ merge (image_of k older) (image_of k newer) }
    ensures given { (now : ℕ) (older newer : Image) (o : Option Entry)
        → given_back now (merge older newer) o ≡ given_back now older (given_back now newer o) }
    ensures undo { (now : ℕ) (older newer : List Inverse) (t : TableState)
        → undo now (older ++ newer) t ≡ undo now older (undo now newer t) }
{}

/// A log that is reverted backwards gives at each key what its image there gives back, but for the serial.
pub fn undo_is_by_key()
    ensures image { (now : ℕ) (k : Key) (log : List Inverse) (t : TableState) → IsSerialed t
        → option_map seen (entry_at k (undo now log t).entries)
        ≡ option_map seen (given_back now (image_of k log) (entry_at k t.entries)) }
    ensures serials { (now : ℕ) (log : List Inverse) (t : TableState) → IsSerialed t → IsSerialed (undo now log t) }
{}

/// Since a table nothing was logged; or one change more, whatever its command, flags and answer; or the newest part
/// of the log was undone: then the log still holds what was changed since that table. So does each log that says the
/// same of each key, as one with an inverse for each key.
pub fn logs_stand()
    ensures nothing { (now : ℕ) (t : TableState) → IsSerialed t → Stands now t [] t }
    ensures changed { (now : ℕ) (earlier : TableState) (log : List Inverse) (m : FlowMod) (t : TableState)
        → Stands now earlier log t → Stands now earlier (log ++ logged m t.entries) (changed now m t) }
    ensures change { (cap now : ℕ) (earlier : TableState) (log : List Inverse) (m : FlowMod) (t : TableState)
        → Stands now earlier log t → Stands now earlier (log ++ logged_by cap m t.entries) (change cap now m t) }
    ensures refused { (cap now : ℕ) (m : FlowMod) (t : TableState) (e : OfError) → refusal cap m t.entries ≡ Some e
        → (change cap now m t ≡ t) × (logged_by cap m t.entries ≡ []) }
    ensures undone { (now : ℕ) (earlier : TableState) (log newer : List Inverse) (t : TableState)
        → Stands now earlier (log ++ newer) t → Stands now earlier log (undo now newer t) }
    ensures images { (now : ℕ) (earlier : TableState) (log other : List Inverse) (t : TableState)
        → ((k : Key) → image_of k other ≡ image_of k log) → Stands now earlier log t → Stands now earlier other t }
{}

/// Exact undo: the log since an earlier table, reverted backwards, gives that table back but for serials, each entry
/// used when it was, and now where it had been removed meanwhile.
pub fn undo_restores()
    ensures { (now : ℕ) (earlier : TableState) (log : List Inverse) (t : TableState) → Stands now earlier log t
        → SameButSerials (undo now log t).entries (undone earlier t now).entries }
{}

/// A change that was logged and did not happen, as where its answer is lost: undone all the same, it leaves the log
/// before it as it was, and no inverse is refused; earlier entries are used as without it, or now where the change
/// would have removed them.
pub fn change_in_flight()
    ensures stands { (now : ℕ) (earlier : TableState) (log : List Inverse) (m : FlowMod) (t : TableState)
        → Stands now earlier log t → Stands now earlier log (undo now (logged m t.entries) t) }
    ensures restored { (now : ℕ) (earlier : TableState) (log : List Inverse) (m : FlowMod) (t : TableState)
        → Stands now earlier log t → SameButSerials (undo now (log ++ logged m t.entries) t).entries
        (undone earlier (undo now (logged m t.entries) t) now).entries }
    ensures used { (now : ℕ) (earlier : TableState) (log : List Inverse) (m : FlowMod) (t : TableState) (k : Key) (e : Entry)
        → Stands now earlier log t → entry_at k earlier.entries ≡ Some e
        → (used_or now e.serial (undo now (logged m t.entries) t).entries ≡ used_or now e.serial t.entries)
        ⊎ ((is_gone (image_of k (logged m t.entries)) ≡ true)
        × (used_or now e.serial (undo now (logged m t.entries) t).entries ≡ now)) }
    ensures reverted { (cap now : ℕ) (log : List Inverse) (m : FlowMod) (t : TableState) → IsSerialed t → CanRevert cap now log t
        → CanRevert cap now (log ++ logged m t.entries) t }
{}

//! Laws of keys that are added and removed again, each the contract of a function that does nothing.

ghost use Rattle.std.specs.Prelude.{◌≡◌, ◌≢◌, ℕ, true, List, [], ◌∷◌, ◌++◌, reverse, None};
ghost use Rattle.of_match.specs.declared.key.Key.{Key};
ghost use Rattle.of_match.specs.Key.{key_number};
ghost use Rattle.of_wire.specs.declared.bodies.FlowMod.{FlowMod};
ghost use Rattle.flow_table.specs.declared.entry.Entry.{Entry};
ghost use Rattle.flow_table.specs.Table.{TableState, IsTable, entry_at};
ghost use Rattle.flow_table.specs.Change.{key_in, adds, refusal, changed, change, notices_of};
ghost use Rattle.flow_table.specs.Undone.{undone};
ghost use Rattle.undo_laws.specs.Serials.{IsSerialed};
ghost use Rattle.undo_laws.specs.Removal.{without, without_all, IsRemoval, AreRemovals, removal_notices, after_all, is_key_among, OnlyAdded};

/// A DELETE_STRICT of a key with out_port NONE is never refused, takes the entry of that key away and nothing
/// else, and gives that entry's notice where it asks for one.
pub fn removal_is_exact()
    ensures taken { (cap : ℕ) (k : Key) (m : FlowMod) (es : List Entry) → IsRemoval k m → refusal cap m es ≡ None }
    ensures table { (now : ℕ) (k : Key) (m : FlowMod) (t : TableState) → IsRemoval k m
        → changed now m t ≡ record t { entries = without k t.entries } }
    ensures change { (cap now : ℕ) (k : Key) (m : FlowMod) (t : TableState) → IsRemoval k m
        → change cap now m t ≡ record t { entries = without k t.entries } }
    ensures goes { (k l : Key) (es : List Entry) → IsTable es → key_number k ≡ key_number l → entry_at l (without k es) ≡ None }
    ensures others { (k l : Key) (es : List Entry) → IsTable es → key_number k ≢ key_number l
        → entry_at l (without k es) ≡ entry_at l es }
    ensures notices { (now : ℕ) (k : Key) (m : FlowMod) (es : List Entry) → IsTable es → IsRemoval k m
        → notices_of now m es ≡ removal_notices now (entry_at k es) }
{}

/// Keys that were added: none at first, one more with each change that puts a new key in, and fewer again once the
/// newest are taken away.
pub fn additions_are_kept()
    ensures nothing { (es : List Entry) → OnlyAdded [] es es }
    ensures more { (now : ℕ) (ks : List Key) (m : FlowMod) (before : List Entry) (t : TableState)
        → OnlyAdded ks before t.entries → adds m t.entries ≡ true → entry_at (key_in m) t.entries ≡ None
        → OnlyAdded (ks ++ key_in m ∷ []) before (changed now m t).entries }
    ensures fewer { (ks ls : List Key) (before after : List Entry) → IsTable after → OnlyAdded (ks ++ ls) before after
        → OnlyAdded ks before (without_all ls after) }
{}

/// Removals of all keys that were added give back the earlier table, each entry as it was, in whatever order they
/// are reverted: newest first as well.
pub fn removals_restore()
    ensures restores { (now : ℕ) (ks ls : List Key) (ms : List FlowMod) (before : List Entry) (t : TableState)
        → IsTable before → IsTable t.entries → OnlyAdded ks before t.entries
        → ((k : Key) → is_key_among ls k ≡ is_key_among ks k) → AreRemovals ls ms
        → after_all now ms t ≡ record t { entries = before } }
    ensures newest_first { (ks : List Key) (k : Key) → is_key_among (reverse ks) k ≡ is_key_among ks k }
    ensures undone { (now : ℕ) (ks : List Key) (before after : TableState) → IsTable before.entries → IsSerialed after
        → OnlyAdded ks before.entries after.entries → undone before after now ≡ record after { entries = before.entries } }
{}

//! Laws of one message a key, each the contract of a function that does nothing.

ghost use Rattle.std.specs.Prelude.{◌≡◌, ◌≤◌, ℕ, Bool, List, length};
ghost use Rattle.of_match.specs.declared.key.Key.{Key};
ghost use Rattle.of_action.specs.declared.action.Action.{Action};
ghost use Rattle.flow_table.specs.declared.entry.Entry.{Entry};
ghost use Rattle.flow_table.specs.Table.{TableState, entry_at};
ghost use Rattle.flow_table.specs.Undone.{undone};
ghost use Rattle.undo_laws.specs.Log.{Inverse, undo, image_of};
ghost use Rattle.undo_laws.specs.Reverting.{CanRevert};
ghost use Rattle.undo_laws.specs.Same.{SameButSerials};
ghost use Rattle.undo_laws.specs.Stands.{Stands};
ghost use Rattle.undo_laws.specs.Table.{IsTest, AllStay, GiveAlike, sent_for, in_order};

/// A log that gives back the same as one that stands for an earlier table stands for it too. So does what is sent for it
/// by the table of images, one message a key at most; and that gives the earlier table back.
pub fn one_message_restores()
    ensures alike { (now : ℕ) (earlier : TableState) (log other : List Inverse) (t : TableState)
        → GiveAlike now earlier log other t → Stands now earlier log t → Stands now earlier other t }
    ensures stands { (now : ℕ) (same : List Action → List Action → Bool) (earlier : TableState) (log sent : List Inverse)
        (t : TableState) → IsTest same → ((k : Key) → image_of k sent ≡ sent_for same (image_of k log) (entry_at k t.entries))
        → Stands now earlier log t → Stands now earlier sent t }
    ensures restores { (now : ℕ) (same : List Action → List Action → Bool) (earlier : TableState) (log sent : List Inverse)
        (t : TableState) → IsTest same → ((k : Key) → image_of k sent ≡ sent_for same (image_of k log) (entry_at k t.entries))
        → Stands now earlier log t → SameButSerials (undo now sent t).entries (undone earlier t now).entries }
{}

/// Removals first, then changes of actions, then additions: in a table that holds the present entries and held the earlier
/// ones, none is refused.
pub fn order_has_room()
    ensures { (cap now : ℕ) (earlier : TableState) (removed : List Key) (acted : List (Key × List Action)) (added : List Entry)
        (t : TableState) → length t.entries ≤ cap → length earlier.entries ≤ cap → AllStay removed acted t.entries
        → Stands now earlier (in_order removed acted added) t → CanRevert cap now (in_order removed acted added) t }
{}

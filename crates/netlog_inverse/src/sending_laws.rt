//! Laws of what is sent for images, each the contract of a function that does nothing.

ghost use Rattle.std.specs.Prelude.{◌≡◌, ◌≢◌, ℕ, ◌≤◌, Bool, List, length, [], ◌∷◌, ◌++◌, map, take, drop, Option, Some, None};
ghost use Rattle.of_match.specs.declared.key.Key.{Key};
ghost use Rattle.of_stats.specs.declared.flow_row.FlowRow.{FlowRow};
ghost use Rattle.of_wire.specs.declared.bodies.FlowMod.{FlowMod};
ghost use Rattle.flow_table.specs.declared.entry.Entry.{Entry};
ghost use Rattle.flow_table.specs.declared.lost.Lost.{Lost};
ghost use Rattle.flow_table.specs.declared.view.ViewRow.{ViewRow};
ghost use Rattle.flow_table.specs.Table.{TableState, place_of};
ghost use Rattle.of_match.specs.Key.{key_number};
ghost use Rattle.of_action.specs.declared.action.Action.{Action};
ghost use Rattle.flow_table.specs.Undone.{undone};
ghost use Rattle.undo_laws.specs.Log.{Image as Said, Untouched, old_entry, undo, image_of};
ghost use Rattle.undo_laws.specs.Reverting.{CanRevert};
ghost use Rattle.undo_laws.specs.Same.{SameButSerials};
ghost use Rattle.undo_laws.specs.Table.{IsTest};
ghost use Rattle.netlog_inverse.specs.declared.image.Image.{Image};
ghost use Rattle.netlog_inverse.specs.declared.image.Logged.{Logged};
ghost use Rattle.netlog_inverse.specs.declared.sending.InverseKind.TheVariants.{Delete, Modify, Add};
ghost use Rattle.netlog_inverse.specs.declared.sending.Wanted.{Wanted};
ghost use Rattle.netlog_inverse.specs.Actions.{same_actions};
ghost use Rattle.netlog_inverse.specs.Log.{logged_at, pushed};
ghost use Rattle.netlog_inverse.specs.Marks.{ImagesStand, AreSetRightFor};
ghost use Rattle.netlog_inverse.specs.Meaning.{said, first_at, row_of};
ghost use Rattle.netlog_inverse.specs.Mending.{set_right, IsLostOf};
ghost use Rattle.netlog_inverse.specs.Next.{Sought, place_after, IsNext, ArePassed, AreAll, keys_for, actions_for, entries_for, AreMade};
ghost use Rattle.netlog_inverse.specs.Plans.{planned};
ghost use Rattle.netlog_inverse.specs.Sending.{AreWanted, wanted, in_key_order};

/// Calls of `Log::next_wanted`, one behind the other, give all keys of which a message of a kind is wanted: none at first, one
/// more with each answer, and all where there is no more. Those of the three kinds, where the rows are those of the table as
/// it is shown, are what the table of images wants: `messages_in_order` says what follows.
pub fn next_ones_are_wanted()
    ensures nothing { (s : Sought) → ArePassed s 0 [] (place_after None) }
    ensures more { (s : Sought) (after : Option Key) (ws : List Wanted) (w : Wanted) → ArePassed s 0 ws (place_after after)
        → IsNext s after (Some w) → ArePassed s 0 (ws ++ w ∷ []) (place_after (Some w.key)) }
    ensures all { (s : Sought) (after : Option Key) (ws : List Wanted) → ArePassed s 0 ws (place_after after)
        → IsNext s after None → AreAll s 0 ws }
    ensures wanted { (now d mark : ℕ) (log : List Logged) (t : TableState) (deleted modified added : List Wanted) → AreMade (drop mark log)
        → AreAll (record { kind = Delete; dpid = d; mark = mark; log = log; rows = map row_of t.entries }) 0 deleted
        → AreAll (record { kind = Modify; dpid = d; mark = mark; log = log; rows = map row_of t.entries }) 0 modified
        → AreAll (record { kind = Add; dpid = d; mark = mark; log = log; rows = map row_of t.entries }) 0 added
        → AreWanted (wanted now d same_actions (drop mark log) t) (keys_for deleted)
        (actions_for now (record { kind = Modify; dpid = d; mark = mark; log = log; rows = map row_of t.entries }) modified)
        (entries_for now (record { kind = Add; dpid = d; mark = mark; log = log; rows = map row_of t.entries }) added) }
    ensures test { IsTest same_actions }
{}

/// Images that `plan` makes stay as it makes them when they are pushed, cut off, or set right by `Log::mend_key`: their row has
/// their key, their messages are those of the row, and an ADD has what is left of the hard timeout. Each says something.
pub fn images_stay_made()
    ensures planned { (d : ℕ) (m : FlowMod) (rs : List ViewRow) (cache : List (Key × Lost)) (fs : List FlowRow)
        → AreMade (map (logged_at d) (planned m rs cache fs)) }
    ensures pushed { (mark d : ℕ) (images : List Image) (log : List Logged) → AreMade log → AreMade (map (logged_at d) images)
        → AreMade (pushed mark d images log) }
    ensures since { (mark : ℕ) (log : List Logged) → AreMade log → AreMade (drop mark log) }
    ensures cut { (mark : ℕ) (log : List Logged) → AreMade log → AreMade (take mark log) }
    ensures mended { (d : ℕ) (k : Key) (lost : Lost) (log : List Logged) → AreMade log → AreMade (map (set_right d k lost) log) }
    ensures says { (now d : ℕ) (k : Key) (log : List Logged) (i : Image) → AreMade log → first_at d k log ≡ Some i
        → said now (Some i) ≢ Untouched }
{}

/// When the entry of a key goes, `Log::mend_key` sets its images right since each mark, and leaves what is said of other keys.
pub fn keys_are_set_right()
    ensures { (now d mark : ℕ) (k : Key) (lost : Lost) (e : Entry) (log : List Logged) → place_of e ≡ key_number k
        → IsLostOf now d k lost e (drop mark log)
        → AreSetRightFor now d (drop mark log) (old_entry e ∷ []) (drop mark (map (set_right d k lost) log)) }
{}

/// What is sent in key order, each kind from the lowest place on, says of each key what is wanted. It gives back the table of
/// the mark, and in a table that holds the present entries and held those of the mark none of it is refused.
pub fn key_order_restores()
    ensures wanted { (want : Key → Said) (removed : List Key) (acted : List (Key × List Action)) (added : List Entry)
        → AreWanted want removed acted added → (k : Key) → image_of k (in_key_order removed acted added) ≡ want k }
    ensures restores { (now d : ℕ) (same : List Action → List Action → Bool) (since : List Logged) (earlier : TableState)
        (removed : List Key) (acted : List (Key × List Action)) (added : List Entry) (t : TableState) → IsTest same
        → AreWanted (wanted now d same since t) removed acted added → ImagesStand now d earlier since t
        → SameButSerials (undo now (in_key_order removed acted added) t).entries (undone earlier t now).entries }
    ensures room { (cap now d : ℕ) (same : List Action → List Action → Bool) (since : List Logged) (earlier : TableState)
        (removed : List Key) (acted : List (Key × List Action)) (added : List Entry) (t : TableState) → IsTest same
        → AreWanted (wanted now d same since t) removed acted added → ImagesStand now d earlier since t
        → length t.entries ≤ cap → length earlier.entries ≤ cap → CanRevert cap now (in_key_order removed acted added) t }
{}

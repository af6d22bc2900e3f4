//! Laws of images, each the contract of a function that does nothing.

ghost use Rattle.std.specs.Prelude.{◌≡◌, ◌≢◌, ℕ, ◌+◌, ◌-◌, ◌^◌, ◌<◌, ◌≤◌, Bool, List, [], ◌∷◌, ◌++◌, length, map, drop, Some, None, false, Option};
ghost use Rattle.of_match.specs.declared.key.Key.{Key};
ghost use Rattle.of_match.specs.Key.{key_number};
ghost use Rattle.of_action.specs.declared.action.Action.{Action};
ghost use Rattle.of_stats.specs.declared.flow_row.FlowRow.{FlowRow};
ghost use Rattle.of_wire.specs.declared.bodies.FlowMod.{FlowMod};
ghost use Rattle.flow_timeouts.specs.Timeouts.{end_of};
ghost use Rattle.flow_table.specs.declared.entry.Entry.{Entry};
ghost use Rattle.flow_table.specs.declared.lost.Lost.{Lost};
ghost use Rattle.flow_table.specs.declared.view.ViewRow.{ViewRow};
ghost use Rattle.flow_table.specs.Errors.{all_tables_full};
ghost use Rattle.flow_table.specs.Table.{TableState, place_of, entry_at};
ghost use Rattle.flow_table.specs.Change.{changed, new_entry, refusal};
ghost use Rattle.flow_table.specs.Undone.{undone};
ghost use Rattle.flow_table.specs.Corrected.{row_at, lost_at, shown_entry, shown_entries, shown_table};
ghost use Rattle.undo_laws.specs.Log.{Image as Said, Inverse, Remove, PutBack, GiveActions, Gone, Untouched, Acted, logged, old_entry, undo, back, merge, image_of};
ghost use Rattle.undo_laws.specs.Corrected.{IsCorrection};
ghost use Rattle.undo_laws.specs.Removal.{without};
ghost use Rattle.undo_laws.specs.Reverting.{CanRevert, Reverts};
ghost use Rattle.undo_laws.specs.Same.{SameButSerials};
ghost use Rattle.undo_laws.specs.Serials.{IsSerialed};
ghost use Rattle.undo_laws.specs.Stands.{Stands, is_gone};
ghost use Rattle.undo_laws.specs.Table.{IsTest, in_order};
ghost use Rattle.netlog_inverse.specs.declared.image.Image.{Image};
ghost use Rattle.netlog_inverse.specs.declared.image.Logged.{Logged};
ghost use Rattle.netlog_inverse.specs.declared.image.PutBack.TheVariants.{Row};
ghost use Rattle.netlog_inverse.specs.Messages.{removal, addition, modification, spelled_mod, hard_left};
ghost use Rattle.netlog_inverse.specs.Plans.{planned, going, missing};
ghost use Rattle.netlog_inverse.specs.Log.{logged_at, pushed, with_hard, mended, changed_at};
ghost use Rattle.netlog_inverse.specs.Marks.{ImagesStand, SayMore, AreSetRight, IsFirstAt, IsImageAt, IsLast, AreSetRightFor};
ghost use Rattle.netlog_inverse.specs.Meaning.{entry_of, said, settled, first_at, first_or, IsView, Reports};
ghost use Rattle.netlog_inverse.specs.Restoring.{Says, IsSentFor, AreLeft};
ghost use Rattle.netlog_inverse.specs.Sending.{AreWanted, messages_of, wanted};

/// The messages of an image undo what it says. With the row and the cache row of the image, the entry that its ADD puts in
/// is shown as the one that went, its idle time begun anew; and what is left of the hard timeout ends when the whole would
/// have ended.
pub fn messages_put_back()
    ensures removal { (k : Key) → Reverts (Remove k) (removal k) }
    ensures modification { (r : ViewRow) → Reverts (GiveActions r.key r.actions) (modification r) }
    ensures addition { (now hard : ℕ) (r : ViewRow) (lost : Lost) → Reverts (PutBack (entry_of now r lost)) (addition hard r) }
    ensures shown { (now serial hard : ℕ) (r : ViewRow) (lost : Lost) (rs : List ViewRow) (cache : List (Key × Lost))
        → row_at r.key rs ≡ Some r → lost_at r.key cache ≡ Some lost → lost.packets < 2 ^ 64 → lost.bytes < 2 ^ 64
        → shown_entry rs cache (new_entry now serial (addition hard r)) ≡ back now serial (entry_of now r lost) }
    ensures hard { (now hard age : ℕ) → age ≤ now → (hard ≢ 0 → age < hard)
        → end_of now (hard_left hard age) ≡ end_of (now - age) hard }
{}

/// The plan of a change says of each key what the change logs of the table as it is shown. What is sent for its images
/// after the change gives back the table before it, each entry used when it was, and now where the change removed it.
pub fn plans_undo()
    ensures said { (now d : ℕ) (k : Key) (m : FlowMod) (rs : List ViewRow) (cache : List (Key × Lost)) (fs : List FlowRow)
        (es : List Entry) → IsView now rs cache es → Reports now es fs → missing (going m rs) fs ≡ None
        → settled now (said now (first_at d k (map (logged_at d) (planned m rs cache fs))))
        ≡ settled now (image_of k (logged m (shown_entries rs cache es))) }
    ensures restores { (now d : ℕ) (same : List Action → List Action → Bool) (m : FlowMod) (rs : List ViewRow)
        (cache : List (Key × Lost)) (fs : List FlowRow) (t : TableState) (sent : List Inverse) → IsTest same
        → IsView now rs cache t.entries → Reports now t.entries fs → missing (going m rs) fs ≡ None
        → IsSerialed (shown_table rs cache t)
        → IsSentFor now d same (map (logged_at d) (planned m rs cache fs)) sent (changed now m (shown_table rs cache t))
        → SameButSerials (undo now sent (changed now m (shown_table rs cache t))).entries
        (undone (shown_table rs cache t) (changed now m (shown_table rs cache t)) now).entries }
{}

/// The first images since a mark, of those that say of each key what a list of all inverses says: what is sent for them
/// gives back the table of the mark.
pub fn first_images_undo()
    ensures stands { (now d : ℕ) (same : List Action → List Action → Bool) (since : List Logged) (earlier : TableState)
        (log sent : List Inverse) (t : TableState) → IsTest same → Says now d since log → IsSentFor now d same since sent t
        → Stands now earlier log t → Stands now earlier sent t }
    ensures restores { (now d : ℕ) (same : List Action → List Action → Bool) (since : List Logged) (earlier : TableState)
        (log sent : List Inverse) (t : TableState) → IsTest same → Says now d since log → IsSentFor now d same since sent t
        → Stands now earlier log t → SameButSerials (undo now sent t).entries (undone earlier t now).entries }
{}

/// What is pushed takes the place of no first image, neither of those since the mark nor of those since a mark before it.
pub fn first_images_stay()
    ensures first { (mark outer d e : ℕ) (k : Key) (images : List Image) (log : List Logged) → outer ≤ mark → mark ≤ length log
        → first_at e k (drop outer (pushed mark d images log))
        ≡ first_or (first_at e k (drop outer log)) (first_at e k (map (logged_at d) images)) }
    ensures longer { (mark d : ℕ) (images : List Image) (log : List Logged) → length log ≤ length (pushed mark d images log) }
    ensures room { (mark d : ℕ) (images : List Image) (log : List Logged)
        → length (pushed mark d images log) ≤ length log + length images }
    ensures says { (now d : ℕ) (since more after : List Logged) (log newer : List Inverse) → Says now d since log
        → Says now d more newer
        → ((k : Key) → settled now (said now (first_at d k after))
        ≡ settled now (merge (said now (first_at d k since)) (said now (first_at d k more))))
        → Says now d after (log ++ newer) }
{}

/// What is sent to a switch, in order, for the first images since a mark: the table of the mark comes back, in a table that
/// holds the present entries and held those none of the messages is refused, and each key has one message at most.
pub fn messages_in_order()
    ensures wanted { (want : Key → Said) (removed : List Key) (acted : List (Key × List Action)) (added : List Entry)
        → AreWanted want removed acted added → (k : Key) → image_of k (in_order removed acted added) ≡ want k }
    ensures one { (want : Key → Said) (removed : List Key) (acted : List (Key × List Action)) (added : List Entry)
        → AreWanted want removed acted added → (k : Key) → messages_of k (in_order removed acted added) ≤ 1 }
    ensures restores { (now d : ℕ) (same : List Action → List Action → Bool) (since : List Logged) (earlier : TableState)
        (log : List Inverse) (removed : List Key) (acted : List (Key × List Action)) (added : List Entry) (t : TableState)
        → IsTest same → Says now d since log → AreWanted (wanted now d same since t) removed acted added
        → Stands now earlier log t
        → SameButSerials (undo now (in_order removed acted added) t).entries (undone earlier t now).entries }
    ensures room { (cap now d : ℕ) (same : List Action → List Action → Bool) (since : List Logged) (earlier : TableState)
        (log : List Inverse) (removed : List Key) (acted : List (Key × List Action)) (added : List Entry) (t : TableState)
        → IsTest same → Says now d since log → AreWanted (wanted now d same since t) removed acted added
        → Stands now earlier log t → length t.entries ≤ cap → length earlier.entries ≤ cap
        → CanRevert cap now (in_order removed acted added) t }
{}

/// An image that is set right when its entry goes says that the entry went, with the actions that it had, and its ADD is
/// the one with the hard timeout that was set.
pub fn mended_images_say()
    ensures said { (now hard : ℕ) (k : Key) (r : ViewRow) (lost : Lost) (before : Option Lost) (l : Logged)
        → l.image.put ≡ Row k (Some r) before → said now (Some (mended (Some lost) hard false l).image) ≡ Gone (entry_of now r lost) }
    ensures hard { (hard other : ℕ) (r : ViewRow)
        → with_hard other (spelled_mod (addition hard r)) ≡ spelled_mod (addition other r) }
{}

/// After an undo of what was changed since an inner mark, the images that are left give back the table of each mark before
/// it, also where an entry was put back meanwhile that stands for no earlier one.
pub fn inner_undo_leaves_marks()
    ensures stands { (now d : ℕ) (same : List Action → List Action → Bool) (since left : List Logged) (earlier : TableState)
        (older newer sent : List Inverse) (t : TableState) → IsTest same → Says now d since (older ++ newer)
        → AreLeft d since left older → IsSentFor now d same left sent (undo now newer t) → Stands now earlier (older ++ newer) t
        → Stands now earlier sent (undo now newer t) }
    ensures restores { (now d : ℕ) (same : List Action → List Action → Bool) (since left : List Logged) (earlier : TableState)
        (older newer sent : List Inverse) (t : TableState) → IsTest same → Says now d since (older ++ newer)
        → AreLeft d since left older → IsSentFor now d same left sent (undo now newer t) → Stands now earlier (older ++ newer) t
        → SameButSerials (undo now sent (undo now newer t)).entries (undone earlier (undo now newer t) now).entries }
{}

/// What was logged since a mark stands for the table of the mark, said of the images alone: at the mark; where they say what
/// a list of all inverses says; after a change; after an undo of what was logged since an inner mark; and after a time-out of
/// an entry whose image is set right. What is sent for them gives the table of the mark back. So marks may be nested to any
/// depth, and changes may follow an inner undo.
pub fn marks_stand()
    ensures nothing { (now d : ℕ) (t : TableState) → IsSerialed t → ImagesStand now d t [] t }
    ensures says { (now d : ℕ) (since : List Logged) (earlier : TableState) (log : List Inverse) (t : TableState)
        → Says now d since log → Stands now earlier log t → ImagesStand now d earlier since t }
    ensures changed { (now d : ℕ) (since after : List Logged) (earlier : TableState) (m : FlowMod) (t : TableState)
        → SayMore now d since (logged m t.entries) after → ImagesStand now d earlier since t
        → ImagesStand now d earlier after (changed now m t) }
    ensures undone { (now d : ℕ) (same : List Action → List Action → Bool) (front inner : List Logged) (earlier : TableState)
        (sent : List Inverse) (t : TableState) → IsTest same → AreSetRight now d front inner → IsSentFor now d same inner sent t
        → ImagesStand now d earlier (front ++ inner) t → ImagesStand now d earlier front (undo now sent t) }
    ensures timed_out { (now d hard at : ℕ) (k : Key) (r : ViewRow) (lost : Lost) (e : Entry) (since : List Logged)
        (earlier t : TableState) → entry_at k t.entries ≡ Some e → IsLast now d at k r lost e since
        → ImagesStand now d earlier since t
        → ImagesStand now d earlier (changed_at at (mended (Some lost) hard false) since) (record t { entries = without k t.entries }) }
    ensures restores { (now d : ℕ) (same : List Action → List Action → Bool) (since : List Logged) (earlier : TableState)
        (sent : List Inverse) (t : TableState) → IsTest same → IsSentFor now d same since sent t
        → ImagesStand now d earlier since t → SameButSerials (undo now sent t).entries (undone earlier t now).entries }
{}

/// A change that `plan` planned, of whose entries a switch reports what it has, and whose images `Log::push` logged: since each
/// open mark, the images stand for the table of the mark after the change, once each image that had an entry stand which goes
/// is set right by `Log::mend`. An image that has no such entry stand is right as it is.
pub fn planned_changes_keep_marks()
    ensures stay { (now d : ℕ) (since : List Logged) (newer : List Inverse)
        → ((k : Key) (i : Image) → first_at d k since ≡ Some i → said now (Some i) ≢ Untouched)
        → ((k : Key) (actions : List Action) → said now (first_at d k since) ≡ Acted actions → is_gone (image_of k newer) ≡ false)
        → AreSetRightFor now d since newer since }
    ensures mended { (now d hard at : ℕ) (k : Key) (r : ViewRow) (lost : Lost) (e : Entry) (since : List Logged)
        → place_of e ≡ key_number k → IsLast now d at k r lost e since
        → AreSetRightFor now d since (old_entry e ∷ []) (changed_at at (mended (Some lost) hard false) since) }
    ensures more { (now d : ℕ) (since set after : List Logged) (older newer : List Inverse)
        → AreSetRightFor now d since older set → AreSetRightFor now d set newer after
        → AreSetRightFor now d since (older ++ newer) after }
    ensures planned { (now d mark outer : ℕ) (m : FlowMod) (rs : List ViewRow) (cache : List (Key × Lost)) (fs : List FlowRow)
        (earlier t : TableState) (log set : List Logged) → IsView now rs cache t.entries → Reports now t.entries fs
        → missing (going m rs) fs ≡ None → outer ≤ mark → mark ≤ length set
        → AreSetRightFor now d (drop outer log) (logged m (shown_entries rs cache t.entries)) (drop outer set)
        → ImagesStand now d earlier (drop outer log) (shown_table rs cache t)
        → ImagesStand now d earlier (drop outer (pushed mark d (planned m rs cache fs) set)) (changed now m (shown_table rs cache t)) }
{}

/// `Log::mend` names an image by its position in the whole log. Since a mark it changes nothing before the mark, and behind it
/// the image that stands there; and where that is not the first one of its key since the mark, what is said stays.
pub fn mends_reach_marks()
    ensures before { (mark at hard : ℕ) (lost : Option Lost) (stands : Bool) (log : List Logged) → at < mark
        → drop mark (changed_at at (mended lost hard stands) log) ≡ drop mark log }
    ensures behind { (mark at hard : ℕ) (lost : Option Lost) (stands : Bool) (log : List Logged) → mark ≤ at
        → drop mark (changed_at at (mended lost hard stands) log) ≡ changed_at (at - mark) (mended lost hard stands) (drop mark log) }
    ensures later { (now d hard first at : ℕ) (k : Key) (lost : Lost) (since : List Logged) → IsFirstAt d k first since
        → first < at → IsImageAt d k at since
        → AreSetRightFor now d since [] (changed_at at (mended (Some lost) hard false) since) }
{}

/// Removals have to go first: a full table refuses the ADD of an entry whose key it does not have, so nothing that begins with
/// one can be sent to it, whatever follows.
pub fn full_tables_want_removals_first()
    ensures refused { (cap : ℕ) (e : Entry) (m : FlowMod) (t : TableState) → Reverts (PutBack e) m → cap ≤ length t.entries
        → entry_at e.key t.entries ≡ None → refusal cap m t.entries ≡ Some all_tables_full }
    ensures first { (cap now : ℕ) (e : Entry) (rest : List Inverse) (t : TableState) → cap ≤ length t.entries
        → entry_at e.key t.entries ≡ None → CanRevert cap now (rest ++ PutBack e ∷ []) t → ⊥ }
{}

/// What owners are shown of a table is a correction of it: keys, actions and serials are its own.
pub fn shown_is_a_correction()
    ensures { (rows : List ViewRow) (lost : List (Key × Lost)) → IsCorrection (shown_entry rows lost) }
{}

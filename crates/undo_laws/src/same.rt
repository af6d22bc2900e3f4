//! Laws of tables that are the same but for serials, each the contract of a function that does nothing.

ghost use Rattle.std.specs.Prelude.{◌≡◌, ℕ, List, ◌++◌, map};
ghost use Rattle.std.specs.Option.{option_map};
ghost use Rattle.of_match.specs.declared.flow_match.Match.{Match};
ghost use Rattle.of_match.specs.declared.packet_key.PacketKey.{PacketKey};
ghost use Rattle.of_wire.specs.declared.bodies.FlowMod.{FlowMod};
ghost use Rattle.flow_table.specs.declared.entry.Entry.{Entry};
ghost use Rattle.flow_table.specs.Table.{TableState};
ghost use Rattle.flow_table.specs.Change.{adds, refusal, entries_after, notices_of};
ghost use Rattle.flow_table.specs.Hit.{best, hit, with_counts};
ghost use Rattle.flow_table.specs.Expiry.{expire, expiry_notices};
ghost use Rattle.flow_table.specs.Rows.{selected};
ghost use Rattle.flow_table.specs.Step.{flow_removed};
ghost use Rattle.flow_table.specs.Undone.{undone};
ghost use Rattle.undo_laws.specs.Log.{Inverse, logged, undo, seen};
ghost use Rattle.undo_laws.specs.Stands.{Stands};
ghost use Rattle.undo_laws.specs.Reverting.{SameKeys};
ghost use Rattle.undo_laws.specs.Same.{SameButSerials};

/// A change does the same to both: it is refused alike, logs and tells the same, and leaves them the same.
pub fn same_changes()
    ensures adds { (m : FlowMod) (es fs : List Entry) → SameButSerials es fs → adds m es ≡ adds m fs }
    ensures refusal { (cap : ℕ) (m : FlowMod) (es fs : List Entry) → SameButSerials es fs → refusal cap m es ≡ refusal cap m fs }
    ensures logged { (m : FlowMod) (es fs : List Entry) → SameButSerials es fs → logged m es ≡ logged m fs }
    ensures after { (now a b : ℕ) (m : FlowMod) (es fs : List Entry) → SameButSerials es fs
        → SameButSerials (entries_after now a m es) (entries_after now b m fs) }
    ensures notices { (now : ℕ) (m : FlowMod) (es fs : List Entry) → SameButSerials es fs
        → map flow_removed (notices_of now m es) ≡ map flow_removed (notices_of now m fs) }
    ensures keys { (es fs : List Entry) → SameButSerials es fs → SameKeys es fs }
{}

/// Packets, counts, time and statistics do the same to both.
pub fn same_events()
    ensures best { (k : PacketKey) (es fs : List Entry) → SameButSerials es fs → option_map seen (best k es) ≡ option_map seen (best k fs) }
    ensures hit { (k : PacketKey) (len now : ℕ) (es fs : List Entry) → SameButSerials es fs
        → SameButSerials (hit k len now es) (hit k len now fs) }
    ensures counts { (priority packets bytes : ℕ) (es fs : List Entry) → SameButSerials es fs
        → SameButSerials (with_counts priority packets bytes es) (with_counts priority packets bytes fs) }
    ensures expire { (now : ℕ) (t u : TableState) → SameButSerials t.entries u.entries
        → SameButSerials (expire now t).entries (expire now u).entries }
    ensures notices { (now : ℕ) (es fs : List Entry) → SameButSerials es fs
        → map flow_removed (expiry_notices now es) ≡ map flow_removed (expiry_notices now fs) }
    ensures rows { (m : Match) (out_port : ℕ) (es fs : List Entry) → SameButSerials es fs
        → SameButSerials (selected m out_port es) (selected m out_port fs) }
{}

/// A log that stands for one table, reverted backwards on another that is the same but for serials, gives the restored
/// one; and in a table that is so restored, the log of a still earlier table up to there stands again.
pub fn undo_agrees()
    ensures undo { (now : ℕ) (log : List Inverse) (t u : TableState) → SameButSerials t.entries u.entries
        → SameButSerials (undo now log t).entries (undo now log u).entries }
    ensures restored { (now : ℕ) (earlier : TableState) (log : List Inverse) (t u : TableState) → Stands now earlier log t
        → SameButSerials u.entries t.entries → SameButSerials (undo now log u).entries (undone earlier t now).entries }
    ensures stands { (now : ℕ) (earlier : TableState) (log : List Inverse) (inner : TableState) (newer : List Inverse)
        (t : TableState) → Stands now earlier log inner → Stands now inner newer t → Stands now earlier (log ++ newer) t
        → Stands now earlier log (undone inner t now) }
{}

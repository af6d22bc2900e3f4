//! Laws of two tables that go through the same changes and undos, and of serials that count within a turn.

ghost use Rattle.std.specs.Prelude.{◌≡◌, ℕ, List, [], ◌++◌};
ghost use Rattle.of_wire.specs.declared.bodies.FlowMod.{FlowMod};
ghost use Rattle.flow_table.specs.Table.{TableState, IsTable};
ghost use Rattle.flow_table.specs.Change.{changed};
ghost use Rattle.flow_table.specs.Undone.{undone};
ghost use Rattle.undo_laws.specs.Log.{Inverse, logged, undo};
ghost use Rattle.undo_laws.specs.Same.{SameButSerials};
ghost use Rattle.undo_laws.specs.Serials.{IsSerialed};
ghost use Rattle.undo_laws.specs.Stands.{Stands};
ghost use Rattle.sent_laws.specs.Abreast.{Course, Abreast, numbered, bare};

/// A switch's table and a definition's go abreast: from tables that are the same but for serials, through each change and each
/// undo of a newer part on both, and where one side has another table for which the log stands too. What both give back at a mark
/// is the same but for serials.
pub fn courses_stay_abreast()
    ensures nothing { (now : ℕ) (t u : TableState) → IsSerialed t → IsSerialed u → SameButSerials t.entries u.entries
        → Abreast now [] (record { earlier = t; present = t }) (record { earlier = u; present = u }) }
    ensures changed { (now : ℕ) (log : List Inverse) (m : FlowMod) (one other : Course) → Abreast now log one other
        → Abreast now (log ++ logged m one.present.entries) (record one { present = changed now m one.present }) (record other { present = changed now m other.present }) }
    ensures undo { (now : ℕ) (log newer : List Inverse) (one other : Course) → Abreast now (log ++ newer) one other
        → Abreast now log (record one { present = undo now newer one.present }) (record other { present = undo now newer other.present }) }
    ensures alike { (now : ℕ) (log : List Inverse) (one other : Course) (t : TableState) → Abreast now log one other
        → Stands now one.earlier log t → SameButSerials t.entries one.present.entries → Abreast now log (record one { present = t }) other }
    ensures restored { (now : ℕ) (log : List Inverse) (one other : Course) → Abreast now log one other
        → SameButSerials (undone one.earlier one.present now).entries (undone other.earlier other.present now).entries }
{}

/// As a turn begins a table is numbered by places, and its serials differ; without serials it is as before. Tables that are bare
/// alike at the end of a turn are the same but for serials, and so they are once numbered for the next one.
pub fn serials_count_within_a_turn()
    ensures serialed { (t : TableState) → IsTable t.entries → IsSerialed (numbered t) }
    ensures ends { (t u : TableState) → SameButSerials t.entries u.entries → bare t ≡ bare u }
    ensures begins { (t u : TableState) → bare t ≡ bare u → SameButSerials (numbered t).entries (numbered u).entries }
{}

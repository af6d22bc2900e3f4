//! What follows about applications and their checkpoints.

ghost use Rattle.std.specs.Prelude.{◌≡◌, ℕ, List};
ghost use Rattle.of_match.specs.declared.flow_match.Match.{Match};
ghost use Rattle.app_objects.specs.Resuming.{IsMachine};
ghost use Rattle.machine_apps.specs.Learn.{Rows};
ghost use Rattle.machine_apps.specs.Checkpoint.{checkpoint_of, restored, learn_would};
ghost use Rattle.machine_apps.specs.Clean.{clean_gives};
ghost use Rattle.machine_apps.specs.Block.{block_gives};
ghost use Rattle.machine_apps.specs.laws.CheckpointLaws.{AreRows};

/// From its checkpoint a learning switch learns the same again.
pub fn checkpoints_are_read_again()
    ensures { (rows : Rows) → AreRows rows → restored (checkpoint_of rows) ≡ rows }
{}

/// Each of the applications resumes exactly at its checkpoints: what it gives behind a turn is what it would give behind a Restore with
/// the checkpoint that the turn handed over.
pub fn machines_resume()
    ensures learn { (idle : ℕ) → IsMachine (learn_would idle) }
    ensures clean { IsMachine (λ checkpoint frames. clean_gives frames) }
    ensures block { (rows : List Match) → IsMachine (λ checkpoint frames. block_gives rows frames) }
{}

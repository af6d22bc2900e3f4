//! Laws of switches, each the contract of a function that does nothing.

ghost use Rattle.std.specs.Prelude.{◌≡◌, ℕ, ◌∷◌, []};
ghost use Rattle.of_types.specs.declared.journal.Stimulus.{Stimulus};
ghost use Rattle.of_wire.specs.declared.message.Message.{Message};
ghost use Rattle.flow_table.specs.Switch.{SwitchState, features_reply};
ghost use Rattle.flow_table.specs.Step.{after_message, sent_by_message, after_stimulus};
ghost use Rattle.switch_sim.specs.Words.{moment_after};

use of_wire::Message;

/// States that a message moves no moment, and a stimulus only where it is one.
pub fn moments_stay()
    ensures message { (m : Message) (s : SwitchState) → (after_message m s).moment ≡ s.moment }
    ensures stimulus { (x : Stimulus) (s : SwitchState) → (after_stimulus x s).moment ≡ moment_after x s.moment }
{}

/// States that what a switch is declared to be stays.
pub fn declarations_stay()
    ensures message { (m : Message) (s : SwitchState) → (after_message m s).declared ≡ s.declared }
    ensures stimulus { (x : Stimulus) (s : SwitchState) → (after_stimulus x s).declared ≡ s.declared }
{}

/// States that a FEATURES_REQUEST (OpenFlow 1.0.0, 5.3.1 Handshake) is answered by the FEATURES_REPLY, and changes nothing.
pub fn features_are_answered()
    ensures sent { (xid : ℕ) (s : SwitchState) → sent_by_message xid Message.FeaturesRequest s ≡ features_reply xid s ∷ [] }
    ensures stays { (s : SwitchState) → after_message Message.FeaturesRequest s ≡ s }
{}

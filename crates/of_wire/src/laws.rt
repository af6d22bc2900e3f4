//! Laws of messages, each the contract of a function that does nothing.

ghost use Rattle.std.specs.Prelude.{◌≡◌, ℕ, ◌^◌, ◌<◌, List, Ok};
ghost use Rattle.of_types.specs.Fields.{IsBytes};
ghost use Rattle.of_wire.specs.declared.message.Envelope.{Envelope};
ghost use Rattle.of_wire.specs.declared.message.Message.{Message};
ghost use Rattle.of_wire.specs.Spelling.{message_bytes};
ghost use Rattle.of_wire.specs.Reading.{reading_of};
ghost use Rattle.of_wire.specs.Grammar.{IsMessage, SpellMessage, SameButIgnored, enveloped};

/// What is written of a message of the grammar spells it, and is read again as it, whatever its `xid`.
pub fn decode_after_encode()
    ensures written { (xid : ℕ) (message : Message) → xid < 2 ^ 32 → IsMessage message
        → SpellMessage xid message (message_bytes xid message) }
    ensures again { (xid : ℕ) (message : Message) → xid < 2 ^ 32 → IsMessage message
        → reading_of (message_bytes xid message) ≡ Ok (enveloped xid message) }
{}

/// Bytes spell one message at most.
pub fn one_reading()
    ensures { (xid other_xid : ℕ) (message other : Message) (bytes : List ℕ) → IsMessage message → IsMessage other
        → SpellMessage xid message bytes → SpellMessage other_xid other bytes
        → enveloped xid message ≡ enveloped other_xid other }
{}

/// What was read and is written anew is read as before, and differs from what was read at most in ignored
/// bits of the match and in pads.
pub fn encode_after_decode()
    ensures again { (bytes : List ℕ) (envelope : Envelope) → IsBytes bytes → reading_of bytes ≡ Ok envelope
        → reading_of (message_bytes envelope.xid envelope.message) ≡ Ok envelope }
    ensures same { (bytes : List ℕ) (envelope : Envelope) → IsBytes bytes → reading_of bytes ≡ Ok envelope
        → SameButIgnored envelope.message bytes (message_bytes envelope.xid envelope.message) }
{}

//! Laws of checksums and of what edits leave.

ghost use Rattle.std.specs.Prelude.{◌≡◌, ℕ, ◌+◌, ◌≤◌, true, false, List, [], ◌∷◌, length, Some};
ghost use Rattle.of_types.specs.Fields.{IsBytes};
ghost use Rattle.of_action.specs.declared.action.Action.{Action};
ghost use Rattle.eth_key.specs.declared.ipv4.Ipv4Header.{Ipv4Header};
ghost use Rattle.eth_key.specs.Ethernet.{has_header, is_tagged};
ghost use Rattle.eth_key.specs.Ipv4.{IsWithin, ipv4_header};
ghost use Rattle.frame_edit.specs.Checksum.{carried_sum, checksum, ones_complement_sum, word_sum};
ghost use Rattle.frame_edit.specs.Datagram.{Verifies, with_checksums};
ghost use Rattle.frame_edit.specs.Edits.{edited, with_address, with_control, without_tag};
ghost use Rattle.frame_edit.specs.Written.{IsDatagramEdit, Keeps, Renews, field_of};

/// States the laws of checksums: what is computed anew verifies, and the definition is the standard's
/// procedure, which adds words one by one with end-around carry (RFC 1071, 1).
pub fn laws_of_checksums()
    ensures complement { (sum : ℕ) → checksum (sum + checksum sum) ≡ 0 }
    ensures verify { (header : Ipv4Header) (frame : List ℕ) → IsWithin header frame → Verifies header (with_checksums header frame) }
    ensures procedure { (bytes : List ℕ) → IsBytes bytes → ones_complement_sum (word_sum bytes) ≡ carried_sum bytes }
{}

/// States the laws of edits: which bytes they leave, and that a datagram verifies that an edit has changed.
pub fn laws_of_edits()
    // Of the five edits of a datagram, a byte outside the field and the checksums stays, and the checksums verify.
    ensures datagram { (action : Action) (header : Ipv4Header) (frame : List ℕ) → IsDatagramEdit action → ipv4_header frame ≡ Some header
        → Renews header (field_of action header) frame (edited action frame) }
    ensures address { (at : ℕ) (address frame : List ℕ) → at ≤ 6 → length address ≡ 6 → Keeps ((at, 6) ∷ []) frame (with_address at address frame) }

    // A tag that is there keeps its place; one that was inserted comes off again.
    ensures tag { (change : ℕ → ℕ) (frame : List ℕ) → is_tagged frame ≡ true → Keeps ((14, 2) ∷ []) frame (with_control change frame) }
    ensures new_tag { (change : ℕ → ℕ) (frame : List ℕ) → has_header frame ≡ true → is_tagged frame ≡ false
        → without_tag (with_control change frame) ≡ frame }
{}

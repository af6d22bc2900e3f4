//! Laws of serials, each the contract of a function that does nothing.

ghost use Rattle.std.specs.Prelude.{◌≡◌, ◌≢◌, ◌≤◌, ℕ, List, Some};
ghost use Rattle.of_match.specs.declared.key.Key.{Key};
ghost use Rattle.of_match.specs.declared.packet_key.PacketKey.{PacketKey};
ghost use Rattle.of_wire.specs.declared.bodies.FlowMod.{FlowMod};
ghost use Rattle.flow_table.specs.declared.entry.Entry.{Entry};
ghost use Rattle.flow_table.specs.Table.{TableState, IsTable, empty_table, entry_at};
ghost use Rattle.flow_table.specs.Change.{changed, change};
ghost use Rattle.flow_table.specs.Expiry.{expire};
ghost use Rattle.flow_table.specs.Hit.{hit, with_counts};
ghost use Rattle.flow_table.specs.Undone.{used_or, undone};
ghost use Rattle.undo_laws.specs.Serials.{IsSerialed};

/// The serials of a table's entries differ and lie below the next one: at first, and after each change, refusal,
/// expiry, hit and count, and in a table that is put back.
pub fn serials_differ()
    ensures empty { IsSerialed empty_table }
    ensures changed { (now : ℕ) (m : FlowMod) (t : TableState) → IsSerialed t → IsSerialed (changed now m t) }
    ensures change { (cap now : ℕ) (m : FlowMod) (t : TableState) → IsSerialed t → IsSerialed (change cap now m t) }
    ensures expire { (now : ℕ) (t : TableState) → IsSerialed t → IsSerialed (expire now t) }
    ensures hit { (k : PacketKey) (len now : ℕ) (t : TableState) → IsSerialed t → IsSerialed (record t { entries = hit k len now t.entries }) }
    ensures counts { (priority packets bytes : ℕ) (t : TableState) → IsSerialed t
        → IsSerialed (record t { entries = with_counts priority packets bytes t.entries }) }
    ensures undone { (now : ℕ) (earlier t : TableState) → earlier.next ≤ t.next → IsSerialed earlier
        → IsSerialed (undone earlier t now) }
{}

/// When the entry with a serial was used: by the entry, where it stands under some key, and else now.
pub fn used_is_by_serial()
    ensures stands { (now : ℕ) (t : TableState) (k : Key) (e : Entry) → IsSerialed t → entry_at k t.entries ≡ Some e
        → used_or now e.serial t.entries ≡ e.used }
    ensures gone { (now serial : ℕ) (es : List Entry) → IsTable es
        → ((k : Key) (e : Entry) → entry_at k es ≡ Some e → e.serial ≢ serial) → used_or now serial es ≡ now }
{}

//! Laws of staging, which callers cite.

ghost use Rattle.std.specs.Prelude.{◌≡◌, ◌≢◌, ℕ, ◌<◌, List, [], ◌∷◌, ◌++◌, length};
ghost use Rattle.checkpoint_store.specs.Past.{Step, after};
ghost use Rattle.checkpoint_store.specs.Slots.{Slot, slot_of, with_slot, staged, done, dropped, HasStaged};

/// States the laws of staging: steps are staged one behind the other, `keep` does them in order, nothing is staged
/// after it and after `drop_staged`, and with nothing staged it changes nothing.
pub fn laws_of_staging()
    ensures more { (steps : List Step) (step : Step) (slot : Slot) → HasStaged steps slot
        → HasStaged (steps ++ step ∷ []) (staged step slot) }
    ensures kept { (steps : List Step) (slot : Slot) → HasStaged steps slot
        → (done slot).kept ≡ after slot.kept steps }
    ensures none_after_keep { (slot : Slot) → HasStaged [] (done slot) }
    ensures none_after_drop { (slot : Slot) → HasStaged [] (dropped slot) × ((dropped slot).kept ≡ slot.kept) }
    ensures nothing { (slot : Slot) → HasStaged [] slot → done slot ≡ slot }
{}

/// States the laws of places: a call for one application changes its place alone.
pub fn laws_of_places()
    ensures this { (app : ℕ) (change : Slot → Slot) (slots : List Slot) → app < length slots
        → slot_of app (with_slot app change slots) ≡ change (slot_of app slots) }
    ensures others { (app other : ℕ) (change : Slot → Slot) (slots : List Slot) → other ≢ app
        → slot_of other (with_slot app change slots) ≡ slot_of other slots }
    ensures number { (app : ℕ) (change : Slot → Slot) (slots : List Slot)
        → length (with_slot app change slots) ≡ length slots }
{}

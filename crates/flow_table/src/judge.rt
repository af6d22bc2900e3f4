//! Who says whether a turn's changes may stand.

ghost use Rattle.std.specs.Prelude.{◌≡◌, List, Bool, true};
ghost use Rattle.flow_table.specs.View.{TableView, plains};

use crate::view::TableView;

/// Says of the tables of the joined switches, as applications see them, by switch number ascending, whether
/// they may stand.
pub trait Judge {
    // Which tables it lets stand, whatever room their lists have.
    ghost accepts: { Self → List TableView → Bool };

    /// Tells whether these tables may stand; takes no memory.
    fn allows(&self, tables: &[TableView]) -> bool
        ensures { result ≡ accepts self.now (plains tables.now) };
}

/// The judge that lets all tables stand.
#[derive(Clone, Copy, Debug, PartialEq, Eq)]
pub struct AllowAll;

impl Judge for AllowAll {
    ghost accepts = { λ _ _. true };

    fn allows(&self, _tables: &[TableView]) -> bool
        ensures { result ≡ true }
    {
        true
    }
}

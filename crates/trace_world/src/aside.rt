//! A line that stands between two acts.

use std::alloc::Global;
use std::cell::Cell;
use std::rc::Rc;

/// Where another part of the program leaves what is told before the next act.
#[derive(Drop)]
pub struct Aside {
    place: Rc<Cell<Option<String>>, Global>,
}

impl Aside {
    /// Makes a place where nothing is left yet, if there is memory for it.
    pub(crate) fn new(alloc: Global) -> Option<Aside> {
        match Rc::new(alloc, Cell::new(None)) {
            Ok(place) => Some(Aside { place }),
            Err(_) => None,
        }
    }

    /// Gives the same place again, unless too many have it.
    pub(crate) fn again(&self) -> Option<Aside> {
        match self.place.clone() {
            Ok(place) => Some(Aside { place }),
            Err(_) => None,
        }
    }

    /// Leaves a line, in place of one that was not told yet.
    pub fn leave(&self, line: String) {
        self.place.set(Some(line));
    }

    /// Takes the line that was left.
    pub(crate) fn take(&self) -> Option<String> {
        self.place.replace(None)
    }
}

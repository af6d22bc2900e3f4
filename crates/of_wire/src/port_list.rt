//! A list of ports.

ghost use Rattle.std.specs.Prelude.{◌≡◌, ◌↔◌, [], length, IsTrue};
ghost use Rattle.std.specs.Slice.Iter.{iter_rest};

use of_types::PortDesc;
use std::alloc::Global;
use std::cmp::{Eq, PartialEq};
use std::marker::Model;
use std::slice;

/// Descriptions of ports, in the order of the message. Contracts see the list of them.
#[derive(Drop, Debug, Clone)]
pub struct PortList {
    ports: Vec<PortDesc>,
}

impl Model for PortList {
    ghost use Rattle.std.specs.Prelude.{List};
    ghost use Rattle.of_types.specs.declared.port_desc.PortDesc.{PortDesc};

    ghost Value = { List PortDesc };

    ghost view = { λ s. s.ports.items };
}

impl PortList {
    /// Makes an empty list; takes no memory.
    pub fn new(alloc: Global) -> PortList
        ensures { result ≡ [] }
    {
        PortList {
            ports: Vec::new(alloc),
        }
    }

    /// Makes a vector into the list of its ports; takes no memory.
    pub fn from_vec(ports: Vec<PortDesc>) -> PortList
        ensures { result ≡ ports.items }
    {
        PortList { ports }
    }

    /// Gives the vector back; takes no memory.
    pub fn into_vec(self) -> Vec<PortDesc>
        ensures { result.items ≡ self }
    {
        self.ports
    }

    /// Lends the ports as a slice.
    pub fn as_slice(&self) -> &[PortDesc]
        ensures { result.now ≡ self.now }
    {
        self.ports.as_slice()
    }

    /// Goes over the ports, from the first to the last.
    pub fn iter(&self) -> slice::Iter<'_, PortDesc>
        ensures { iter_rest result ≡ self.now }
    {
        self.ports.iter()
    }

    /// Counts the ports.
    pub fn len(&self) -> usize
        ensures { result ≡ length self.now }
    {
        self.ports.len()
    }

    /// Tells whether there are no ports.
    pub fn is_empty(&self) -> bool
        ensures { IsTrue result ↔ (self.now ≡ []) }
    {
        self.ports.is_empty()
    }
}

impl PartialEq for PortList {
    ghost use Rattle.std.specs.Cmp.Lexicographic.{pointwise, lists_per};
    ghost use Rattle.of_types.specs.contracts.port_desc.PortDescPartialEq.TheImpl.Laws.{laws-law};

    ghost eq = { λ x y. pointwise ⟦<PortDesc as PartialEq>⟧.eq x y };

    ghost laws = { lists_per laws-law };

    fn eq(&self, other: &PortList) -> bool {
        self.ports == other.ports
    }
}

impl Eq for PortList {
    ghost use Rattle.std.specs.Cmp.Lexicographic.{lists_equiv};
    ghost use Rattle.of_types.specs.contracts.port_desc.PortDescEq.TheImpl.Laws.{laws-law};

    ghost laws = { lists_equiv laws-law };
}

//! A list of actions.

ghost use Rattle.std.specs.Prelude.{◌≡◌, ◌↔◌, ℕ, [], length, IfOk, IsTrue, Contains};
ghost use Rattle.std.specs.Slice.Iter.{iter_rest};

use crate::action::Action;
use std::alloc::{AllocError, Global};
use std::cmp::{Eq, PartialEq};
use std::marker::Model;
use std::slice;

/// Actions in the order in which they are done. Contracts see the list of them.
#[derive(Drop, Debug, Clone)]
pub struct ActionList {
    actions: Vec<Action>,
}

impl Model for ActionList {
    ghost use Rattle.std.specs.Prelude.{List};
    ghost use Rattle.of_action.specs.declared.action.Action.{Action};

    ghost Value = { List Action };

    ghost view = { λ s. s.actions.items };
}

impl ActionList {
    /// Makes an empty list; takes no memory.
    pub fn new(alloc: Global) -> ActionList
        ensures { result ≡ [] }
    {
        ActionList {
            actions: Vec::new(alloc),
        }
    }

    /// Makes a vector into the list of its actions; takes no memory.
    pub fn from_vec(actions: Vec<Action>) -> ActionList
        ensures { result ≡ actions.items }
    {
        ActionList { actions }
    }

    /// Gives the vector back; takes no memory.
    pub fn into_vec(self) -> Vec<Action>
        ensures { result.items ≡ self }
    {
        self.actions
    }

    /// Lends the actions as a slice.
    pub fn as_slice(&self) -> &[Action]
        ensures { result.now ≡ self.now }
    {
        self.actions.as_slice()
    }

    /// Goes over the actions, from the first to the last.
    pub fn iter(&self) -> slice::Iter<'_, Action>
        ensures { iter_rest result ≡ self.now }
    {
        self.actions.iter()
    }

    /// Counts the actions.
    pub fn len(&self) -> usize
        ensures { result ≡ length self.now }
    {
        self.actions.len()
    }

    /// Tells whether there are no actions.
    pub fn is_empty(&self) -> bool
        ensures { IsTrue result ↔ (self.now ≡ []) }
    {
        self.actions.is_empty()
    }
}

impl PartialEq for ActionList {
    ghost use Rattle.std.specs.Cmp.Lexicographic.{pointwise, lists_per};

    ghost eq = { λ x y. pointwise ⟦<Action as PartialEq>⟧.eq x y };

    ghost use Rattle.of_action.specs.contracts.action.ActionPartialEq.TheImpl.Laws.{laws-law};

    ghost laws = { lists_per laws-law };

    fn eq(&self, other: &ActionList) -> bool {
        self.actions == other.actions
    }
}

impl Eq for ActionList {
    ghost use Rattle.std.specs.Cmp.Lexicographic.{lists_equiv};
    ghost use Rattle.of_action.specs.contracts.action.ActionEq.TheImpl.Laws.{laws-law};

    ghost laws = { lists_equiv laws-law };
}

/// Tells whether some OUTPUT of the list goes to the port. An ENQUEUE is none. Takes no memory.
pub fn outputs_to(list: &ActionList, port: u16) -> bool
    ensures { IsTrue result ↔ ((max_len : ℕ) × Contains list.now (Action.Output port max_len)) }
{
    list.as_slice().iter().any(
        |action| matches!(action, Action::Output { port: to, .. } if *to == port),
    )
}

fn copy_action(action: &Action) -> Result<Action, AllocError>
    ensures { IfOk result (λ a. a ≡ action.now) }
{
    action.clone()
}

/// Copies the actions of a list. `AllocError` where there is no memory for them.
pub fn copy_actions(alloc: Global, list: &ActionList) -> Result<ActionList, AllocError>
    ensures { IfOk result (λ copies. copies ≡ list.now) }
{
    let mut copies = Vec::new(alloc);
    for action in list.as_slice() {
        copies.push(copy_action(action)?)?;
    }
    Ok(ActionList::from_vec(copies))
}

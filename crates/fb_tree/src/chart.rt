//! Execution control charts and algorithms (IEC 61499-1, 5.2.1 and 5.2.2).

use crate::expression::Expr;
use crate::network::End;
use crate::statement::Stmt;
use fb_text::{NameUse, Place};

/// What a state does: run an algorithm, send an event, or both.
#[derive(Debug)]
pub struct Action {
    pub algorithm: Option<NameUse>,
    pub event: Option<End>,
}

impl Drop for Action {
    fn drop(self) {
        let Self {
            algorithm: _,
            event: _,
        } = self;
    }
}

/// A state of the chart. The first one is the initial state.
#[derive(Debug)]
pub struct State {
    pub name: NameUse,
    pub actions: Vec<Action>,
}

impl Drop for State {
    fn drop(self) {
        let Self {
            name: _,
            actions: _,
        } = self;
    }
}

/// What clears a transition.
pub enum Condition {
    /// The number `1`.
    Always(Place),
    Event(End),
    Guarded(End, Expr),
    Guard(Expr),
}

impl Drop for Condition {
    fn drop(self) {
        match self {
            Self::Always(_) | Self::Event(_) | Self::Guarded(_, _) | Self::Guard(_) => {}
        }
    }
}

/// A transition between two states.
pub struct Transition {
    pub source: NameUse,
    pub destination: NameUse,
    pub condition: Condition,
}

impl Drop for Transition {
    fn drop(self) {
        let Self {
            source: _,
            destination: _,
            condition: _,
        } = self;
    }
}

/// An algorithm. Of one that is not in Structured Text the statements are not kept.
pub struct Algorithm {
    pub name: NameUse,
    pub language: NameUse,
    pub statements: Vec<Stmt>,
}

impl Drop for Algorithm {
    fn drop(self) {
        let Self {
            name: _,
            language: _,
            statements: _,
        } = self;
    }
}

/// The states, transitions and algorithms of a block type.
pub struct Chart {
    pub states: Vec<State>,
    pub transitions: Vec<Transition>,
    pub algorithms: Vec<Algorithm>,
    /// There was a section of states, perhaps an empty one.
    pub is_written: bool,
}

impl Drop for Chart {
    fn drop(self) {
        let Self {
            states: _,
            transitions: _,
            algorithms: _,
            is_written: _,
        } = self;
    }
}

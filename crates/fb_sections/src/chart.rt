//! States and their actions.

ghost use Rattle.fb_grammar.specs.{Gives.{Gives, GivesEach}, Reading.{read}};
ghost use Rattle.fb_sections.specs.Chart.{action, actions, sent_event, state, states};
ghost use Rattle.fb_tree.specs.{Tree.{StateTree, state_tree}, declared.chart.Action.{Action}};
ghost use Rattle.std.specs.Prelude.{◌≡◌, map};

use crate::connecting::end;
use crate::frame::section;
use fb_grammar::{Kind, NAMES, Reader, Stop, Tokens, is_next, key, listed, name};
use fb_tree::{Action, End, State};
use std::alloc::Global;

/// An arrow and the event that is sent.
#[tactic(auto, unfolding(crate::specs::Chart::sent_event))]
fn sent_event(alloc: Global, tokens: &mut Tokens<'_>) -> Result<End, Stop>
    ensures { Gives (λ end. end) result tokens.new (read sent_event tokens.old) }
{
    key(tokens, Kind::Arrow)?;
    end(alloc, tokens)
}

#[tactic(auto, unfolding(crate::specs::Chart::action, crate::specs::Chart::sent_event, fb_grammar::specs::Words::name))]
fn action(alloc: Global, tokens: &mut Tokens<'_>) -> Result<Action, Stop>
    ensures { Gives (λ action. action) result tokens.new (read action tokens.old) }
{
    let mut action = Action {
        algorithm: None,
        event: None,
    };
    if is_next(tokens, &NAMES) {
        let algorithm = name(alloc, tokens)?;
        action.algorithm = Some(algorithm);
        if !is_next(tokens, &[Kind::Arrow]) {
            return Ok(action);
        }
    }
    let event = sent_event(alloc, tokens)?;
    action.event = Some(event);
    Ok(action)
}

/// Reads actions.
#[derive(Drop)]
struct ActionReader;

impl Reader for ActionReader {
    type Item = Action;

    ghost Tree = { Action };

    ghost view = { λ action. action };

    ghost reads = { λ _. read action };

    fn read(&self, alloc: Global, tokens: &mut Tokens<'_>) -> Result<Action, Stop> {
        action(alloc, tokens)
    }
}

/// The actions of a state, if they are written.
#[tactic(auto, unfolding(crate::specs::Chart::actions), using(fb_grammar::proofs::Repeating::as_they_are))]
fn actions(alloc: Global, tokens: &mut Tokens<'_>) -> Result<Vec<Action>, Stop>
    ensures { Gives (λ actions. actions.items) result tokens.new (read actions tokens.old) }
{
    if !is_next(tokens, &[Kind::Colon]) {
        return Ok(Vec::new(alloc));
    }
    key(tokens, Kind::Colon)?;
    listed(&ActionReader, alloc, tokens)
}

/// Reads states.
#[derive(Drop)]
struct StateReader;

impl Reader for StateReader {
    type Item = State;

    ghost Tree = { StateTree };

    ghost view = { state_tree };

    ghost reads = { λ _. read state };

    #[tactic(auto, unfolding(crate::specs::Chart::state))]
    fn read(&self, alloc: Global, tokens: &mut Tokens<'_>) -> Result<State, Stop> {
        let name = name(alloc, tokens)?;
        let actions = actions(alloc, tokens)?;
        key(tokens, Kind::Semicolon)?;
        let state = State { name, actions };
        Ok(state)
    }
}

/// A section of states.
#[tactic(auto, unfolding(crate::specs::Chart::states, crate::specs::Chart::state, fb_grammar::specs::Words::name))]
pub fn states(alloc: Global, tokens: &mut Tokens<'_>) -> Result<Vec<State>, Stop>
    ensures { GivesEach state_tree result tokens.new (read states tokens.old) }
{
    section(Kind::EcStates, &StateReader, Kind::EndStates, alloc, tokens)
}

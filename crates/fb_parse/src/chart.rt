//! Transitions and algorithms (IEC 61499-1, 5.2.1 and 5.2.2).

ghost use Rattle.fb_structured_text.specs.{Forms.Gives.{Gives, GivesEach}, Forms.Reading.{read}};
ghost use Rattle.fb_parse.specs.Chart.{algorithm, algorithm_body, algorithm_body_tree, bracketed, condition, event_condition, joined_test, optional_colon, optional_test, other_language, structured_text, transition, transitions};
ghost use Rattle.fb_tree.specs.{Expression.{expression_tree}, Statement.{statement_tree}};
ghost use Rattle.fb_tree.specs.Tree.{TransitionTree, algorithm_tree, condition_tree, transition_tree};
ghost use Rattle.std.specs.Prelude.{◌≡◌, Ok, map, option_map};

use fb_sections::{end, section, skip};
use fb_structured_text::grammar::{
    Kind, Reader, Stop, Tokens, is_next, key, name, name_of, one_of,
};
use fb_structured_text::{expression, statements};
use fb_tree::text::NameUse;
use fb_tree::{Algorithm, Condition, Expr, Stmt, Transition};
use std::alloc::Global;

/// An expression in brackets.
#[tactic(auto, unfolding(crate::specs::Chart::bracketed))]
fn bracketed(alloc: Global, tokens: &mut Tokens<'_>) -> Result<Expr, Stop>
    ensures { Gives expression_tree result tokens.new (read bracketed tokens.old) }
{
    key(tokens, Kind::OpenBracket)?;
    let test = expression(alloc, tokens)?;
    key(tokens, Kind::CloseBracket)?;
    Ok(test)
}

/// An expression after `&` or `AND`.
#[tactic(auto, unfolding(crate::specs::Chart::joined_test))]
fn joined_test(alloc: Global, tokens: &mut Tokens<'_>) -> Result<Expr, Stop>
    ensures { Gives expression_tree result tokens.new (read joined_test tokens.old) }
{
    one_of(tokens, &[Kind::Ampersand, Kind::And])?;
    expression(alloc, tokens)
}

/// What is tested when an event comes, if it is written.
#[tactic(auto, unfolding(crate::specs::Chart::optional_test, crate::specs::Chart::bracketed, crate::specs::Chart::joined_test))]
fn optional_test(alloc: Global, tokens: &mut Tokens<'_>) -> Result<Option<Expr>, Stop>
    ensures { Gives (option_map expression_tree) result tokens.new (read optional_test tokens.old) }
{
    if is_next(tokens, &[Kind::OpenBracket]) {
        let test = bracketed(alloc, tokens)?;
        Ok(Some(test))
    } else if is_next(tokens, &[Kind::Ampersand, Kind::And]) {
        let test = joined_test(alloc, tokens)?;
        Ok(Some(test))
    } else {
        Ok(None)
    }
}

/// An event, and what is tested when it comes.
#[tactic(auto, unfolding(crate::specs::Chart::event_condition))]
fn event_condition(alloc: Global, tokens: &mut Tokens<'_>) -> Result<Condition, Stop>
    ensures { Gives condition_tree result tokens.new (read event_condition tokens.old) }
{
    let event = end(alloc, tokens)?;
    let test = optional_test(alloc, tokens)?;
    let condition = match test {
        Some(test) => Condition::Guarded(event, test),
        None => Condition::Event(event),
    };
    Ok(condition)
}

/// The condition of a transition.
#[tactic(auto, unfolding(crate::specs::Chart::condition, crate::specs::Chart::bracketed))]
fn condition(alloc: Global, tokens: &mut Tokens<'_>) -> Result<Condition, Stop>
    ensures { Gives condition_tree result tokens.new (read condition tokens.old) }
{
    if is_next(tokens, &[Kind::One]) {
        let one = key(tokens, Kind::One)?;
        Ok(Condition::Always(one))
    } else if is_next(tokens, &[Kind::OpenBracket]) {
        let test = bracketed(alloc, tokens)?;
        Ok(Condition::Guard(test))
    } else {
        event_condition(alloc, tokens)
    }
}

/// A transition.
#[tactic(auto, unfolding(crate::specs::Chart::transition))]
fn transition(alloc: Global, tokens: &mut Tokens<'_>) -> Result<Transition, Stop>
    ensures { Gives transition_tree result tokens.new (read transition tokens.old) }
{
    let source = name(alloc, tokens)?;
    key(tokens, Kind::To)?;
    let destination = name(alloc, tokens)?;
    key(tokens, Kind::Assign)?;
    let condition = condition(alloc, tokens)?;
    key(tokens, Kind::Semicolon)?;
    let transition = Transition {
        source,
        destination,
        condition,
    };
    Ok(transition)
}

/// Reads transitions.
#[derive(Drop)]
struct TransitionReader;

impl Reader for TransitionReader {
    type Item = Transition;

    ghost Tree = { TransitionTree };

    ghost view = { transition_tree };

    ghost reads = { λ _. read transition };

    fn read(&self, alloc: Global, tokens: &mut Tokens<'_>) -> Result<Transition, Stop> {
        transition(alloc, tokens)
    }
}

/// A section of transitions.
#[tactic(auto, unfolding(crate::specs::Chart::transitions, crate::specs::Chart::transition, crate::specs::Chart::name))]
pub fn transitions(alloc: Global, tokens: &mut Tokens<'_>) -> Result<Vec<Transition>, Stop>
    ensures { GivesEach transition_tree result tokens.new (read transitions tokens.old) }
{
    section(
        Kind::EcTransitions,
        &TransitionReader,
        Kind::EndTransitions,
        alloc,
        tokens,
    )
}

/// The language of an algorithm, and its statements if they are kept.
#[derive(Drop)]
struct AlgorithmBody {
    language: NameUse,
    statements: Vec<Stmt>,
}

/// Passes over a colon, if there is one.
#[tactic(auto, unfolding(crate::specs::Chart::optional_colon))]
fn optional_colon(tokens: &mut Tokens<'_>)
    ensures { read optional_colon tokens.old ≡ Ok (tt, tokens.new) }
{
    if is_next(tokens, &[Kind::Colon]) {
        tokens.take();
    }
}

/// An algorithm in Structured Text.
#[tactic(auto, unfolding(crate::specs::Chart::structured_text))]
fn structured_text(alloc: Global, tokens: &mut Tokens<'_>) -> Result<AlgorithmBody, Stop>
    ensures { Gives algorithm_body_tree result tokens.new (read structured_text tokens.old) }
{
    let language = name_of(alloc, tokens, &[Kind::NameSt])?;
    optional_colon(tokens);
    let statements = statements(alloc, tokens)?;
    let body = AlgorithmBody {
        language,
        statements,
    };
    Ok(body)
}

/// An algorithm in another language, which is not kept.
#[tactic(auto, unfolding(crate::specs::Chart::other_language))]
fn other_language(alloc: Global, tokens: &mut Tokens<'_>) -> Result<AlgorithmBody, Stop>
    ensures { Gives algorithm_body_tree result tokens.new (read other_language tokens.old) }
{
    let language = name_of(alloc, tokens, &[Kind::Name, Kind::NameIn, Kind::NameOn])?;
    skip(tokens, Kind::EndAlgorithm);
    let body = AlgorithmBody {
        language,
        statements: Vec::new(alloc),
    };
    Ok(body)
}

#[tactic(auto, unfolding(crate::specs::Chart::algorithm_body, crate::specs::Chart::structured_text))]
fn algorithm_body(alloc: Global, tokens: &mut Tokens<'_>) -> Result<AlgorithmBody, Stop>
    ensures { Gives algorithm_body_tree result tokens.new (read algorithm_body tokens.old) }
{
    if is_next(tokens, &[Kind::NameSt]) {
        structured_text(alloc, tokens)
    } else {
        other_language(alloc, tokens)
    }
}

/// An algorithm.
#[tactic(auto, unfolding(crate::specs::Chart::algorithm))]
pub fn algorithm(alloc: Global, tokens: &mut Tokens<'_>) -> Result<Algorithm, Stop>
    ensures { Gives algorithm_tree result tokens.new (read algorithm tokens.old) }
{
    key(tokens, Kind::Algorithm)?;
    let name = name(alloc, tokens)?;
    key(tokens, Kind::NameIn)?;
    let body = algorithm_body(alloc, tokens)?;
    key(tokens, Kind::EndAlgorithm)?;
    let algorithm = Algorithm {
        name,
        language: body.language,
        statements: body.statements,
    };
    Ok(algorithm)
}

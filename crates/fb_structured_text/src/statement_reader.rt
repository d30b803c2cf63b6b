//! Reading statements.
ghost use Rattle.fb_grammar.specs.{Form.{many, option}, Gives.{Gives, GivesEach}, Reading.{first, is_next, read}, Upcoming.{are_tokens, front}};
ghost use Rattle.fb_structured_text.specs.Expression.{expression, levels, reference};
ghost use Rattle.fb_structured_text.specs.Statement.{
  simple_firsts,
  announced,
  arm,
  arms,
  assignment_statement,
  at_level,
  case,
  case_statement,
  cases,
  enclosed,
  ended,
  for_statement,
  if_statement,
  nested_statement,
  otherwise,
  repeat_statement,
  simple_statement,
  statement,
  while_statement,
};
ghost use Rattle.fb_grammar.specs.declared.kind.Kind.TheVariants.{By};
ghost use Rattle.fb_tree.specs.{Expression.{expression_tree}, Statement.{arm_tree, statement_tree}};
ghost use Rattle.std.specs.Prelude.{◌≡◌, ◌<◌, ◌∷◌, [], option_map};

use crate::expression_reader::{LEVELS, expression_at, reference};
use crate::labels::{begins_label, labels};
use crate::references::Variable;
use fb_grammar::{Kind, Stop, Tokens, is_next, key, name};
use fb_tree::{Counting, Expr, Stmt};
use std::alloc::Global;

/// A word followed by `;`.
#[tactic(auto, unfolding(crate::specs::Statement::ended))]
fn ended(tokens: &mut Tokens<'_>, word: Kind) -> Result<(), Stop>
    requires { are_tokens (word ∷ []) }
    ensures { Gives (λ _. front tokens.old) result tokens.new (read (ended word) tokens.old) }
{
    key(tokens, word)?;
    key(tokens, Kind::Semicolon)?;
    Ok(())
}

/// A word followed by an expression.
#[tactic(auto, unfolding(crate::specs::Statement::announced))]
fn announced(alloc: Global, word: Kind, left: u8, tokens: &mut Tokens<'_>) -> Result<Expr, Stop>
    requires { are_tokens (word ∷ []) }
    ensures { Gives expression_tree result tokens.new (read (announced word (expression left)) tokens.old) }
{
    key(tokens, word)?;
    expression_at(alloc, left, tokens)
}

#[tactic(auto, unfolding(crate::specs::Statement::assignment_statement))]
fn assignment(alloc: Global, left: u8, tokens: &mut Tokens<'_>) -> Result<Stmt, Stop>
    ensures { Gives statement_tree result tokens.new (read (assignment_statement left) tokens.old) }
{
    let variable = reference(alloc, left, tokens)?;
    let assign = key(tokens, Kind::Assign)?;
    let value = expression_at(alloc, left, tokens)?;
    key(tokens, Kind::Semicolon)?;
    let statement = match variable {
        Variable::Name(name) => Stmt::Set(name, assign, value),
        Variable::Reference(reference, subscripts) => Stmt::Assign(
            reference, subscripts, assign, value,
        ),
    };
    Ok(statement)
}

/// A statement that contains no others.
#[tactic(auto, unfolding(crate::specs::Statement::simple_statement, crate::specs::Statement::ended))]
fn simple_statement(alloc: Global, left: u8, tokens: &mut Tokens<'_>) -> Result<Stmt, Stop>
    ensures { Gives statement_tree result tokens.new (read (simple_statement left) tokens.old) }
{
    if is_next(tokens, &[Kind::Semicolon]) {
        key(tokens, Kind::Semicolon)?;
        Ok(Stmt::Empty)
    } else if is_next(tokens, &[Kind::Exit]) {
        ended(tokens, Kind::Exit)?;
        Ok(Stmt::Exit)
    } else if is_next(tokens, &[Kind::Return]) {
        ended(tokens, Kind::Return)?;
        Ok(Stmt::Return)
    } else {
        assignment(alloc, left, tokens)
    }
}

/// Whether a statement that may nest `left` levels comes next.
fn begins_statement(left: u8, tokens: &Tokens<'_>) -> bool
    ensures { result ≡ is_next (first (statement left)) tokens.now }
{
    begins_simple(tokens)
        || left > 0
            && is_next(
                tokens,
                &[Kind::If, Kind::Case, Kind::For, Kind::While, Kind::Repeat],
            )
}

/// Whether a statement comes next that contains no others.
fn begins_simple(tokens: &Tokens<'_>) -> bool
    ensures { result ≡ is_next simple_firsts tokens.now }
{
    is_next(
        tokens,
        &[
            Kind::Semicolon,
            Kind::Exit,
            Kind::Return,
            Kind::Name,
            Kind::NameIn,
            Kind::NameOn,
            Kind::NameSt,
        ],
    )
}

/// Statements that may nest `left` levels.
#[cycle(statement)]
fn statements_at(alloc: Global, left: u8, tokens: &mut Tokens<'_>) -> Result<Vec<Stmt>, Stop>
    ensures { GivesEach statement_tree result tokens.new (read (many (statement left)) tokens.old) }
{
    // Many lists have one statement.
    let mut statements = Vec::with_capacity(alloc, 1)?;
    while begins_statement(left, tokens) {
        let next = statement(alloc, left, tokens)?;
        statements.push(next)?;
    }
    statements.shrink_to_fit();
    Ok(statements)
}

/// A statement that may nest `left` levels.
#[cycle(statement)]
fn statement(alloc: Global, left: u8, tokens: &mut Tokens<'_>) -> Result<Stmt, Stop>
    ensures { Gives statement_tree result tokens.new (read (statement left) tokens.old) }
{
    if left == 0 || begins_simple(tokens) {
        simple_statement(alloc, left, tokens)
    } else {
        nested_statement(alloc, left, tokens)
    }
}

/// A statement that contains others.
#[cycle(statement)]
#[tactic(auto, unfolding(crate::specs::Statement::nested_statement))]
fn nested_statement(alloc: Global, left: u8, tokens: &mut Tokens<'_>) -> Result<Stmt, Stop>
    requires { 0 < left }
    ensures { Gives statement_tree result tokens.new (read (at_level nested_statement left) tokens.old) }
{
    if is_next(tokens, &[Kind::If]) {
        if_statement(alloc, left, tokens)
    } else if is_next(tokens, &[Kind::Case]) {
        case_statement(alloc, left, tokens)
    } else if is_next(tokens, &[Kind::For]) {
        for_statement(alloc, left, tokens)
    } else if is_next(tokens, &[Kind::While]) {
        while_statement(alloc, left, tokens)
    } else {
        repeat_statement(alloc, left, tokens)
    }
}

/// Statements between two words.
#[cycle(statement)]
#[tactic(auto, unfolding(crate::specs::Statement::enclosed))]
fn enclosed(
    alloc: Global,
    word: Kind,
    below: u8,
    end: Kind,
    tokens: &mut Tokens<'_>,
) -> Result<Vec<Stmt>, Stop>
    requires word { are_tokens (word ∷ []) }
    requires end { are_tokens (end ∷ []) }
    ensures { GivesEach statement_tree result tokens.new
        (read (enclosed word (statement below) end) tokens.old) }
{
    key(tokens, word)?;
    let statements = statements_at(alloc, below, tokens)?;
    key(tokens, end)?;
    Ok(statements)
}

/// `ELSE` and what is done after it; nothing if it is not written.
#[cycle(statement)]
#[tactic(auto, unfolding(crate::specs::Statement::otherwise))]
fn otherwise(alloc: Global, below: u8, tokens: &mut Tokens<'_>) -> Result<Vec<Stmt>, Stop>
    ensures { GivesEach statement_tree result tokens.new (read (otherwise (statement below)) tokens.old) }
{
    if !is_next(tokens, &[Kind::Else]) {
        return Ok(Vec::new(alloc));
    }
    key(tokens, Kind::Else)?;
    statements_at(alloc, below, tokens)
}

/// A condition after `IF` or `ELSIF`, and what is done if it holds.
#[cycle(statement)]
#[tactic(auto, unfolding(crate::specs::Statement::arm))]
fn arm(
    alloc: Global,
    word: Kind,
    left: u8,
    tokens: &mut Tokens<'_>,
) -> Result<(Expr, Vec<Stmt>), Stop>
    requires above { 0 < left }
    requires word { are_tokens (word ∷ []) }
    ensures { Gives arm_tree result tokens.new (read (at_level (arm word) left) tokens.old) }
{
    let condition = announced(alloc, word, left, tokens)?;
    key(tokens, Kind::Then)?;
    let statements = statements_at(alloc, left - 1, tokens)?;
    Ok((condition, statements))
}

/// The conditions of `IF` and each `ELSIF`, with what is done.
#[cycle(statement)]
#[tactic(auto, unfolding(crate::specs::Statement::arms))]
fn arms(alloc: Global, left: u8, tokens: &mut Tokens<'_>) -> Result<Vec<(Expr, Vec<Stmt>)>, Stop>
    requires { 0 < left }
    ensures { GivesEach arm_tree result tokens.new (read (at_level arms left) tokens.old) }
{
    let first = arm(alloc, Kind::If, left, tokens)?;
    // Most have no `ELSIF`.
    let mut arms = Vec::with_capacity(alloc, 1)?;
    arms.push(first)?;
    while is_next(tokens, &[Kind::Elsif]) {
        let next = arm(alloc, Kind::Elsif, left, tokens)?;
        arms.push(next)?;
    }
    Ok(arms)
}

#[cycle(statement)]
#[tactic(auto, unfolding(crate::specs::Statement::if_statement))]
fn if_statement(alloc: Global, left: u8, tokens: &mut Tokens<'_>) -> Result<Stmt, Stop>
    requires { 0 < left }
    ensures { Gives statement_tree result tokens.new (read (at_level if_statement left) tokens.old) }
{
    let arms = arms(alloc, left, tokens)?;
    let otherwise = otherwise(alloc, left - 1, tokens)?;
    key(tokens, Kind::EndIf)?;
    Ok(Stmt::If(arms, otherwise))
}

/// The statements of one case, after its labels.
#[cycle(statement)]
#[tactic(auto, unfolding(crate::specs::Statement::case))]
fn case(alloc: Global, below: u8, tokens: &mut Tokens<'_>) -> Result<Vec<Stmt>, Stop>
    ensures { GivesEach statement_tree result tokens.new (read (case (statement below)) tokens.old) }
{
    labels(tokens)?;
    key(tokens, Kind::Colon)?;
    statements_at(alloc, below, tokens)
}

/// The statements of all cases.
#[cycle(statement)]
#[tactic(auto, unfolding(crate::specs::Statement::cases))]
fn cases(alloc: Global, below: u8, tokens: &mut Tokens<'_>) -> Result<Vec<Stmt>, Stop>
    ensures { GivesEach statement_tree result tokens.new (read (cases (statement below)) tokens.old) }
{
    let mut statements = case(alloc, below, tokens)?;
    while begins_label(tokens) {
        let mut more = case(alloc, below, tokens)?;
        statements.append(&mut more)?;
    }
    Ok(statements)
}

#[cycle(statement)]
#[tactic(auto, unfolding(crate::specs::Statement::case_statement))]
fn case_statement(alloc: Global, left: u8, tokens: &mut Tokens<'_>) -> Result<Stmt, Stop>
    requires { 0 < left }
    ensures { Gives statement_tree result tokens.new (read (at_level case_statement left) tokens.old) }
{
    let selector = announced(alloc, Kind::Case, left, tokens)?;
    key(tokens, Kind::Of)?;
    let cases = cases(alloc, left - 1, tokens)?;
    let otherwise = otherwise(alloc, left - 1, tokens)?;
    key(tokens, Kind::EndCase)?;
    Ok(Stmt::Case(selector, cases, otherwise))
}

/// `BY` and an expression, if they are written.
#[tactic(auto, unfolding(crate::specs::Statement::announced))]
fn step(alloc: Global, left: u8, tokens: &mut Tokens<'_>) -> Result<Option<Expr>, Stop>
    ensures { Gives (option_map expression_tree) result tokens.new
        (read (option (announced By (expression left))) tokens.old) }
{
    if !is_next(tokens, &[Kind::By]) {
        return Ok(None);
    }
    let step = announced(alloc, Kind::By, left, tokens)?;
    Ok(Some(step))
}

#[cycle(statement)]
#[tactic(auto, unfolding(crate::specs::Statement::for_statement))]
fn for_statement(alloc: Global, left: u8, tokens: &mut Tokens<'_>) -> Result<Stmt, Stop>
    requires { 0 < left }
    ensures { Gives statement_tree result tokens.new (read (at_level for_statement left) tokens.old) }
{
    key(tokens, Kind::For)?;
    let variable = name(alloc, tokens)?;
    let from = announced(alloc, Kind::Assign, left, tokens)?;
    let to = announced(alloc, Kind::To, left, tokens)?;
    let by = step(alloc, left, tokens)?;
    let body = enclosed(alloc, Kind::Do, left - 1, Kind::EndFor, tokens)?;
    let counting = Counting {
        variable,
        from,
        to,
        by,
    };
    Ok(Stmt::For(Box::new(alloc, counting)?, body))
}

#[cycle(statement)]
#[tactic(auto, unfolding(crate::specs::Statement::while_statement))]
fn while_statement(alloc: Global, left: u8, tokens: &mut Tokens<'_>) -> Result<Stmt, Stop>
    requires { 0 < left }
    ensures { Gives statement_tree result tokens.new (read (at_level while_statement left) tokens.old) }
{
    let condition = announced(alloc, Kind::While, left, tokens)?;
    let body = enclosed(alloc, Kind::Do, left - 1, Kind::EndWhile, tokens)?;
    Ok(Stmt::While(condition, body))
}

#[cycle(statement)]
#[tactic(auto, unfolding(crate::specs::Statement::repeat_statement))]
fn repeat_statement(alloc: Global, left: u8, tokens: &mut Tokens<'_>) -> Result<Stmt, Stop>
    requires { 0 < left }
    ensures { Gives statement_tree result tokens.new (read (at_level repeat_statement left) tokens.old) }
{
    let body = enclosed(alloc, Kind::Repeat, left - 1, Kind::Until, tokens)?;
    let condition = expression_at(alloc, left, tokens)?;
    key(tokens, Kind::EndRepeat)?;
    Ok(Stmt::Repeat(body, condition))
}

/// The statements at the outermost level. The tokens that are left are those after them; on a
/// fault those from the first one that does not continue them.
pub fn statements(alloc: Global, tokens: &mut Tokens<'_>) -> Result<Vec<Stmt>, Stop>
    ensures { GivesEach statement_tree result tokens.new (read (many (statement levels)) tokens.old) }
{
    statements_at(alloc, LEVELS, tokens)
}

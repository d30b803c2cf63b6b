//! The check of statements.
ghost use Rattle.std.specs.Prelude.{◌≡◌, ◌++◌, OnOk, is_some, map, option_map};
ghost use Rattle.fb_tree.specs.Expression.{alone_tree, expression_tree, expressions_of, no_expressions, reference_expression, reference_tree};
ghost use Rattle.fb_tree.specs.Statement.{statement_tree, statements_of};
ghost use Rattle.fb_expr.specs.{Classes.{join}, Expressions.{class_in, faults_in}, Names.{names_in}, Rules.{class_faults}};
ghost use Rattle.fb_expr.specs.Statements.{assignment_faults, counter_faults, range_faults, statement_faults, statements_faults};

use crate::classes::joined;
use crate::expressions::{judge, judge_at, judge_name, judge_reference};
use crate::names::Names;
use crate::rules::{ClassPlace, report_class};
use fb_iface::{Class, Fault};
use fb_tree::text::{NameUse, Span};
use fb_tree::{Counting, Expr, Reference, Stmt};
use std::alloc::AllocError;

/// Reports the faults of statements.
#[cycle(statements)]
pub fn report_statements(
    names: Names<'_>,
    statements: &[Stmt],
    found: &mut Vec<Fault>,
) -> Result<(), AllocError>
    ensures { OnOk result (found.new.items ≡ found.old.items
        ++ statements_faults (names_in names.entry)
        (statements_of (map statement_tree statements.now))) }
{
    for statement in statements {
        report_statement(names, statement, found)?;
    }
    Ok(())
}

/// Reports the faults of a statement.
#[cycle(statements)]
fn report_statement(
    names: Names<'_>,
    statement: &Stmt,
    found: &mut Vec<Fault>,
) -> Result<(), AllocError>
    ensures { OnOk result
        (found.new.items
        ≡ found.old.items ++ statement_faults (names_in names.entry) (statement_tree statement.now)) }
{
    match statement {
        Stmt::Empty | Stmt::Exit | Stmt::Return => Ok(()),
        Stmt::Set(name, place, value) => report_set(names, name, place.span(), value, found),
        Stmt::Assign(variable, subscripts, place, value) => {
            report_assignment(
                names,
                variable,
                subscripts.as_slice(),
                place.span(),
                value,
                found,
            )
        }
        Stmt::If(arms, otherwise) => {
            for (condition, body) in arms {
                judge_at(ClassPlace::Condition, names, condition, found)?;
                report_statements(names, body.as_slice(), found)?;
            }
            report_statements(names, otherwise.as_slice(), found)
        }
        Stmt::Case(selector, cases, otherwise) => {
            judge_at(ClassPlace::Selector, names, selector, found)?;
            report_statements(names, cases.as_slice(), found)?;
            report_statements(names, otherwise.as_slice(), found)
        }
        Stmt::For(counting, body) => {
            report_counting(names, counting, found)?;
            report_statements(names, body.as_slice(), found)
        }
        Stmt::While(condition, body) => {
            judge_at(ClassPlace::Condition, names, condition, found)?;
            report_statements(names, body.as_slice(), found)
        }
        Stmt::Repeat(body, condition) => {
            report_statements(names, body.as_slice(), found)?;
            judge_at(ClassPlace::Condition, names, condition, found)
        }
    }
}

/// Reports the faults of an assignment to a variable that is only a name. `place` is that of `:=`.
fn report_set(
    names: Names<'_>,
    name: &NameUse,
    place: Span,
    value: &Expr,
    found: &mut Vec<Fault>,
) -> Result<(), AllocError>
    ensures { OnOk result
        (found.new.items ≡ found.old.items ++ assignment_faults (names_in names.entry)
        (reference_expression (alone_tree name.now) no_expressions) place (expression_tree value.now)) }
{
    let target = judge_name(names, name, found)?;
    report_value(names, target, place, value, found)
}

/// Reports the faults of an assignment. `place` is that of `:=`.
fn report_assignment(
    names: Names<'_>,
    variable: &Reference,
    subscripts: &[Expr],
    place: Span,
    value: &Expr,
    found: &mut Vec<Fault>,
) -> Result<(), AllocError>
    ensures { OnOk result
        (found.new.items ≡ found.old.items ++ assignment_faults (names_in names.entry)
        (reference_expression (reference_tree variable.now)
        (expressions_of (map expression_tree subscripts.now)))
        place (expression_tree value.now)) }
{
    let target = judge_reference(names, variable, subscripts, found)?;
    report_value(names, target, place, value, found)
}

/// Reports the faults of a value that is assigned to a variable of this class. `place` is that of `:=`.
fn report_value(
    names: Names<'_>,
    target: Class,
    place: Span,
    value: &Expr,
    found: &mut Vec<Fault>,
) -> Result<(), AllocError>
    ensures { OnOk result
        (found.new.items
        ≡ found.old.items ++ (faults_in (names_in names.entry) (expression_tree value.now)
        ++ class_faults
        (is_some (join target (class_in (names_in names.entry) (expression_tree value.now)))) place)) }
{
    let class = judge(names, value, found)?;
    report_class(joined(target, class).is_some(), place, found)
}

/// Reports the faults of how a `FOR` counts.
fn report_counting(
    names: Names<'_>,
    counting: &Counting,
    found: &mut Vec<Fault>,
) -> Result<(), AllocError>
    ensures { OnOk result (found.new.items ≡ found.old.items
        ++ (counter_faults (names_in names.entry) counting.now.variable
        ++ range_faults (names_in names.entry) (expression_tree counting.now.from)
        (expression_tree counting.now.to) (option_map expression_tree counting.now.by))) }
{
    report_counter(names, &counting.variable, found)?;
    report_range(names, &counting.from, &counting.to, &counting.by, found)
}

/// Reports the name after `FOR` if it is no variable, or no whole number.
fn report_counter(
    names: Names<'_>,
    name: &NameUse,
    found: &mut Vec<Fault>,
) -> Result<(), AllocError>
    ensures { OnOk result
        (found.new.items ≡ found.old.items ++ counter_faults (names_in names.entry) name.now) }
{
    let class = judge_name(names, name, found)?;
    report_class(ClassPlace::Counter.is_for(class), name.span.span(), found)
}

/// Reports the faults of the first value of a `FOR`, its last one, and its step.
fn report_range(
    names: Names<'_>,
    from: &Expr,
    to: &Expr,
    by: &Option<Expr>,
    found: &mut Vec<Fault>,
) -> Result<(), AllocError>
    ensures { OnOk result (found.new.items ≡ found.old.items
        ++ range_faults (names_in names.entry) (expression_tree from.now) (expression_tree to.now)
        (option_map expression_tree by.now)) }
{
    judge_at(ClassPlace::Count, names, from, found)?;
    judge_at(ClassPlace::Count, names, to, found)?;
    match by {
        Some(by) => judge_at(ClassPlace::Count, names, by, found),
        None => Ok(()),
    }
}

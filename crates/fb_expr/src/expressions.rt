//! The classes of expressions.
ghost use Rattle.std.specs.Prelude.{◌≡◌, ◌++◌, IfOk, OnOk, is_some, map};
ghost use Rattle.fb_tree.specs.Expression.{alone_tree, expression_tree, expressions_of, no_expressions, operands_of, reference_expression, reference_tree};
ghost use Rattle.fb_expr.specs.Classes.{change, combined, pair_class, unary_class};
ghost use Rattle.fb_expr.specs.{Expressions.{class_in, faults_in, row_class, row_faults, subscript_faults}, Names.{names_in}, Rules.{allows, class_faults}};
ghost use Rattle.fb_expr.specs.{Spans.{span_of}, Statements.{faults_at_place}};

use crate::classes::{broken, changed, operated};
use crate::names::Names;
use crate::references::{judge_names, judge_variable};
use crate::rules::{ClassPlace, report_class};
use crate::spans::span_of;
use fb_iface::{Class, Fault, class_by_form};
use fb_tree::text::NameUse;
use fb_tree::{BinaryUse, Expr, Reference, UnaryUse};
use std::alloc::AllocError;

/// The class of an expression. The faults in it are reported.
#[cycle(judge)]
pub fn judge(names: Names<'_>, expr: &Expr, found: &mut Vec<Fault>) -> Result<Class, AllocError>
    ensures class { IfOk result
        (λ class. class ≡ class_in (names_in names.entry) (expression_tree expr.now)) }
    ensures faults { OnOk result
        (found.new.items
        ≡ found.old.items ++ faults_in (names_in names.entry) (expression_tree expr.now)) }
{
    match expr {
        Expr::Literal(literal) => Ok(class_by_form(literal.form)),
        Expr::Name(used) => judge_name(names, used, found),
        Expr::Reference(reference, subscripts) => {
            judge_reference(names, reference, subscripts.as_slice(), found)
        }
        Expr::Unary(operator, operand) => {
            let class = judge(names, operand, found)?;
            judge_change(operator, class, found)
        }
        Expr::Pair(pair) => {
            let left = judge(names, &pair.0, found)?;
            let right = judge(names, &pair.2, found)?;
            judge_pair(&pair.1, left, right, found)
        }
        Expr::Row(first, operands) => {
            let left = judge(names, first, found)?;
            judge_row(names, left, operands.as_slice(), found)
        }
        Expr::Parentheses(inner, _) => judge(names, inner, found),
    }
}

/// The class of a variable that is only a name.
pub fn judge_name(
    names: Names<'_>,
    used: &NameUse,
    found: &mut Vec<Fault>,
) -> Result<Class, AllocError>
    ensures class { IfOk result (λ class. class ≡ class_in (names_in names.entry)
        (reference_expression (alone_tree used.now) no_expressions)) }
    ensures faults { OnOk result
        (found.new.items ≡ found.old.items ++ faults_in (names_in names.entry)
        (reference_expression (alone_tree used.now) no_expressions)) }
{
    judge_variable(names.scope, &used.name.name(), false, used.span, found)
}

/// The class of a variable with its subscripts.
#[cycle(judge)]
pub fn judge_reference(
    names: Names<'_>,
    reference: &Reference,
    subscripts: &[Expr],
    found: &mut Vec<Fault>,
) -> Result<Class, AllocError>
    ensures class { IfOk result (λ class. class ≡ class_in (names_in names.entry)
        (reference_expression (reference_tree reference.now)
        (expressions_of (map expression_tree subscripts.now)))) }
    ensures faults { OnOk result
        (found.new.items ≡ found.old.items ++ faults_in (names_in names.entry)
        (reference_expression (reference_tree reference.now)
        (expressions_of (map expression_tree subscripts.now)))) }
{
    let class = judge_names(names, reference, found)?;
    judge_subscripts(names, subscripts, found)?;
    Ok(class)
}

/// Reports the faults in subscripts, and those that are no whole numbers.
#[cycle(judge)]
fn judge_subscripts(
    names: Names<'_>,
    subscripts: &[Expr],
    found: &mut Vec<Fault>,
) -> Result<(), AllocError>
    ensures { OnOk result (found.new.items ≡ found.old.items
        ++ subscript_faults (names_in names.entry)
        (expressions_of (map expression_tree subscripts.now))) }
{
    for subscript in subscripts {
        judge_at(ClassPlace::Count, names, subscript, found)?;
    }
    Ok(())
}

/// Reports the faults in an expression, and the expression itself if its place requires another class.
#[cycle(judge)]
pub fn judge_at(
    place: ClassPlace,
    names: Names<'_>,
    expr: &Expr,
    found: &mut Vec<Fault>,
) -> Result<(), AllocError>
    ensures { OnOk result
        (found.new.items
        ≡ found.old.items
        ++ faults_at_place place (names_in names.entry) (expression_tree expr.now)) }
{
    let class = judge(names, expr, found)?;
    report_at(place, class, expr, found)
}

/// Reports an expression of this class if its place requires another one.
fn report_at(
    place: ClassPlace,
    class: Class,
    expr: &Expr,
    found: &mut Vec<Fault>,
) -> Result<(), AllocError>
    ensures { OnOk result
        (found.new.items
        ≡ found.old.items ++ class_faults (allows place class) (span_of (expression_tree expr.now))) }
{
    if place.is_for(class) {
        Ok(())
    } else {
        report_class(false, span_of(expr), found)
    }
}

/// The class of a row of operators, from the left, by the class of what is before them.
#[cycle(judge)]
fn judge_row(
    names: Names<'_>,
    first: Class,
    operands: &[(BinaryUse, Expr)],
    found: &mut Vec<Fault>,
) -> Result<Class, AllocError>
    ensures class { IfOk result
        (λ class. class
        ≡ row_class (names_in names.entry) first
        (operands_of (map (λ o. (o.0, expression_tree o.1)) operands.now))) }
    ensures faults { OnOk result (found.new.items ≡ found.old.items
        ++ row_faults (names_in names.entry) first
        (operands_of (map (λ o. (o.0, expression_tree o.1)) operands.now))) }
{
    let mut left = first;
    for (operator, operand) in operands {
        let right = judge(names, operand, found)?;
        left = judge_pair(operator, left, right, found)?;
    }
    Ok(left)
}

/// The class of an operator before an operand of this class.
fn judge_change(
    operator: &UnaryUse,
    operand: Class,
    found: &mut Vec<Fault>,
) -> Result<Class, AllocError>
    ensures class { IfOk result (λ class. class ≡ unary_class operator.now.operator operand) }
    ensures faults { OnOk result
        (found.new.items
        ≡ found.old.items
        ++ class_faults (is_some (change operator.now.operator operand)) operator.now.span) }
{
    let class = changed(operator.operator, operand);
    report_class(class.is_some(), operator.span.span(), found)?;
    Ok(class.unwrap_or(Class::Free))
}

/// The class of an operator between two operands.
fn judge_pair(
    operator: &BinaryUse,
    left: Class,
    right: Class,
    found: &mut Vec<Fault>,
) -> Result<Class, AllocError>
    ensures class { IfOk result (λ class. class ≡ pair_class operator.now.operator left right) }
    ensures faults { OnOk result
        (found.new.items
        ≡ found.old.items
        ++ class_faults (is_some (combined operator.now.operator left right)) operator.now.span) }
{
    let class = operated(operator.operator, left, right);
    report_class(class.is_some(), operator.span.span(), found)?;
    Ok(class.unwrap_or(broken(operator.operator)))
}

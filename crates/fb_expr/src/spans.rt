//! Where references and expressions are.
ghost use Rattle.std.specs.Prelude.{◌≡◌};
ghost use Rattle.fb_tree.specs.Expression.{expression_tree, reference_tree};
ghost use Rattle.fb_expr.specs.Spans.{across, names_span, span_of};

use fb_tree::text::Span;
use fb_tree::{Expr, Reference};

/// From the start of one to the end of the other.
fn across(first: Span, last: Span) -> Span
    ensures { result ≡ across first last }
{
    Span {
        start: first.start,
        end: last.end,
    }
}

/// Where the names of a reference are that name a variable: the first one, through the second
/// one if that follows it directly.
pub fn span_of_names(reference: &Reference) -> Span
    ensures { result ≡ names_span (reference_tree reference.now) }
{
    let first = reference.name_span().span();
    match reference.members().first() {
        Some(second) if reference.subscripts == 0 => across(first, second.name.span.span()),
        _ => first,
    }
}

/// Where an expression is, with the parentheses and the subscripts that belong to it.
pub fn span_of(expr: &Expr) -> Span
    ensures { result ≡ span_of (expression_tree expr.now) }
{
    match expr {
        Expr::Literal(literal) => literal.span.span(),
        Expr::Name(used) => used.span.span(),
        Expr::Reference(reference, _) => reference.span.span(),
        Expr::Unary(operator, operand) => across(operator.span.span(), span_of(operand)),
        Expr::Pair(pair) => across(span_of(&pair.0), span_of(&pair.2)),
        Expr::Row(first, operands) => {
            let mut span = span_of(first);
            for (_, operand) in operands {
                span = across(span, span_of(operand));
            }
            span
        }
        Expr::Parentheses(_, span) => span.span(),
    }
}

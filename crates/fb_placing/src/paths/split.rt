//! Paths in two parts.
ghost use Rattle.std.specs.Prelude.{IfNone, IfSome};
ghost use Rattle.fb_placing.specs.Points.{HasNoPoint, IsSplit};

/// A path up to its last point, and the name after it.
pub(crate) fn split_last(path: &str) -> Option<(&str, &str)>
    ensures parts { IfSome result (λ parts. IsSplit path.now parts.0.now parts.1.now) }
    ensures alone { IfNone result (HasNoPoint path.now) }
{
    path.rsplit_once('.')
}

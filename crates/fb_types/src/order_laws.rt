//! Laws of recursion and order.
ghost use Rattle.fb_types.specs.LocalOrder.{OrderedIsNotRecursive, RecursionIsLocal};

/// Which of the types that a unit rests on reach themselves depends only on the texts that it rests on.
pub fn recursion_is_local()
    ensures { RecursionIsLocal }
{}

/// In an ordered list no type reaches itself.
pub fn ordered_is_not_recursive()
    ensures { OrderedIsNotRecursive }
{}

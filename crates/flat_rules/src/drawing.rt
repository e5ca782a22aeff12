ghost use Rattle.flat_rules.specs.Drawable.{ItemsAreDrawable};

// The call here does nothing. Its contract is a law about the definitions: what a
// renderer may rely on.

/// Whatever the sessions show, each draw item can be drawn: its visible part lies
/// within its rectangle, its opacity is at most one, and an image shows a part of
/// its buffer that has no negative corner and sides of at least 1.
///
/// The call does nothing. Its contract is a law about the definitions.
pub fn items_are_drawable()
    ensures { ItemsAreDrawable }
{}

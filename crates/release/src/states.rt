// Releases, in two states.
ghost use Rattle.std.specs.Prelude.{◌≤◌, length};

use crate::plain::Plain;

// A release in the state S. There is one of it: it is moved, and never copied.
#[derive(Drop)]
pub struct Release<S> {
    pub(crate) plain: Plain,
    pub(crate) state: S,
    // Said here, since columns are seen as their roles alone: whoever is lent a release knows that there are at most eight.
    ghost few: { length plain.columns ≤ 8 },
}

// Rows can be put and withdrawn, shown and turned back, until the release is sealed or scrapped. This state has no `Drop`, so
// an open release cannot be let go.
pub struct Open;

// Rows can be shown and counted, and nothing else. A sealed release may be let go.
#[derive(Drop)]
pub struct Sealed;

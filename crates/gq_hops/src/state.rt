//! How far a walker, or the trails of a query, have come.
ghost use Rattle.std.specs.Prelude.{◌≡◌, if◌then◌else◌};

/// How far a search that goes from one thing to the next has come.
#[derive(Clone, Copy)]
pub enum State {
    /// Nothing was reached since it began.
    Fresh,
    /// It stands at what was reached last.
    Standing,
    /// Nothing is owed.
    Over,
}

/// Whether something was found tells whether it stands at something.
pub fn state_after(found: bool) -> State
    ensures { result ≡ (if found then State.Standing else State.Over) }
{
    if found { State::Standing } else { State::Over }
}

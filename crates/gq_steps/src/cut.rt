//! How a group finds the places of its list that all its steps keep.

/// What is found once of a group's tests, so that none of its lists asks them again.
#[derive(Clone, Copy)]
pub enum Cut {
    /// Nothing: they are tried one place after another.
    Each,
    /// It scans a node variable, and its tests are conditions.
    Rows,
    /// It follows a list, and rows alone decide its tests.
    List,
    /// It follows a list, and rows alone decide its tests but those that ask a relationship of that
    /// list to differ from another one.
    Pairs,
    /// It follows a list, and its tests are conditions that the places of relationships may decide.
    Told,
    /// It follows a list, and the places of relationships may refuse some of the conditions that come
    /// first.
    Refused,
    /// It begins a chain: the others follow columns, or are conditions that rows alone decide.
    Chain,
}

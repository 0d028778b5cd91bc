//! Points of lists.

/// A point of a list: the one at that place of its group, counted from 0.
#[derive(Clone, Copy, Debug, PartialEq, Eq)]
pub struct ListPoint {
    pub group: usize,
    pub place: usize,
}

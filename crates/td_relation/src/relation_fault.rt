//! Why a text is no relation.
use thiserror::Error;

/// Why a text isn't a relation: the first fault from the left.
#[derive(Clone, Copy, Debug, PartialEq, Eq, Drop, Error)]
pub enum RelationFault {
    /// No package name stands at the front of an alternative, or something else follows it.
    #[error("bad name")]
    BadName,
    /// What follows a `(` is no operator.
    #[error("bad operator")]
    BadOperator,
    /// What follows an operator is no version, or the `)` is missing.
    #[error("bad version")]
    BadVersion,
    /// What follows a `[` is no architecture list, or something else follows a `)`.
    #[error("bad architecture list")]
    BadArchList,
    /// What stands at the end isn't build profile lists.
    #[error("bad build profile list")]
    BadProfile,
    /// There is no member.
    #[error("empty relation")]
    Empty,
    #[error("want of memory")]
    NoMemory,
}

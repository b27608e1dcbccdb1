//! What there is on an architecture.

/// How much there is on an architecture of the table.
#[derive(Clone, Copy)]
pub struct ArchCounts {
    /// Binary packages of exactly that architecture.
    pub binaries: usize,
    pub rows: usize,
    /// The rows that open as Needs-Build.
    pub queued: usize,
}

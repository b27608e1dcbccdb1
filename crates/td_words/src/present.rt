//! Which files of a folder are there.

/// Which of the files that a folder need not have are in it. (If no folder is given, this says
/// nothing.)
#[derive(Clone, Copy, Drop)]
pub struct Present {
    pub state: bool,
    pub tracker: bool,
    pub journal: bool,
}

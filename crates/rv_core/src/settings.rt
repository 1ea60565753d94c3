//! What was set of the work of a core's cursors.

/// How the cursors of a core work.
#[derive(Clone, Copy, PartialEq, Eq)]
pub struct Settings {
    /// How many background steps may follow each foreground step of a FETCH.
    pub steps: u8,
    /// Whether two indexes may race, where else one would be scanned after the other.
    pub race: bool,
}

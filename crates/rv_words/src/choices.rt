/// An option of the program. Each but `--threads` and `--race` takes a value.
#[derive(Clone, Copy, PartialEq, Eq)]
pub enum Choice {
    /// `--threads`: the sessions of a phase are threads, and workers beside them.
    Threads,
    /// `--workers`: how many workers there are where there are threads, 0 to 8.
    Workers,
    /// `--judge`: the judge of costs, 0 to 2.
    Judge,
    /// `--steps`: how many background steps follow a foreground step, 0 to 64.
    Steps,
    /// `--gen`: the seed of the script that is generated in place of one that is read, 0 to
    /// 4,294,967,295.
    Gen,
    /// `--race`: two indexes race where else one would be scanned after the other.
    Race,
}

/// What accepted words ask.
#[derive(Clone, Copy, PartialEq, Eq)]
pub struct Asked {
    /// Whether the sessions of a phase are threads.
    pub threads: bool,
    /// How many workers there are beside the sessions, where these are threads.
    pub workers: u8,
    pub judge: u8,
    pub steps: u8,
    /// The seed of the generated script; None where a script is to be read.
    pub seed: Option<u32>,
    /// Whether indexes may race.
    pub race: bool,
}

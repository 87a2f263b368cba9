//! What a run is asked to do.

/// What the words ask for.
#[derive(Clone, Copy, PartialEq, Eq, Debug)]
pub enum Mode {
    /// To run the input that the source holds, and to report.
    Run,
    /// To run the input that is generated from this number, and to sum up what it comes to.
    Generate(u64),
    /// To check the report that the source holds behind an input.
    Check,
}

/// What the words ask for, and how blocks are to be run.
#[derive(Clone, Copy, PartialEq, Eq, Debug)]
pub struct Settings {
    /// What is to be done.
    pub mode: Mode,
    /// How many workers run lanes: 1 to 64.
    pub workers: u32,
    /// How often a worker tries a block at most: 1 to 1,000.
    pub tries: u32,
    /// Whether the clocks are asked; where they are not, each reading counts as 0.
    pub real: bool,
}

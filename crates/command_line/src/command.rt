//! The forms of the command line.
use cv_io::Text;

/// What the words after the program's name ask for.
#[derive(Debug, Drop)]
pub enum Command {
    /// `replay`
    Replay,
    /// `replay POLICY`
    ReplayPolicy { name: Text },
    /// `explain POLICY`
    ExplainPolicy { name: Text },
    /// `serve POLICY`
    Serve { name: Text },
    /// `make SEED N`
    Make { seed: u64, count: u32 },
}

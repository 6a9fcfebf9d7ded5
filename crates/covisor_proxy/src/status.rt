//! How a run of the program ends.
ghost use Rattle.std.specs.Prelude.{◌≡◌};
ghost use Rattle.covisor_proxy.specs.Outcomes.{code_of};

/// What a run came to; its code is the exit status.
#[derive(Clone, Copy, PartialEq, Eq, Debug)]
pub(crate) enum Status {
    /// The script was read to its end and every line done.
    Done,
    /// The words are no form of the command line.
    Usage,
    /// The policy file is refused.
    Policy,
    /// A line of the script isn't done; those before it are.
    Line,
    /// The policy file or the script could not be read.
    Read,
    /// The report could not be written.
    Write,
    /// There is no such policy file.
    Absent,
    /// An endpoint could not be dialled, or its dial failed; the others were served.
    Link,
    /// The works that serve could not be run.
    Spawn,
    /// Want of memory.
    Memory,
}

impl Status {
    pub(crate) fn code(self) -> u8
        ensures { result ≡ code_of self }
    {
        match self {
            Status::Done => 0,
            Status::Usage => 2,
            Status::Policy => 3,
            Status::Line => 4,
            Status::Read => 5,
            Status::Write => 6,
            Status::Absent => 7,
            Status::Link => 8,
            Status::Spawn => 9,
            Status::Memory => 10,
        }
    }
}

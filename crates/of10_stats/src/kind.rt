//! The types of statistics.
ghost use Rattle.std.specs.Prelude.{◌≡◌};
ghost use Rattle.std.specs.List.{slice_get};
ghost use Rattle.of10_stats.specs.Kinds.{kind_at, number_of, request_length};

/// The type of statistics (`ofp_stats_types`), in the order of their numbers. There is none for a
/// vendor's.
#[derive(Clone, Copy, PartialEq, Eq, Debug)]
pub enum StatsKind {
    Desc,
    Flow,
    Aggregate,
    Table,
    Port,
}

/// The types, by their numbers.
const KINDS: [StatsKind; 5] = [
    StatsKind::Desc,
    StatsKind::Flow,
    StatsKind::Aggregate,
    StatsKind::Table,
    StatsKind::Port,
];

impl StatsKind {
    /// The type of a number on the wire; None above 4.
    pub fn from_number(number: u16) -> Option<StatsKind>
        ensures { result ≡ kind_at number }
    {
        numbered(&KINDS, number)
    }

    /// The number on the wire.
    pub fn number(self) -> u16
        ensures { result ≡ number_of self }
    {
        self as u16
    }

    /// How many bytes stand behind the flags of a request.
    pub fn request_length(self) -> usize
        ensures { result ≡ request_length self }
    {
        match self {
            StatsKind::Desc | StatsKind::Table => 0,
            StatsKind::Flow | StatsKind::Aggregate => 44,
            StatsKind::Port => 8,
        }
    }
}

/// The type at a place of a list.
fn numbered(kinds: &[StatsKind], number: u16) -> Option<StatsKind>
    ensures { result ≡ slice_get kinds.now number }
{
    kinds.get(usize::from(number)).copied()
}

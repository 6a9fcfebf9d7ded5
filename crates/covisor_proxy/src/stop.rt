//! Why a replay ends before the end of its script.
use cv_io::Memory;
use replay_report::Kind;
use thiserror::Error;

#[derive(Clone, Copy, PartialEq, Eq, Debug, Error)]
pub(crate) enum Stop {
    /// The next line isn't done.
    #[error("the line is refused")]
    Refused { kind: Kind },
    #[error("the script could not be read")]
    Read,
    #[error("the report could not be written")]
    Write,
    #[error("out of memory")]
    Memory,
}

impl From<Memory> for Stop {
    ghost use Rattle.std.specs.Prelude.{◌≡◌};
    ghost use Rattle.covisor_proxy.specs.declared.stop.Stop.TheVariants as stops;

    ghost from_gives = { λ _ stop. stop ≡ stops.Memory };

    fn from(_wanted: Memory) -> Stop {
        Stop::Memory
    }
}

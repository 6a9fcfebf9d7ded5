//! What is measured of each endpoint.
ghost use Rattle.std.specs.Prelude.{◌≡◌, IsTrue};
ghost use Rattle.std.specs.List.{list_all};
ghost use Rattle.script_text.specs.Lines.{is_ascii};
ghost use Rattle.status_page.specs.Measures.{help_of, kind_of, name_of, seconds_of, up_of, value_of};

use crate::records::{EndpointStatus, State};

/// What is measured of an endpoint.
#[derive(Clone, Copy, PartialEq, Eq, Debug)]
pub enum Measure {
    Up,
    Lasts,
    Had,
    Left,
    Read,
    Written,
}

/// Whether there is a connection, as a number.
fn up_of(state: &State) -> u64
    ensures { result ≡ up_of state.now }
{
    match state {
        State::Up {
            peer: _,
            seconds: _,
        } => 1,
        State::Waiting | State::Spent => 0,
    }
}

/// How many seconds the connection lasts.
fn seconds_of(state: &State) -> u64
    ensures { result ≡ seconds_of state.now }
{
    match state {
        State::Up { peer: _, seconds } => *seconds,
        State::Waiting | State::Spent => 0,
    }
}

impl Measure {
    /// Its name.
    #[tactic(auto, unfolding(crate::specs::Measures::name_of))]
    pub(crate) fn name(self) -> &'static str
        ensures text { result.now ≡ name_of self }
        ensures ascii { IsTrue (list_all is_ascii result.now) }
    {
        match self {
            Measure::Up => "covisor_endpoint_up",
            Measure::Lasts => "covisor_endpoint_connection_seconds",
            Measure::Had => "covisor_endpoint_connections_total",
            Measure::Left => "covisor_endpoint_rounds_left",
            Measure::Read => "covisor_endpoint_read_bytes_total",
            Measure::Written => "covisor_endpoint_written_bytes_total",
        }
    }

    /// What it is.
    #[tactic(auto, unfolding(crate::specs::Measures::help_of))]
    pub(crate) fn help(self) -> &'static str
        ensures text { result.now ≡ help_of self }
        ensures ascii { IsTrue (list_all is_ascii result.now) }
    {
        match self {
            Measure::Up => "Whether the endpoint has a connection (1) or none (0).",
            Measure::Lasts => "How long its present connection has lasted, in seconds.",
            Measure::Had => "How many connections it had.",
            Measure::Left => "How many more connections it may have.",
            Measure::Read => "Bytes read of all its connections.",
            Measure::Written => "Bytes written to all its connections.",
        }
    }

    /// Of which kind its values are.
    #[tactic(auto, unfolding(crate::specs::Measures::kind_of))]
    pub(crate) fn kind(self) -> &'static str
        ensures text { result.now ≡ kind_of self }
        ensures ascii { IsTrue (list_all is_ascii result.now) }
    {
        match self {
            Measure::Up | Measure::Lasts | Measure::Left => "gauge",
            Measure::Had | Measure::Read | Measure::Written => "counter",
        }
    }

    /// Its value at an endpoint.
    pub(crate) fn value(self, endpoint: &EndpointStatus) -> u64
        ensures { result ≡ value_of self endpoint.now }
    {
        match self {
            Measure::Up => up_of(&endpoint.state),
            Measure::Lasts => seconds_of(&endpoint.state),
            Measure::Had => endpoint.had,
            Measure::Left => endpoint.left,
            Measure::Read => endpoint.read,
            Measure::Written => endpoint.written,
        }
    }
}

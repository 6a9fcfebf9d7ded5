//! The metrics, in Prometheus' text format.
ghost use Rattle.std.specs.Prelude.{◌≡◌, ◌++◌, IfOk, IsTrue, OnOk, flat_map};
ghost use Rattle.std.specs.List.{list_all};
ghost use Rattle.script_text.specs.Lines.{is_ascii};
ghost use Rattle.status_page.specs.Metrics.{families_of, family_of, head_of, metrics_of, refused_of};
ghost use Rattle.status_page.specs.Metrics.{sample_of, single_of, value_line};

use crate::escaping::say_label;
use crate::measures::Measure;
use crate::records::{EndpointStatus, Refused, Status};
use cv_io::{Memory, Text};
use script_text::{say, say_number};
use std::alloc::Global;

/// Appends the two lines before a metric's values.
#[tactic(auto, unfolding(crate::specs::Metrics::head_of))]
fn say_head(text: &mut Text, name: &str, help: &str, kind: &str) -> Result<(), Memory>
    requires name { IsTrue (list_all is_ascii name.now) }
    requires help { IsTrue (list_all is_ascii help.now) }
    requires kind { IsTrue (list_all is_ascii kind.now) }
    ensures { OnOk result (text.new ≡ text.old ++ head_of name.now help.now kind.now) }
{
    say(text, "# HELP ")?;
    say(text, name)?;
    say(text, " ")?;
    say(text, help)?;
    say(text, "\n# TYPE ")?;
    say(text, name)?;
    say(text, " ")?;
    say(text, kind)?;
    say(text, "\n")?;
    Ok(())
}

/// Appends a value behind a space, and ends the line.
#[tactic(auto, unfolding(crate::specs::Metrics::value_line))]
fn say_value(alloc: Global, text: &mut Text, value: u64) -> Result<(), Memory>
    ensures { OnOk result (text.new ≡ text.old ++ value_line value) }
{
    say(text, " ")?;
    say_number(alloc, text, value)?;
    say(text, "\n")?;
    Ok(())
}

/// Appends a metric that has one value.
fn say_single(
    alloc: Global,
    text: &mut Text,
    name: &str,
    help: &str,
    value: u64,
) -> Result<(), Memory>
    requires name { IsTrue (list_all is_ascii name.now) }
    requires help { IsTrue (list_all is_ascii help.now) }
    ensures { OnOk result (text.new ≡ text.old ++ single_of name.now help.now value) }
{
    say_head(text, name, help, "gauge")?;
    say(text, name)?;
    say_value(alloc, text, value)?;
    Ok(())
}

/// Appends the value of an endpoint.
#[tactic(auto, unfolding(crate::specs::Metrics::sample_of))]
fn say_sample(
    alloc: Global,
    text: &mut Text,
    measure: Measure,
    endpoint: &EndpointStatus,
) -> Result<(), Memory>
    ensures { OnOk result (text.new ≡ text.old ++ sample_of measure endpoint.now) }
{
    say(text, measure.name())?;
    say(text, "{endpoint=\"")?;
    say_label(text, &endpoint.name)?;
    say(text, "\",address=\"")?;
    say_label(text, &endpoint.address)?;
    say(text, "\"}")?;
    say_value(alloc, text, measure.value(endpoint))?;
    Ok(())
}

/// Appends a metric of all endpoints.
fn say_family(
    alloc: Global,
    text: &mut Text,
    measure: Measure,
    endpoints: &[EndpointStatus],
) -> Result<(), Memory>
    ensures { OnOk result (text.new ≡ text.old ++ family_of measure endpoints.now) }
{
    say_head(text, measure.name(), measure.help(), measure.kind())?;
    for endpoint in endpoints {
        say_sample(alloc, text, measure, endpoint)?;
    }
    Ok(())
}

/// Appends how many were refused for a cause.
#[tactic(auto, unfolding(crate::specs::Metrics::refused_of))]
fn say_refused(alloc: Global, text: &mut Text, refused: &Refused) -> Result<(), Memory>
    ensures { OnOk result (text.new ≡ text.old ++ refused_of refused.now) }
{
    say(text, "covisor_refused_total{cause=\"")?;
    say_label(text, &refused.cause)?;
    say(text, "\"}")?;
    say_value(alloc, text, refused.times)?;
    Ok(())
}

/// Appends how many were refused, by cause.
fn say_all_refused(alloc: Global, text: &mut Text, refused: &[Refused]) -> Result<(), Memory>
    ensures { OnOk result (text.new ≡ text.old ++ flat_map refused_of refused.now) }
{
    for cause in refused {
        say_refused(alloc, text, cause)?;
    }
    Ok(())
}

/// Appends the metrics of all endpoints.
#[tactic(auto, unfolding(crate::specs::Metrics::families_of))]
fn say_families(alloc: Global, text: &mut Text, endpoints: &[EndpointStatus]) -> Result<(), Memory>
    ensures { OnOk result (text.new ≡ text.old ++ families_of endpoints.now) }
{
    say_family(alloc, text, Measure::Up, endpoints)?;
    say_family(alloc, text, Measure::Lasts, endpoints)?;
    say_family(alloc, text, Measure::Had, endpoints)?;
    say_family(alloc, text, Measure::Left, endpoints)?;
    say_family(alloc, text, Measure::Read, endpoints)?;
    say_family(alloc, text, Measure::Written, endpoints)?;
    Ok(())
}

/// The metrics of a proxy.
pub fn metrics(alloc: Global, status: &Status) -> Result<Text, Memory>
    ensures { IfOk result (λ text. text ≡ metrics_of status.now) }
{
    let mut text = Text::new(alloc);
    say_single(
        alloc,
        &mut text,
        "covisor_start_time_seconds",
        "When the proxy began to serve, in seconds since the start of 1970.",
        status.began,
    )?;
    say_families(alloc, &mut text, status.endpoints.as_slice())?;
    say_single(
        alloc,
        &mut text,
        "covisor_strangers",
        "Connections that have not said yet which switch they are.",
        status.strangers,
    )?;
    say_head(
        &mut text,
        "covisor_refused_total",
        "Connections of strangers that were refused, by cause.",
        "counter",
    )?;
    say_all_refused(alloc, &mut text, status.refused.as_slice())?;
    Ok(text)
}

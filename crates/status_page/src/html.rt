//! The page for a person, in HTML.
ghost use Rattle.std.specs.Prelude.{◌≡◌, ◌++◌, ◌<◌, IfOk, IsTrue, OnOk, flat_map};
ghost use Rattle.std.specs.List.{list_all};
ghost use Rattle.script_text.specs.Lines.{is_ascii};
ghost use Rattle.status_page.specs.Page.{beginning, cell, duration, escaped, heads, number_cell, page_of, reason_of};
ghost use Rattle.status_page.specs.Page.{row_of, state_cells, two};

use crate::escaping::say_html;
use crate::records::{EndpointStatus, Refused, State, Status};
use cv_io::{Memory, Text};
use script_text::{say, say_number};
use std::alloc::Global;

/// Appends what stands before the first sentence.
#[tactic(auto, unfolding(crate::specs::Page::beginning))]
fn say_beginning(text: &mut Text) -> Result<(), Memory>
    ensures { OnOk result (text.new ≡ text.old ++ beginning) }
{
    say(
        text,
        "<!DOCTYPE html>\n<html lang=\"en\">\n<head>\n<meta charset=\"utf-8\">\n",
    )?;
    say(
        text,
        "<meta http-equiv=\"refresh\" content=\"5\">\n<title>CoVisor</title>\n",
    )?;
    say(
        text,
        "<style>\nbody{font:16px/1.4 sans-serif;margin:2em;color:#222}\n",
    )?;
    say(text, "table{border-collapse:collapse;margin:1em 0}\n")?;
    say(
        text,
        "th,td{padding:.25em .75em;text-align:left;border-bottom:1px solid #ccc}\n",
    )?;
    say(
        text,
        "td.up{color:#06752f}td.waiting{color:#9a6700}td.spent{color:#b3261e}\n",
    )?;
    say(text, "</style>\n</head>\n<body>\n<h1>CoVisor</h1>\n")?;
    Ok(())
}

/// Appends the heads of the columns.
#[tactic(auto, unfolding(crate::specs::Page::heads))]
fn say_heads(text: &mut Text) -> Result<(), Memory>
    ensures { OnOk result (text.new ≡ text.old ++ heads) }
{
    say(
        text,
        "<table>\n<tr><th>Endpoint</th><th>Address</th><th>State</th><th>Peer</th><th>For</th>",
    )?;
    say(
        text,
        "<th>Connections</th><th>Rounds left</th><th>Bytes read</th><th>Bytes written</th></tr>\n",
    )?;
    Ok(())
}

/// Appends a number below 100, by two digits.
fn say_two(alloc: Global, text: &mut Text, number: u64) -> Result<(), Memory>
    ensures { OnOk result (text.new ≡ text.old ++ two number) }
{
    if number < 10 {
        say(text, "0")?;
    }
    say_number(alloc, text, number)?;
    Ok(())
}

/// Appends how long it is: hours, minutes and seconds.
fn say_duration(alloc: Global, text: &mut Text, seconds: u64) -> Result<(), Memory>
    ensures { OnOk result (text.new ≡ text.old ++ duration seconds) }
{
    say_number(alloc, text, seconds / 3600)?;
    say(text, ":")?;
    say_two(alloc, text, seconds / 60 % 60)?;
    say(text, ":")?;
    say_two(alloc, text, seconds % 60)?;
    Ok(())
}

/// Appends a cell with a text.
fn say_cell(text: &mut Text, held: &Text) -> Result<(), Memory>
    ensures { OnOk result (text.new ≡ text.old ++ cell (escaped held.now)) }
{
    say(text, "<td>")?;
    say_html(text, held)?;
    say(text, "</td>")?;
    Ok(())
}

/// Appends a cell with a number.
fn say_number_cell(alloc: Global, text: &mut Text, number: u64) -> Result<(), Memory>
    ensures { OnOk result (text.new ≡ text.old ++ number_cell number) }
{
    say(text, "<td>")?;
    say_number(alloc, text, number)?;
    say(text, "</td>")?;
    Ok(())
}

/// Appends a cell with how long it is.
fn say_duration_cell(alloc: Global, text: &mut Text, seconds: u64) -> Result<(), Memory>
    ensures { OnOk result (text.new ≡ text.old ++ cell (duration seconds)) }
{
    say(text, "<td>")?;
    say_duration(alloc, text, seconds)?;
    say(text, "</td>")?;
    Ok(())
}

/// Appends how an endpoint is: three cells.
fn say_state(alloc: Global, text: &mut Text, state: &State) -> Result<(), Memory>
    ensures { OnOk result (text.new ≡ text.old ++ state_cells state.now) }
{
    match state {
        State::Up { peer, seconds } => {
            say(text, "<td class=\"up\">up</td>")?;
            say_cell(text, peer)?;
            say_duration_cell(alloc, text, *seconds)?;
            Ok(())
        }
        State::Waiting => {
            say(text, "<td class=\"waiting\">waiting</td><td></td><td></td>")?;
            Ok(())
        }
        State::Spent => {
            say(text, "<td class=\"spent\">spent</td><td></td><td></td>")?;
            Ok(())
        }
    }
}

/// Appends the row of an endpoint.
fn say_row(alloc: Global, text: &mut Text, endpoint: &EndpointStatus) -> Result<(), Memory>
    ensures { OnOk result (text.new ≡ text.old ++ row_of endpoint.now) }
{
    say(text, "<tr>")?;
    say_cell(text, &endpoint.name)?;
    say_cell(text, &endpoint.address)?;
    say_state(alloc, text, &endpoint.state)?;
    say_number_cell(alloc, text, endpoint.had)?;
    say_number_cell(alloc, text, endpoint.left)?;
    say_number_cell(alloc, text, endpoint.read)?;
    say_number_cell(alloc, text, endpoint.written)?;
    say(text, "</tr>\n")?;
    Ok(())
}

/// Appends the rows of all endpoints.
fn say_rows(alloc: Global, text: &mut Text, endpoints: &[EndpointStatus]) -> Result<(), Memory>
    ensures { OnOk result (text.new ≡ text.old ++ flat_map row_of endpoints.now) }
{
    for endpoint in endpoints {
        say_row(alloc, text, endpoint)?;
    }
    Ok(())
}

/// Appends the row of those that were refused for a cause.
fn say_reason(alloc: Global, text: &mut Text, refused: &Refused) -> Result<(), Memory>
    ensures { OnOk result (text.new ≡ text.old ++ reason_of refused.now) }
{
    say(text, "<tr>")?;
    say_cell(text, &refused.cause)?;
    say_number_cell(alloc, text, refused.times)?;
    say(text, "</tr>\n")?;
    Ok(())
}

/// Appends the rows of all causes.
fn say_reasons(alloc: Global, text: &mut Text, refused: &[Refused]) -> Result<(), Memory>
    ensures { OnOk result (text.new ≡ text.old ++ flat_map reason_of refused.now) }
{
    for cause in refused {
        say_reason(alloc, text, cause)?;
    }
    Ok(())
}

/// The page of a proxy.
pub fn page(alloc: Global, status: &Status) -> Result<Text, Memory>
    ensures { IfOk result (λ text. text ≡ page_of status.now) }
{
    let mut text = Text::new(alloc);
    say_beginning(&mut text)?;
    say(&mut text, "<p>It has served for ")?;
    say_duration(alloc, &mut text, status.seconds)?;
    say(&mut text, " (hours, minutes, seconds).</p>\n")?;
    say_heads(&mut text)?;
    say_rows(alloc, &mut text, status.endpoints.as_slice())?;
    say(&mut text, "</table>\n<p>")?;
    say_number(alloc, &mut text, status.strangers)?;
    say(
        &mut text,
        " connections have not said yet which switch they are. Refused so far:</p>\n",
    )?;
    say(
        &mut text,
        "<table>\n<tr><th>Cause</th><th>Connections</th></tr>\n",
    )?;
    say_reasons(alloc, &mut text, status.refused.as_slice())?;
    say(&mut text, "</table>\n</body>\n</html>\n")?;
    Ok(text)
}

//! What of a list of actions is granted.
ghost use Rattle.std.specs.Prelude.{◌≡◌, length, map, min, nat_lt, position, sum_by, take, ◌-◌, max};
ghost use Rattle.grants.specs.Denials.{Answers};
ghost use Rattle.grants.specs.Rows.{action_row, action_rows, count_row, counted as counted_of, end_row};
ghost use Rattle.grants.specs.Rows.{ends_at as ends_at_of, first_of, grants as grants_of, is_end as is_end_of};
ghost use Rattle.grants.specs.Rows.{is_refused as is_refused_of, kind_of as kind_of_of, output_kind as output_kind_of};
ghost use Rattle.grants.specs.Rows.{output_row, weight as weight_of};

use crate::bits::has_bit;
use crate::check::deny_if;
use crate::denial::{Denial, Detail};
use crate::grant::{Grant, is_one_of, sees};
use crate::kind::Kind;
use of10_actions::port::{ALL, CONTROLLER, FLOOD, IN_PORT, NORMAL, TABLE};
use of10_actions::{Action, PortView};

/// How many actions a list may have at most.
const MOST: u32 = 64;

/// Whether an output to a number is refused.
fn is_refused(in_flow: bool, g: &Grant, v: &PortView, port: u16) -> bool
    ensures { result ≡ is_refused_of in_flow g.now v.now port }
{
    match port {
        FLOOD | CONTROLLER => false,
        NORMAL => !in_flow,
        TABLE => in_flow,
        IN_PORT | ALL => !v.links.is_empty(),
        _ => !sees(&g.ports, port),
    }
}

/// The kind of an output that isn't refused.
fn output_kind(g: &Grant, port: u16) -> Kind
    ensures { result ≡ output_kind_of g.now port }
{
    match port {
        CONTROLLER => Kind::Controller,
        NORMAL => Kind::Pass,
        _ if is_one_of(g.ports.links.as_slice(), port) => Kind::Link,
        _ => Kind::Output,
    }
}

/// The kind of an action. An output that is refused counts as `Output`.
fn kind_of(in_flow: bool, g: &Grant, v: &PortView, action: &Action) -> Option<Kind>
    ensures { result ≡ kind_of_of in_flow g.now v.now action.now }
{
    match *action {
        Action::Output { port, .. } => Some(if is_refused(in_flow, g, v, port) {
            Kind::Output
        } else {
            output_kind(g, port)
        }),
        Action::SetDlSrc { .. } => Some(Kind::SetDlSrc),
        Action::SetDlDst { .. } => Some(Kind::SetDlDst),
        Action::SetNwSrc { .. } => Some(Kind::SetNwSrc),
        Action::SetNwDst { .. } => Some(Kind::SetNwDst),
        Action::SetNwTos { .. } => Some(Kind::SetNwTos),
        Action::SetTpSrc { .. } => Some(Kind::SetTpSrc),
        Action::SetTpDst { .. } => Some(Kind::SetTpDst),
        Action::SetVlanVid { .. }
        | Action::SetVlanPcp { .. }
        | Action::StripVlan
        | Action::Enqueue { .. } => None,
    }
}

/// Whether a kind is granted.
fn grants(g: &Grant, kind: Option<Kind>) -> bool
    ensures { result ≡ grants_of g.now kind }
{
    match kind {
        Some(kind) => has_bit(g.actions, kind.bit()),
        None => false,
    }
}

/// The kind of an action is granted.
fn check_action(in_flow: bool, g: &Grant, v: &PortView, action: &Action) -> Result<(), Denial>
    ensures { Answers (action_row in_flow g.now v.now action.now) result }
{
    let number = action.kind().number();
    deny_if(
        !grants(g, kind_of(in_flow, g, v, action)),
        Detail::G7 { action: number },
    )
}

/// An output isn't refused.
fn check_output(in_flow: bool, g: &Grant, v: &PortView, action: &Action) -> Result<(), Denial>
    ensures { Answers (output_row in_flow g.now v.now action.now) result }
{
    match *action {
        Action::Output { port, .. } => deny_if(
            is_refused(in_flow, g, v, port),
            Detail::G8 { port },
        ),
        _ => Ok(()),
    }
}

/// The kind of each action is granted.
fn check_each_action(
    in_flow: bool,
    g: &Grant,
    v: &PortView,
    actions: &[Action],
) -> Result<(), Denial>
    ensures { Answers (first_of (map (action_row in_flow g.now v.now) actions.now)) result }
{
    for action in actions {
        check_action(in_flow, g, v, action)?;
    }
    Ok(())
}

/// No output is refused.
fn check_each_output(
    in_flow: bool,
    g: &Grant,
    v: &PortView,
    actions: &[Action],
) -> Result<(), Denial>
    ensures { Answers (first_of (map (output_row in_flow g.now v.now) actions.now)) result }
{
    for action in actions {
        check_output(in_flow, g, v, action)?;
    }
    Ok(())
}

/// Whether an output to a number ends a list.
fn ends_at(g: &Grant, port: u16) -> bool
    ensures { result ≡ ends_at_of g.now port }
{
    port == NORMAL || port == TABLE || is_one_of(g.ports.links.as_slice(), port)
}

/// Whether an action ends a list.
fn is_end(g: &Grant, action: &Action) -> bool
    ensures { result ≡ is_end_of g.now action.now }
{
    match *action {
        Action::Output { port, .. } => ends_at(g, port),
        _ => false,
    }
}

/// A count, which stands still at the greatest number.
fn counted(count: usize) -> u32
    ensures { result ≡ counted_of count }
{
    if count < 0xffff_ffff {
        count as u32
    } else {
        u32::MAX
    }
}

/// The place of the first action that ends a list, among these.
fn first_end(g: &Grant, actions: &[Action]) -> Option<usize>
    ensures { result ≡ position (is_end_of g.now) actions.now }
{
    actions.iter().position(|action| is_end(g, action))
}

/// An action that ends a list is its last.
fn check_ends(g: &Grant, actions: &[Action]) -> Result<(), Denial>
    ensures { Answers (end_row g.now actions.now) result }
{
    match first_end(g, &actions[..actions.len().saturating_sub(1)]) {
        Some(at) => Err(Denial::of(Detail::G9 { at: counted(at) })),
        None => Ok(()),
    }
}

/// How many actions an action counts as.
fn weight(g: &Grant, action: &Action) -> u32
    ensures { result ≡ counted_of (weight_of g.now action.now) }
{
    match *action {
        Action::Output {
            port: FLOOD | ALL,
            ..
        } => counted(g.ports.outside.len()).max(1),
        _ => 1,
    }
}

/// How many actions these count as.
fn count_of(g: &Grant, actions: &[Action]) -> u32
    ensures { result ≡ counted_of (sum_by (weight_of g.now) actions.now) }
{
    let mut count: u32 = 0;
    for action in actions {
        count = count.saturating_add(weight(g, action));
    }
    count
}

/// There are no more actions than a list may have.
fn check_count(g: &Grant, actions: &[Action]) -> Result<(), Denial>
    ensures { Answers (count_row g.now actions.now) result }
{
    let count = count_of(g, actions);
    deny_if(count > MOST, Detail::G10 { count })
}

/// What a list of actions may do.
pub fn check_actions(
    in_flow: bool,
    g: &Grant,
    v: &PortView,
    actions: &[Action],
) -> Result<(), Denial>
    ensures { Answers (first_of (action_rows in_flow g.now v.now actions.now)) result }
{
    check_each_action(in_flow, g, v, actions)?;
    check_each_output(in_flow, g, v, actions)?;
    check_ends(g, actions)?;
    check_count(g, actions)
}

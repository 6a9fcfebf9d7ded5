//! What a fault of a policy file says.
ghost use Rattle.std.specs.Prelude.{◌≡◌, ◌++◌, IfOk, IsTrue, codes, decimal};
ghost use Rattle.policy_notes.specs.Sentences.{between as between_of};
ghost use Rattle.std.specs.List.{list_all};
ghost use Rattle.policy_notes.specs.Sentences.{expr_sentence as expr_sentence_of, expression_sentence as expression_sentence_of};
ghost use Rattle.policy_notes.specs.Sentences.{is_written, item_noun as item_noun_of, key_sentence as key_sentence_of};
ghost use Rattle.policy_notes.specs.Sentences.{many_noun as many_noun_of, missing_sentence as missing_sentence_of};
ghost use Rattle.policy_notes.specs.Sentences.{paths_sentence as paths_sentence_of, sentence_of};
ghost use Rattle.policy_notes.specs.Sentences.{shape_sentence as shape_sentence_of, tables_sentence as tables_sentence_of};
ghost use Rattle.policy_notes.specs.Sentences.{there_is as there_is_of, topology_sentence as topology_sentence_of};
ghost use Rattle.policy_notes.specs.Sentences.{value_fault as value_fault_of, value_sentence as value_sentence_of};
ghost use Rattle.policy_notes.specs.Sentences.{syntax_sentence as syntax_sentence_of, why_not as why_not_of};
ghost use Rattle.policy_notes.specs.Sentences.{wide_sentence as wide_sentence_of};
ghost use Rattle.script_text.specs.Lines.{is_ascii};

use crate::allowed::{allowed, keys, rows, version_text};
use crate::names::{is_item, key_of, kind_named};
use crate::places::Place;
use cv_io::{Memory, Text};
use inner_paths::PathFault;
use policies::{PolicyFault, push_word};
use policy_expr::ExprFault;
use policy_file::ItemKind;
use script_text::{say, say_number};
use std::alloc::Global;
use virtual_topology::TopologyFault;

/// What there is no key of.
#[tactic(auto, unfolding(crate::specs::Sentences::item_noun))]
fn item_noun(alloc: Global, item: Option<ItemKind>) -> Result<Text, Memory>
    ensures { IfOk result (λ text. text ≡ item_noun_of item) }
{
    let mut text = Text::new(alloc);
    match item {
        Some(kind) => {
            say(&mut text, "no key of a ")?;
            push_word(&mut text, kind.key().as_bytes())?;
            Ok(text)
        }
        None => text_of(alloc, "no top key"),
    }
}

/// What there is, if that is known.
#[tactic(auto, unfolding(crate::specs::Sentences::there_is))]
fn there_is(alloc: Global, names: &Text) -> Result<Text, Memory>
    ensures { IfOk result (λ text. text ≡ there_is_of names.now) }
{
    let mut text = Text::new(alloc);
    if !names.is_empty() {
        say(&mut text, "; there is ")?;
        text.push_text(names)?;
    }
    Ok(text)
}

/// What is written behind a name, if that is known.
#[tactic(auto, unfolding(crate::specs::Sentences::is_written))]
fn written(alloc: Global, value: &Text) -> Result<Text, Memory>
    ensures { IfOk result (λ text. text ≡ is_written value.now) }
{
    let mut text = Text::new(alloc);
    if !value.is_empty() {
        say(&mut text, " = ")?;
        text.push_text(value)?;
    }
    Ok(text)
}

/// A key may not stand there.
#[tactic(auto, unfolding(crate::specs::Sentences::key_sentence))]
fn key_sentence(alloc: Global, place: &Place, name: &Text) -> Result<Text, Memory>
    ensures { IfOk result (λ text. text ≡ key_sentence_of place.now name.now) }
{
    let mut text = item_noun(alloc, place.item)?;
    say(&mut text, " is called ")?;
    push_word(&mut text, key_of(name.as_bytes()))?;
    say(&mut text, "; ")?;
    say(&mut text, version_text(place.version))?;
    say(&mut text, "there are ")?;
    text.push_text(&keys(alloc, rows(place.item), place.version)?)?;
    Ok(text)
}

/// A key is missing.
#[tactic(auto, unfolding(crate::specs::Sentences::missing_sentence))]
fn missing_sentence(alloc: Global, place: &Place, name: &Text) -> Result<Text, Memory>
    ensures { IfOk result (λ text. text ≡ missing_sentence_of place.now name.now) }
{
    let mut text = Text::new(alloc);
    text.push_text(name)?;
    say(&mut text, " is missing: it is ")?;
    say(&mut text, allowed(place.item, key_of(name.as_bytes())))?;
    Ok(text)
}

/// Why a value can't stand there.
#[tactic(auto, unfolding(crate::specs::Sentences::why_not))]
fn why_not(alloc: Global, place: &Place, name: &Text) -> Result<Text, Memory>
    ensures { IfOk result (λ text. text ≡ why_not_of place.now name.now) }
{
    let mut text = Text::new(alloc);
    if place.taken {
        say(&mut text, ": another one has it")?;
        Ok(text)
    } else {
        say(&mut text, ": has to be ")?;
        say(&mut text, allowed(place.item, key_of(name.as_bytes())))?;
        text.push_text(&there_is(alloc, &place.others)?)?;
        Ok(text)
    }
}

/// A top key has to list tables.
#[tactic(auto, unfolding(crate::specs::Sentences::tables_sentence))]
fn tables_sentence(alloc: Global, name: &Text) -> Result<Text, Memory>
    ensures { IfOk result (λ text. text ≡ tables_sentence_of name.now) }
{
    let mut text = Text::new(alloc);
    say(&mut text, ": has to be a list of tables, each under [[")?;
    text.push_text(name)?;
    say(&mut text, "]]")?;
    Ok(text)
}

/// What is wrong with a value: it lists no tables, or isn't such as is wanted.
#[tactic(auto, unfolding(crate::specs::Sentences::value_fault))]
fn value_fault(alloc: Global, place: &Place, name: &Text) -> Result<Text, Memory>
    ensures { IfOk result (λ text. text ≡ value_fault_of place.now name.now) }
{
    if kind_named(name.as_bytes()).is_some() {
        tables_sentence(alloc, name)
    } else {
        why_not(alloc, place, name)
    }
}

/// A value can't stand there, or an item is one too many.
#[tactic(auto, unfolding(crate::specs::Sentences::value_sentence))]
fn value_sentence(alloc: Global, place: &Place, name: &Text) -> Result<Text, Memory>
    ensures { IfOk result (λ text. text ≡ value_sentence_of place.now name.now) }
{
    let mut text = Text::new(alloc);
    text.push_text(name)?;
    if is_item(name.as_bytes()) {
        say(&mut text, ": at most 32 members")?;
        Ok(text)
    } else {
        text.push_text(&written(alloc, &place.written)?)?;
        text.push_text(&value_fault(alloc, place, name)?)?;
        Ok(text)
    }
}

/// A name between words.
pub(crate) fn between(
    alloc: Global,
    before: &str,
    name: &Text,
    behind: &str,
) -> Result<Text, Memory>
    requires before { IsTrue (list_all is_ascii before.now) }
    requires behind { IsTrue (list_all is_ascii behind.now) }
    ensures { IfOk result (λ text. text ≡ between_of before.now name.now behind.now) }
{
    let mut text = Text::new(alloc);
    say(&mut text, before)?;
    text.push_text(name)?;
    say(&mut text, behind)?;
    Ok(text)
}

/// A number as a text.
pub(crate) fn number_text(alloc: Global, number: u64) -> Result<Text, Memory>
    ensures { IfOk result (λ text. text ≡ decimal number) }
{
    let mut text = Text::new(alloc);
    say_number(alloc, &mut text, number)?;
    Ok(text)
}

/// A name that is no member's.
fn unknown_member(alloc: Global, place: &Place, name: &Text, other: &Text) -> Result<Text, Memory>
    ensures { IfOk result (λ text. text ≡ between_of other.now (codes " is no member of ") name.now
        ++ there_is_of place.now.others) }
{
    let mut text = Text::new(alloc);
    text.push_text(other)?;
    say(&mut text, " is no member of ")?;
    text.push_text(name)?;
    text.push_text(&there_is(alloc, &place.others)?)?;
    Ok(text)
}

/// What is wrong with an expression.
#[tactic(auto, unfolding(crate::specs::Sentences::expr_sentence))]
fn expr_sentence(
    alloc: Global,
    place: &Place,
    name: &Text,
    fault: &ExprFault,
) -> Result<Text, Memory>
    ensures { IfOk result (λ text. text ≡ expr_sentence_of place.now name.now fault.now) }
{
    match fault {
        ExprFault::Syntax { at } => between(
            alloc,
            "character ",
            &number_text(alloc, u64::from(*at) + 1)?,
            " can't stand there, or the text ends too soon",
        ),
        ExprFault::Unknown { name: other } => unknown_member(alloc, place, name, other),
        ExprFault::Twice { name: other } => between(alloc, "", other, " stands twice"),
        ExprFault::Unused { name: other } => {
            between(alloc, "member ", other, " has to stand in it")
        }
        ExprFault::TooMany { leaves } => between(
            alloc,
            "",
            &number_text(alloc, u64::from(*leaves))?,
            " members, of at most 12",
        ),
        ExprFault::ParallelLeft { name: other } => between(
            alloc,
            "",
            other,
            " stands left of +, so it may have no actions but output and controller",
        ),
        ExprFault::Memory => text_of(alloc, "out of memory"),
    }
}

/// An expression can't be so.
#[tactic(auto, unfolding(crate::specs::Sentences::expression_sentence))]
fn expression_sentence(
    alloc: Global,
    place: &Place,
    name: &Text,
    fault: &ExprFault,
) -> Result<Text, Memory>
    ensures { IfOk result (λ text. text ≡ expression_sentence_of place.now name.now fault.now) }
{
    let mut text = Text::new(alloc);
    text.push_text(name)?;
    say(&mut text, ", expr")?;
    text.push_text(&written(alloc, &place.written)?)?;
    say(&mut text, ": ")?;
    text.push_text(&expr_sentence(alloc, place, name, fault)?)?;
    Ok(text)
}

/// What a link or a cable joins, by where the port stands.
#[tactic(auto, unfolding(crate::specs::Sentences::shape_sentence))]
fn shape_sentence(item: Option<ItemKind>) -> &'static str
    ensures text { result.now ≡ shape_sentence_of item }
    ensures ascii { IsTrue (list_all is_ascii result.now) }
{
    match item {
        Some(ItemKind::Cable) => "a cable joins ports of two switches",
        Some(ItemKind::Link) => "a link joins link ports of two virtual switches",
        Some(ItemKind::Switch | ItemKind::Virtual | ItemKind::Member) => {
            "this link port is an end of no link"
        }
        None => "a link or a cable can't be so",
    }
}

/// What there are too many of, by where and by whether few may be.
#[tactic(auto, unfolding(crate::specs::Sentences::many_noun))]
fn many_noun(item: Option<ItemKind>, few: bool) -> &'static str
    ensures text { result.now ≡ many_noun_of item few }
    ensures ascii { IsTrue (list_all is_ascii result.now) }
{
    match (item, few) {
        (Some(ItemKind::Cable), _) => " cables",
        (Some(ItemKind::Link), _) => " links",
        (Some(ItemKind::Virtual), true) => " virtual switches",
        (Some(ItemKind::Switch | ItemKind::Member) | None, true) => " switches",
        (Some(ItemKind::Switch | ItemKind::Virtual | ItemKind::Member) | None, false) => " ports",
    }
}

/// What is wrong with a topology.
#[tactic(auto, unfolding(crate::specs::Sentences::topology_sentence))]
fn topology_sentence(alloc: Global, place: &Place, fault: &TopologyFault) -> Result<Text, Memory>
    ensures { IfOk result (λ text. text ≡ topology_sentence_of place.now fault.now) }
{
    match fault {
        TopologyFault::PortTwice { name } => between(alloc, "port ", name, " is used twice"),
        TopologyFault::Unknown { name } => between(alloc, "there is no port ", name, ""),
        TopologyFault::LinkShape { name } => {
            let mut text = Text::new(alloc);
            text.push_text(name)?;
            say(&mut text, ": ")?;
            say(&mut text, shape_sentence(place.item))?;
            Ok(text)
        }
        TopologyFault::Mixed { name } => between(
            alloc,
            "",
            name,
            ": virtual switches that links join have to lie on one switch",
        ),
        TopologyFault::TooMany { name, limit } => {
            let mut text = Text::new(alloc);
            text.push_text(name)?;
            say(&mut text, ": at most ")?;
            say_number(alloc, &mut text, u64::from(*limit))?;
            say(&mut text, many_noun(place.item, *limit == 16))?;
            Ok(text)
        }
        TopologyFault::Memory => text_of(alloc, "out of memory"),
    }
}

/// Why there are no paths.
#[tactic(auto, unfolding(crate::specs::Sentences::paths_sentence))]
fn paths_sentence(alloc: Global, fault: &PathFault) -> Result<Text, Memory>
    ensures { IfOk result (λ text. text ≡ paths_sentence_of fault.now) }
{
    match fault {
        PathFault::Unreachable { from, to } => {
            let mut text = between(alloc, "no cables lead from ", from, " to ")?;
            text.push_text(&between(alloc, "", to, ", where one virtual switch has ports")?)?;
            Ok(text)
        }
        PathFault::Memory => text_of(alloc, "out of memory"),
    }
}

/// A virtual switch needs too many levels.
#[tactic(auto, unfolding(crate::specs::Sentences::wide_sentence))]
fn wide_sentence(alloc: Global, name: &Text, needed: u64, limit: u64) -> Result<Text, Memory>
    ensures { IfOk result (λ text. text ≡ wide_sentence_of name.now needed limit) }
{
    let mut text = Text::new(alloc);
    text.push_text(name)?;
    say(&mut text, " needs ")?;
    say_number(alloc, &mut text, needed)?;
    say(&mut text, " levels of priority over all hops, of ")?;
    say_number(alloc, &mut text, limit)?;
    say(&mut text, ": fewer bits, or fewer hops")?;
    Ok(text)
}

/// What the syntax is at fault for.
#[tactic(auto, unfolding(crate::specs::Sentences::syntax_sentence))]
fn syntax_sentence(alloc: Global, place: &Place) -> Result<Text, Memory>
    ensures { IfOk result (λ text. text ≡ syntax_sentence_of place.now) }
{
    let mut text = Text::new(alloc);
    say(&mut text, "not TOML: ")?;
    text.push_text(&place.written)?;
    Ok(text)
}

/// A text of words.
pub(crate) fn text_of(alloc: Global, words: &str) -> Result<Text, Memory>
    requires { IsTrue (list_all is_ascii words.now) }
    ensures { IfOk result (λ text. text ≡ words.now) }
{
    let mut text = Text::new(alloc);
    say(&mut text, words)?;
    Ok(text)
}

/// What a fault says.
pub(crate) fn sentence(alloc: Global, place: &Place, fault: &PolicyFault) -> Result<Text, Memory>
    ensures { IfOk result (λ text. text ≡ sentence_of place.now fault.now) }
{
    match fault {
        PolicyFault::Long => text_of(alloc, "more than 1,048,576 bytes"),
        PolicyFault::Syntax => syntax_sentence(alloc, place),
        PolicyFault::Key { name } => key_sentence(alloc, place, name),
        PolicyFault::Missing { name } => missing_sentence(alloc, place, name),
        PolicyFault::Value { name } => value_sentence(alloc, place, name),
        PolicyFault::Expr { name, fault } => expression_sentence(alloc, place, name, fault),
        PolicyFault::Topology { fault } => topology_sentence(alloc, place, fault),
        PolicyFault::Paths { fault } => paths_sentence(alloc, fault),
        PolicyFault::TooWide {
            name,
            needed,
            limit,
        } => wide_sentence(alloc, name, *needed, *limit),
        PolicyFault::Memory => text_of(alloc, "out of memory"),
    }
}

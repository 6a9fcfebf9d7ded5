//! What is said of a message that is refused.
ghost use Rattle.std.specs.Prelude.{◌≡◌, ◌≤◌, ◌++◌, IfOk, IsTrue, codes, decimal, length};
ghost use Rattle.std.specs.List.{list_all};
ghost use Rattle.script_text.specs.Lines.{is_ascii};
ghost use Rattle.grants.specs.Names.{field_at};
ghost use Rattle.member_replies.specs.Refusals.{deny_line as deny_text, detail_text, name_of, reason_text, refusal};
ghost use Rattle.member_replies.specs.Refusals.{rule_text};

use cv_io::{Bytes, Duplicate, Memory, Text};
use grants::{Denial, Detail, Field, Rule2, Why};
use script_text::{Audit, audit_line, say, say_number};
use std::alloc::Global;

/// The ERROR that tells a member of a denial, with the first 64 bytes of the refused message.
pub fn error(alloc: Global, denial: &Denial, frame: &[u8]) -> Result<Bytes, Memory>
    requires { 8 ≤ length frame.now }
    ensures { IfOk result (λ bytes. bytes ≡ refusal denial.now frame.now) }
{
    let (kind, code) = denial.error();
    of10_frames::error(alloc, kind, code, frame)
}

/// The audit's line of a denial: whose message was refused at which virtual switch, its transaction id,
/// the rule, and what the rule found.
pub fn deny_line(
    alloc: Global,
    controller: &Text,
    vsw: &Text,
    xid: u32,
    denial: &Denial,
) -> Result<Bytes, Memory>
    ensures { IfOk result (λ line. line ≡ deny_text controller.now vsw.now xid denial.now) }
{
    let told = Audit::Deny {
        controller: controller.copy()?,
        vsw: vsw.copy()?,
        xid,
        rule: word(alloc, rule_word(denial.rule))?,
        detail: detail(alloc, &denial.detail)?,
    };
    Ok(audit_line(alloc, &told)?.into_bytes())
}

/// The text of a word.
fn word(alloc: Global, word: &str) -> Result<Text, Memory>
    requires { IsTrue (list_all is_ascii word.now) }
    ensures { IfOk result (λ text. text ≡ word.now) }
{
    let mut text = Text::new(alloc);
    say(&mut text, word)?;
    Ok(text)
}

/// A word and a number.
fn numbered(alloc: Global, word: &str, number: u64) -> Result<Text, Memory>
    requires { IsTrue (list_all is_ascii word.now) }
    ensures { IfOk result (λ text. text ≡ word.now ++ decimal number) }
{
    let mut text = Text::new(alloc);
    say(&mut text, word)?;
    say_number(alloc, &mut text, number)?;
    Ok(text)
}

/// Two words, each before a number.
fn numbered_twice(
    alloc: Global,
    first: &str,
    number: u64,
    second: &str,
    other: u64,
) -> Result<Text, Memory>
    requires first { IsTrue (list_all is_ascii first.now) }
    requires second { IsTrue (list_all is_ascii second.now) }
    ensures { IfOk result (λ text. text ≡ first.now ++ (decimal number ++ (second.now ++ decimal other))) }
{
    let mut text = numbered(alloc, first, number)?;
    say(&mut text, second)?;
    say_number(alloc, &mut text, other)?;
    Ok(text)
}

/// Two words, one after the other.
fn said_twice(alloc: Global, first: &str, second: &str) -> Result<Text, Memory>
    requires first { IsTrue (list_all is_ascii first.now) }
    requires second { IsTrue (list_all is_ascii second.now) }
    ensures { IfOk result (λ text. text ≡ first.now ++ second.now) }
{
    let mut text = Text::new(alloc);
    say(&mut text, first)?;
    say(&mut text, second)?;
    Ok(text)
}

/// The word of a rule.
fn rule_word(rule: Rule2) -> &'static str
    ensures text { result.now ≡ rule_text rule }
    ensures ascii { IsTrue (list_all is_ascii result.now) }
{
    match rule {
        Rule2::Form => "form",
        Rule2::G1 => "G1",
        Rule2::G2 => "G2",
        Rule2::G3 => "G3",
        Rule2::G4 => "G4",
        Rule2::G5 => "G5",
        Rule2::G6 => "G6",
        Rule2::G7 => "G7",
        Rule2::G8 => "G8",
        Rule2::G9 => "G9",
        Rule2::G10 => "G10",
        Rule2::G11 => "G11",
        Rule2::Overlap => "overlap",
        Rule2::Entries => "entries",
        Rule2::Budget => "budget",
    }
}

/// What of a PACKET_OUT isn't granted.
fn reason_word(why: Why) -> &'static str
    ensures text { result.now ≡ reason_text why }
    ensures ascii { IsTrue (list_all is_ascii result.now) }
{
    match why {
        Why::Grant => "grant",
        Why::Port => "port",
        Why::Region => "region",
    }
}

/// The name of the field of a bit.
fn field_word(bit: u8) -> &'static str
    ensures text { result.now ≡ name_of (field_at bit) }
    ensures ascii { IsTrue (list_all is_ascii result.now) }
{
    match Field::from_bit(bit) {
        Some(field) => field.name(),
        None => "none",
    }
}

/// What a rule found.
fn detail(alloc: Global, detail: &Detail) -> Result<Text, Memory>
    ensures { IfOk result (λ text. text ≡ detail_text detail.now) }
{
    match *detail {
        Detail::Form { kind, code } => {
            numbered_twice(alloc, "error=", u64::from(kind), ",", u64::from(code))
        }
        Detail::G1 { command } => numbered(alloc, "command=", u64::from(command)),
        Detail::G2Emerg => word(alloc, "flag=emerg"),
        Detail::G2Kind { kind } => numbered(alloc, "type=", u64::from(kind)),
        Detail::G3 { buffer } => numbered(alloc, "buffer=", u64::from(buffer)),
        Detail::G4 { field } => said_twice(alloc, "field=", field_word(field)),
        Detail::G5 => word(alloc, "region=out"),
        Detail::G6 { port } | Detail::G8 { port } => numbered(alloc, "port=", u64::from(port)),
        Detail::G7 { action } => numbered(alloc, "action=", u64::from(action)),
        Detail::G9 { at } => numbered(alloc, "at=", u64::from(at)),
        Detail::G10 { count } => numbered(alloc, "count=", u64::from(count)),
        Detail::G11 { why } => said_twice(alloc, "why=", reason_word(why)),
        Detail::Overlap { with } => numbered(alloc, "with=", with),
        Detail::Entries { limit } => numbered(alloc, "limit=", u64::from(limit)),
        Detail::Budget { ranks, limit } => {
            numbered_twice(
                alloc,
                "ranks=",
                u64::from(ranks),
                " limit=",
                u64::from(limit),
            )
        }
    }
}

//! The lines of an answer.
ghost use Rattle.std.specs.Prelude.{◌≡◌, ◌++◌, IfOk, IsTrue, OnOk};
ghost use Rattle.std.specs.List.{list_all};
ghost use Rattle.hex.specs.Hex.{encode_lower};
ghost use Rattle.script_text.specs.Lines.{is_ascii};
ghost use Rattle.pkt_bytes.specs.Rewritten.{rewritten};
ghost use Rattle.explain_text.specs.Lines.{down_text, entry_text, finding_text, hop_text, kind_text};
ghost use Rattle.explain_text.specs.Lines.{leaf_text, out_text, serial_text};
ghost use Rattle.explain_text.specs.Lines.{tell_text, used_text};

use crate::finding::Finding;
use crate::names::{say_controller, say_switch, say_virtual};
use cv_io::{Bytes, Memory, Text};
use explain_path::LeafTrace;
use of10_actions::Rewrite;
use pkt_bytes::rewrite as rewrite_packet;
use policies::Policy;
use script_text::{say, say_number};
use std::alloc::Global;

/// Appends an entry by its serial number.
fn say_serial(alloc: Global, line: &mut Text, serial: u64) -> Result<(), Memory>
    ensures { OnOk result (line.new ≡ line.old ++ serial_text serial) }
{
    say(line, "entry serial=")?;
    say_number(alloc, line, serial)
}

/// Appends what of a member's table the packet meets.
fn say_kind(alloc: Global, line: &mut Text, kind: u64) -> Result<(), Memory>
    ensures { OnOk result (line.new ≡ line.old ++ kind_text kind) }
{
    if kind == 0 {
        return say(line, "outside");
    }
    if kind == 1 {
        return say(line, "miss");
    }
    say_serial(alloc, line, kind - 2)
}

fn used_word(used: bool) -> &'static str
    ensures text { result.now ≡ used_text used }
    ensures ascii { IsTrue (list_all is_ascii result.now) }
{
    if used { "yes" } else { "no" }
}

fn leaf_line(alloc: Global, policy: &Policy, leaf: &LeafTrace) -> Result<Text, Memory>
    ensures { IfOk result (λ line. line ≡ leaf_text policy.now leaf.now) }
{
    let mut line = Text::new(alloc);
    say(&mut line, "leaf ctl=")?;
    say_controller(&mut line, policy, leaf.member)?;
    say(&mut line, " kind=")?;
    say_kind(alloc, &mut line, leaf.kind)?;
    say(&mut line, " used=")?;
    say(&mut line, used_word(leaf.used))?;
    Ok(line)
}

fn hop_line(alloc: Global, policy: &Policy, v: u32, port: u16) -> Result<Text, Memory>
    ensures { IfOk result (λ line. line ≡ hop_text policy.now v port) }
{
    let mut line = Text::new(alloc);
    say(&mut line, "hop vsw=")?;
    say_virtual(&mut line, policy, v)?;
    say(&mut line, " port=")?;
    say_number(alloc, &mut line, u64::from(port))?;
    Ok(line)
}

/// Appends the digits of bytes, in lower case.
fn say_hex(alloc: Global, line: &mut Text, bytes: &Bytes) -> Result<(), Memory>
    ensures { OnOk result (line.new ≡ line.old ++ encode_lower bytes.now) }
{
    let digits = hex::encode(alloc, bytes.as_slice())?;
    say(line, digits.as_str())
}

/// The line of a packet that leaves, as it is once it is rewritten.
fn out_line(
    alloc: Global,
    policy: &Policy,
    switch: u32,
    port: u16,
    rewrite: &Rewrite,
    bytes: &[u8],
) -> Result<Text, Memory>
    ensures { IfOk result (λ line. line ≡ out_text policy.now switch port (rewritten rewrite.now bytes.now)) }
{
    let mut line = Text::new(alloc);
    say(&mut line, "out ")?;
    say_switch(&mut line, policy, switch)?;
    say(&mut line, ":")?;
    say_number(alloc, &mut line, u64::from(port))?;
    say(&mut line, " ")?;
    say_hex(alloc, &mut line, &rewrite_packet(alloc, bytes, rewrite)?)?;
    Ok(line)
}

fn tell_line(alloc: Global, policy: &Policy, member: u32, reason: u8) -> Result<Text, Memory>
    ensures { IfOk result (λ line. line ≡ tell_text policy.now member reason) }
{
    let mut line = Text::new(alloc);
    say(&mut line, "tell ctl=")?;
    say_controller(&mut line, policy, member)?;
    say(&mut line, " reason=")?;
    say_number(alloc, &mut line, u64::from(reason))?;
    Ok(line)
}

fn entry_line(
    alloc: Global,
    policy: &Policy,
    switch: u32,
    cookie: u64,
    priority: u16,
) -> Result<Text, Memory>
    ensures { IfOk result (λ line. line ≡ entry_text policy.now switch cookie priority) }
{
    let mut line = Text::new(alloc);
    say(&mut line, "entry switch=")?;
    say_switch(&mut line, policy, switch)?;
    say(&mut line, " cookie=")?;
    say_number(alloc, &mut line, cookie)?;
    say(&mut line, " priority=")?;
    say_number(alloc, &mut line, u64::from(priority))?;
    Ok(line)
}

fn down_line(alloc: Global, policy: &Policy, switch: u32) -> Result<Text, Memory>
    ensures { IfOk result (λ line. line ≡ down_text policy.now switch) }
{
    let mut line = Text::new(alloc);
    say(&mut line, "entry switch=")?;
    say_switch(&mut line, policy, switch)?;
    say(&mut line, " down")?;
    Ok(line)
}

/// The line of a finding about a packet, without its line feed.
pub fn finding_line(
    alloc: Global,
    policy: &Policy,
    bytes: &[u8],
    finding: &Finding,
) -> Result<Text, Memory>
    ensures { IfOk result (λ line. line ≡ finding_text policy.now bytes.now finding.now) }
{
    match finding {
        Finding::Hop { v, port } => hop_line(alloc, policy, *v, *port),
        Finding::Leaf { leaf } => leaf_line(alloc, policy, leaf),
        Finding::Out {
            switch,
            port,
            rewrite,
        } => out_line(alloc, policy, *switch, *port, rewrite, bytes),
        Finding::Tell { member, reason } => tell_line(alloc, policy, *member, *reason),
        Finding::Entry {
            switch,
            cookie,
            priority,
        } => entry_line(alloc, policy, *switch, *cookie, *priority),
        Finding::Down { switch } => down_line(alloc, policy, *switch),
    }
}

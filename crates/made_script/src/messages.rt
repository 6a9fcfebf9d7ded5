//! The lines of the messages of a script.
ghost use Rattle.std.specs.Prelude.{◌≡◌, ◌<◌, ◌^◌, ◌++◌, IfOk, IsTrue, OnOk};
ghost use Rattle.std.specs.List.{list_all};
ghost use Rattle.hex.specs.Hex.{encode_lower};
ghost use Rattle.of10_match.specs.Ranges.{IsPrefix};
ghost use Rattle.of10_msgs.specs.Ranges.{CanWrite};
ghost use Rattle.script_text.specs.Lines.{is_ascii};
ghost use Rattle.made_script.specs.Script.{addition as addition_of, from_net as from_net_of};
ghost use Rattle.made_script.specs.Script.{is_monitor as is_monitor_of};
ghost use Rattle.made_script.specs.Script.{line_of, message_of, net_of, port_of, sender_of, sending as sending_of};
ghost use Rattle.made_script.specs.Script.{to_net as to_net_of};

use crate::drawing::drawn;
use cv_io::{Bytes, List, Memory, Text};
use of10_actions::Action;
use of10_match::{IPV4, Match, Prefix};
use of10_msgs::number::NO_BUFFER;
use of10_msgs::{Body, Command, FlowMod, Message, write_message};
use script_text::say;
use std::alloc::Global;

/// The port of no port (OFPP_NONE), which stands for all.
const NONE: u16 = 0xffff;

const PRIORITY: u16 = 100;

/// 10.0.0.0.
const NETS: u32 = 0x0a00_0000;

/// 10.0.c.0/24, where c is the lowest byte of what is drawn.
fn net(drawn: u32) -> Prefix
    ensures net { result ≡ net_of drawn }
    ensures range { IsPrefix result }
{
    Prefix {
        addr: NETS + (drawn % 256) * 256,
        len: 24,
    }
}

/// A port from 1 to 4, by the two bits above that byte.
fn port(drawn: u32) -> u16
    ensures { result ≡ port_of drawn }
{
    1 + (drawn / 256 % 4) as u16
}

/// IPv4 packets that come from the net of what is drawn.
fn from_net(drawn: u32) -> Match
    ensures { result ≡ from_net_of (net_of drawn) }
{
    Match {
        dl_type: Some(IPV4),
        nw_src: Some(net(drawn)),
        ..Match::everything()
    }
}

/// IPv4 packets that go there.
fn to_net(drawn: u32) -> Match
    ensures { result ≡ to_net_of (net_of drawn) }
{
    Match {
        dl_type: Some(IPV4),
        nw_dst: Some(net(drawn)),
        ..Match::everything()
    }
}

/// An ADD of a member.
fn addition(xid: u32, m: &Match, actions: List<Action>) -> Message
    ensures { result ≡ addition_of xid m.now actions }
{
    Message {
        xid,
        body: Body::FlowMod(FlowMod {
            m: m.write(),
            cookie: 0,
            command: Command::Add.number(),
            idle_timeout: 0,
            hard_timeout: 0,
            priority: PRIORITY,
            buffer_id: NO_BUFFER,
            out_port: NONE,
            flags: 0,
            actions,
        }),
    }
}

/// The messages of odd numbers are of the monitor, those of even numbers of the router.
fn is_monitor(k: u32) -> bool
    ensures { result ≡ is_monitor_of k }
{
    k % 2 == 1
}

/// The message of a number, of what was drawn for it.
fn message(alloc: Global, k: u32, drawn: u32) -> Result<Message, Memory>
    ensures { IfOk result (λ m. m ≡ message_of k drawn) }
{
    let mut actions = List::new(alloc);
    if is_monitor(k) {
        return Ok(addition(k, &from_net(drawn), actions));
    }
    actions.push(Action::Output {
        port: port(drawn),
        max_len: 0,
    })?;
    Ok(addition(k, &to_net(drawn), actions))
}

/// The session that sends the message of a number.
fn sender(k: u32) -> &'static str
    ensures name { result.now ≡ sender_of k }
    ensures ascii { IsTrue (list_all is_ascii result.now) }
{
    if is_monitor(k) { "mon@v1" } else { "rt@v1" }
}

/// Appends the digits of bytes, in lower case.
fn say_hex(alloc: Global, line: &mut Text, bytes: &Bytes) -> Result<(), Memory>
    ensures { OnOk result (line.new ≡ line.old ++ encode_lower bytes.now) }
{
    let digits = hex::encode(alloc, bytes.as_slice())?;
    say(line, digits.as_str())
}

/// A line of a session that sends a message.
fn sending(alloc: Global, name: &str, message: &Message) -> Result<Text, Memory>
    requires ascii { IsTrue (list_all is_ascii name.now) }
    requires fits { CanWrite message.now.body }
    ensures { IfOk result (λ line. line ≡ sending_of name.now message.now) }
{
    let mut line = Text::new(alloc);
    say(&mut line, "from ")?;
    say(&mut line, name)?;
    say(&mut line, " ")?;
    say_hex(alloc, &mut line, &write_message(alloc, message)?)?;
    Ok(line)
}

/// The line of the message of a number, where this number is drawn from.
pub(crate) fn line(alloc: Global, k: u32, x: u64) -> Result<Text, Memory>
    requires { x < 2 ^ 31 }
    ensures { IfOk result (λ line. line ≡ line_of k x) }
{
    let message = message(alloc, k, drawn(x))?;
    sending(alloc, sender(k), &message)
}

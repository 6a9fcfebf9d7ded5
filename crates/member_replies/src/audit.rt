//! The audit's other lines.
ghost use Rattle.std.specs.Prelude.{◌≡◌, IfOk};
ghost use Rattle.script_text.specs.Lines.{audit_text};
ghost use Rattle.member_replies.specs.Audit.{down_line as down_text, note_line as note_text};
ghost use Rattle.member_replies.specs.Audit.{policy_line as policy_text, session_name as name_of};
ghost use Rattle.member_replies.specs.Audit.{slow_line as slow_text};

use cv_io::{Bytes, Duplicate, Memory, Text};
use script_text::{Audit, DownCause, audit_line, say};
use std::alloc::Global;

/// A line, as the bytes of a message.
fn line(alloc: Global, told: &Audit) -> Result<Bytes, Memory>
    ensures { IfOk result (λ line. line ≡ audit_text told.now) }
{
    Ok(audit_line(alloc, told)?.into_bytes())
}

/// The name of a member's session.
pub fn session_name(alloc: Global, controller: &Text, vsw: &Text) -> Result<Text, Memory>
    ensures { IfOk result (λ name. name ≡ name_of controller.now vsw.now) }
{
    let mut name = Text::new(alloc);
    name.push_text(controller)?;
    say(&mut name, "@")?;
    name.push_text(vsw)?;
    Ok(name)
}

/// A switch went down.
pub fn down_line(alloc: Global, name: &Text, cause: DownCause) -> Result<Bytes, Memory>
    ensures { IfOk result (λ line. line ≡ down_text name.now cause) }
{
    let name = name.copy()?;
    line(alloc, &Audit::Down { name, cause })
}

/// A member's session was closed, since it takes its messages too slowly.
pub fn slow_line(alloc: Global, controller: &Text, vsw: &Text) -> Result<Bytes, Memory>
    ensures { IfOk result (λ line. line ≡ slow_text controller.now vsw.now) }
{
    let name = session_name(alloc, controller, vsw)?;
    line(alloc, &Audit::Slow { name })
}

/// A switch came up that doesn't match ARP addresses.
pub fn note_line(alloc: Global, name: &Text) -> Result<Bytes, Memory>
    ensures { IfOk result (λ line. line ≡ note_text name.now) }
{
    let name = name.copy()?;
    line(alloc, &Audit::NoArp { name })
}

/// A virtual switch got another expression, or was refused it for this kind of fault.
pub fn policy_line(alloc: Global, vsw: &Text, refused: Option<Text>) -> Result<Bytes, Memory>
    ensures { IfOk result (λ line. line ≡ policy_text vsw.now refused) }
{
    let vsw = vsw.copy()?;
    line(alloc, &Audit::Policy { vsw, refused })
}

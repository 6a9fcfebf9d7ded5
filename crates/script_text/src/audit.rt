//! The lines of the audit.
ghost use Rattle.std.specs.Prelude.{◌≡◌, ◌++◌, IfOk, IsTrue, OnOk};
ghost use Rattle.std.specs.List.{list_all};
ghost use Rattle.script_text.specs.Lines.{audit_text, cause_text, is_ascii};

use crate::report::{say, say_number};
use cv_io::{Memory, Text};
use std::alloc::Global;

/// What the audit tells.
#[derive(PartialEq, Eq, Debug, Drop)]
pub enum Audit {
    /// A message of a controller at a virtual switch was refused: its transaction id, the rule and the
    /// rule's detail.
    Deny {
        controller: Text,
        vsw: Text,
        xid: u32,
        rule: Text,
        detail: Text,
    },
    /// A switch went down.
    Down {
        name: Text,
        cause: DownCause,
    },
    /// A member's session was closed, since it takes its messages too slowly.
    Slow {
        name: Text,
    },
    /// A switch came up that doesn't match ARP addresses.
    NoArp {
        name: Text,
    },
    /// A virtual switch got another expression, or was refused it for this kind.
    Policy {
        vsw: Text,
        refused: Option<Text>,
    },
}

/// Why a switch goes down.
#[derive(Clone, Copy, PartialEq, Eq, Debug)]
pub enum DownCause {
    /// Its session ended.
    Gone,
    /// It came up again.
    Again,
    /// It takes its messages too slowly.
    Slow,
    /// It sent an ERROR.
    Error,
    /// It sent a message that is no message.
    Form,
    /// It removed an entry that was not to be removed.
    Removal,
}

impl DownCause {
    /// Its word.
    pub fn word(self) -> &'static str
        ensures text { result.now ≡ cause_text self }
        ensures ascii { IsTrue (list_all is_ascii result.now) }
    {
        match self {
            DownCause::Gone => "gone",
            DownCause::Again => "again",
            DownCause::Slow => "slow",
            DownCause::Error => "error",
            DownCause::Form => "form",
            DownCause::Removal => "removal",
        }
    }
}

/// The line of the audit that tells this, without its line feed.
pub fn audit_line(alloc: Global, told: &Audit) -> Result<Text, Memory>
    ensures { IfOk result (λ line. line ≡ audit_text told.now) }
{
    let mut line = Text::new(alloc);
    match told {
        Audit::Deny {
            controller,
            vsw,
            xid,
            rule,
            detail,
        } => {
            say(&mut line, "deny ctl=")?;
            line.push_text(controller)?;
            say(&mut line, " vsw=")?;
            line.push_text(vsw)?;
            say(&mut line, " xid=")?;
            say_number(alloc, &mut line, u64::from(*xid))?;
            say(&mut line, " rule=")?;
            line.push_text(rule)?;
            say(&mut line, " ")?;
            line.push_text(detail)?;
            Ok(line)
        }
        Audit::Down { name, cause } => {
            say(&mut line, "down ")?;
            line.push_text(name)?;
            say(&mut line, " why=")?;
            say(&mut line, cause.word())?;
            Ok(line)
        }
        Audit::Slow { name } => {
            say(&mut line, "slow ")?;
            line.push_text(name)?;
            Ok(line)
        }
        Audit::NoArp { name } => {
            say(&mut line, "note ")?;
            line.push_text(name)?;
            say(&mut line, " noarp")?;
            Ok(line)
        }
        Audit::Policy { vsw, refused } => {
            say(&mut line, "policy vsw=")?;
            line.push_text(vsw)?;
            match refused {
                Some(kind) => {
                    say(&mut line, " refused=")?;
                    line.push_text(kind)?;
                    Ok(line)
                }
                None => {
                    say(&mut line, " ok")?;
                    Ok(line)
                }
            }
        }
    }
}

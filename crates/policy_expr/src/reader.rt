// Reading a text sign by sign.
ghost use Rattle.std.specs.Prelude.{◌≡◌, ◌≤◌, Ok, IfOk, IfErr, length};
ghost use Rattle.cv_io.specs.Text.{IsAsciiText};
ghost use Rattle.policy_expr.specs.Signs.{signs_of};
ghost use Rattle.policy_expr.specs.Reading.{run, start};
ghost use Rattle.policy_expr.specs.Contexts.{read_of};
ghost use Rattle.policy_expr.specs.Outcomes.{IsFaultOfRun};

use crate::context::{Parsed, Progress};
use crate::fault::ExprFault;
use crate::lexer::token_at;
use crate::member::MemberName;
use std::alloc::Global;

/// The expression that the text stands for, and the names in it.
pub fn read(alloc: Global, text: &[u8], members: &[MemberName]) -> Result<Parsed, ExprFault>
    requires short { length text.now ≤ 1024 }
    requires ascii { IsAsciiText text.now }
    ensures read { IfOk result (λ parsed. run members.now (length text.now) start (signs_of text.now)
        ≡ Ok (read_of parsed)) }
    ensures few { IfOk result (λ parsed. length parsed.names ≤ length text.now) }
    ensures fault { IfErr result (IsFaultOfRun (run members.now (length text.now) start (signs_of text.now))) }
{
    let mut progress = Progress::start(alloc);
    let mut at = 0;
    while at < text.len() {
        if text[at] == b' ' {
            at += 1;
            continue;
        }
        let rest = &text[at..];
        let (token, width) = token_at(rest);
        let Some(after) = progress.next(alloc, token, rest, members)? else {
            return Err(ExprFault::Syntax { at: at as u32 });
        };
        progress = after;
        at += width;
    }
    let Some(parsed) = progress.end(alloc)? else {
        return Err(ExprFault::Syntax {
            at: text.len() as u32,
        });
    };
    Ok(parsed)
}

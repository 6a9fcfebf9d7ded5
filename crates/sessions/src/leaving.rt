//! The end of a session.
ghost use Rattle.std.specs.Prelude.{◌≡◌, OnOk, OnErr};
ghost use Rattle.sessions.specs.Posts.{Leaves, StillShows};

use crate::desk::Desk;
use cv_io::{Memory, Session};

/// Posts that the session went.
pub(crate) fn leave<D: Desk>(desk: &D, pass: &mut D::Pass, session: &Session) -> Result<(), Memory>
    requires { D.admits desk.now pass.old }
    ensures pass { D.admits desk.now pass.new }
    ensures shown { StillShows (D.shows pass.old) (D.shows pass.new) }
    ensures left { OnOk result (Leaves (D.ended pass.new session.now)
        (D.posts pass.old) (D.posts pass.new) session.now) }
    ensures memory { OnErr result (D.posts pass.new ≡ D.posts pass.old) }
{
    let _heard = desk.gone(pass, session)?;
    Ok(())
}

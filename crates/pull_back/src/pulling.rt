//! The pull of a match through a rewrite.
ghost use Rattle.std.specs.Prelude.{◌≡◌, None, IfSome, IsSome, ◌↔◌};
ghost use Rattle.of10_match.specs.Normal.{IsNormal};
ghost use Rattle.pull_back.specs.Pulling.{can_pull as can_pull_of, pull as pull_of, pulled as pulled_of};
ghost use Rattle.pull_back.specs.Pulls.{IsPullBack, Reaches};

use crate::fields::{address_fits, set_fits, sets_nw, sets_tp, unset};
use of10_actions::Rewrite;
use of10_match::Match;

/// Whether each value that is set inside the Ethernet frame is one that the match asks for.
fn inner_fits(rewrite: &Rewrite, m: &Match) -> bool
    ensures { result ≡ can_pull_of (record rewrite.now { dl_src = None; dl_dst = None }) m.now }
{
    let nw = sets_nw(m);
    let tp = sets_tp(m);
    set_fits(nw, rewrite.nw_tos, m.nw_tos)
        && address_fits(nw, rewrite.nw_src, m.nw_src)
        && address_fits(nw, rewrite.nw_dst, m.nw_dst)
        && set_fits(tp, rewrite.tp_src, m.tp_src)
        && set_fits(tp, rewrite.tp_dst, m.tp_dst)
}

/// Whether each value that is set is one that the match asks for.
fn can_pull(rewrite: &Rewrite, m: &Match) -> bool
    ensures { result ≡ can_pull_of rewrite.now m.now }
{
    set_fits(true, rewrite.dl_src, m.dl_src)
        && set_fits(true, rewrite.dl_dst, m.dl_dst)
        && inner_fits(rewrite, m)
}

/// What is asked of a header before it is rewritten, where each value that is set fits.
fn asked_before(rewrite: &Rewrite, m: &Match) -> Match
    ensures { result ≡ pulled_of rewrite.now m.now }
{
    let nw = sets_nw(m);
    let tp = sets_tp(m);
    Match {
        dl_src: unset(true, rewrite.dl_src, m.dl_src),
        dl_dst: unset(true, rewrite.dl_dst, m.dl_dst),
        nw_tos: unset(nw, rewrite.nw_tos, m.nw_tos),
        nw_src: unset(nw, rewrite.nw_src, m.nw_src),
        nw_dst: unset(nw, rewrite.nw_dst, m.nw_dst),
        tp_src: unset(tp, rewrite.tp_src, m.tp_src),
        tp_dst: unset(tp, rewrite.tp_dst, m.tp_dst),
        ..*m
    }
}

/// The match that holds exactly the headers that a normal match holds once they are rewritten, or
/// none where there is no such header.
pub fn pull(rewrite: &Rewrite, m: &Match) -> Option<Match>
    ensures value { result ≡ pull_of rewrite.now m.now }
    ensures exact { IsNormal m.now → IsPullBack rewrite.now m.now result }
    ensures none { IsNormal m.now → IsSome result ↔ Reaches rewrite.now m.now }
    ensures normal { IsNormal m.now → IfSome result IsNormal }
{
    if can_pull(rewrite, m) {
        Some(asked_before(rewrite, m))
    } else {
        None
    }
}

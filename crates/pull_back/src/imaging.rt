//! The image of a match under a rewrite.
ghost use Rattle.std.specs.Prelude.{◌≡◌};
ghost use Rattle.of10_match.specs.Normal.{IsNormal};
ghost use Rattle.pull_back.specs.Pulling.{image as image_of};
ghost use Rattle.pull_back.specs.Pulls.{IsImage};

use crate::fields::{address_in, set_in, sets_nw, sets_tp};
use of10_actions::Rewrite;
use of10_match::Match;

/// What is known of a header after it is rewritten.
fn known_after(rewrite: &Rewrite, m: &Match) -> Match
    ensures { result ≡ image_of rewrite.now m.now }
{
    let nw = sets_nw(m);
    let tp = sets_tp(m);
    Match {
        dl_src: set_in(true, rewrite.dl_src, m.dl_src),
        dl_dst: set_in(true, rewrite.dl_dst, m.dl_dst),
        nw_tos: set_in(nw, rewrite.nw_tos, m.nw_tos),
        nw_src: address_in(nw, rewrite.nw_src, m.nw_src),
        nw_dst: address_in(nw, rewrite.nw_dst, m.nw_dst),
        tp_src: set_in(tp, rewrite.tp_src, m.tp_src),
        tp_dst: set_in(tp, rewrite.tp_dst, m.tp_dst),
        ..*m
    }
}

/// A match that holds each header of a normal match once it is rewritten. It may hold more.
pub fn image(rewrite: &Rewrite, m: &Match) -> Match
    ensures value { result ≡ image_of rewrite.now m.now }
    ensures holds { IsNormal m.now → IsImage rewrite.now m.now result }
    ensures normal { IsNormal m.now → IsNormal result }
{
    known_after(rewrite, m)
}

//! Laws.
ghost use Rattle.std.specs.Prelude.{◌≡◌, ℕ, false, true};
ghost use Rattle.of10_actions.specs.declared.effects.PortView.{PortView};
ghost use Rattle.grants.specs.Granted.{goes_somewhere};
ghost use Rattle.grants.specs.Rows.{is_refused};
ghost use Rattle.grants.specs.declared.grant.Grant.{Grant};

/// An output that a FLOW_MOD may have goes to a visible port, to several, to the member, or to the rest of
/// the policy: never to TABLE, LOCAL, NONE or a number that names no visible port.
#[tactic(auto, using(crate::proofs::Accepted::somewhere))]
pub fn what_is_served_goes_somewhere()
    ensures { (g : Grant) (v : PortView) (port : ℕ) → is_refused true g v port ≡ false
        → goes_somewhere g.ports port ≡ true }
{}

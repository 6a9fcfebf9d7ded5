//! What follows of a run of which all is done. Each function's contract is a law.
ghost use Rattle.serving.specs.Laws.{CutOnlyWhereClosed, DoneServesAll};

use lock_desk::Host;
use outside::Clock;
use policy_lock::Machine;

/// Of the connections that are told each whose calls never fail came up in the history, or its bytes open nothing.
pub fn done_serves_all<H: Host, C: Clock>()
    ensures { DoneServesAll ⟦<H::Machine as Machine>⟧ C.may }
{}

/// Each that came up is posted to its end, but where the history has its session ended.
pub fn cut_only_where_closed<H: Host, C: Clock>()
    ensures { CutOnlyWhereClosed ⟦<H::Machine as Machine>⟧ C.may }
{}

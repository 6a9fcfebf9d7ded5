//! What is written.
ghost use Rattle.std.specs.Prelude.{◌≡◌, [], OnErr, OnOk};
ghost use Rattle.outside.specs.Outside.{Rose};
ghost use Rattle.replay_report.specs.Players.{form_of, is_ready, plan_of, progress_of, reported};
ghost use Rattle.covisor_proxy.specs.Written.{Appends, AppendsShort};

use outside::{Failed, Sink};
use replay_report::Player;

/// Writes all bytes.
#[tactic(auto, using(crate::proofs::Appending::short_kept))]
pub(crate) fn write_all<K: Sink>(out: &mut K, bytes: &[u8]) -> Result<(), Failed>
    ensures written { OnOk result (Appends (K.held out.old) (K.held out.new) bytes.now) }
    ensures short { OnErr result (AppendsShort (K.held out.old) (K.held out.new) bytes.now) }
    ensures quiet { OnOk result (K.faults out.new ≡ K.faults out.old) }
    ensures fault { OnErr result (Rose (K.faults out.old) (K.faults out.new)) }
{
    let mut written = 0;
    while written < bytes.len() {
        written += out.write(&bytes[written..])?;
    }
    Ok(())
}

/// Writes what was reported.
pub(crate) fn flush<K: Sink>(player: &mut Player, out: &mut K) -> Result<(), Failed>
    ensures written { OnOk result (Appends (K.held out.old) (K.held out.new) (reported player.old)) }
    ensures emptied { OnOk result (reported player.new ≡ []) }
    ensures short { OnErr result (AppendsShort (K.held out.old) (K.held out.new) (reported player.old)) }
    ensures quiet { OnOk result (K.faults out.new ≡ K.faults out.old) }
    ensures fault { OnErr result (Rose (K.faults out.old) (K.faults out.new)) }
    ensures progress { progress_of player.new ≡ progress_of player.old }
    ensures form { form_of player.new ≡ form_of player.old }
    ensures plan { plan_of player.new ≡ plan_of player.old }
    ensures ready { is_ready player.old → is_ready player.new }
{
    write_all(out, player.report())?;
    player.clear();
    Ok(())
}

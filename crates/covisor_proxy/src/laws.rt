//! What follows of a run, in plain sentences. Each function's contract is a law of each run that keeps the contract of
//! `run`.
ghost use Rattle.covisor_proxy.specs.Laws.{EightIsUndialled, FiveOnlyWhereAllWasDone, NineIsUnspawned, QuietIsDone};
ghost use Rattle.covisor_proxy.specs.Laws.{SevenIsAbsent, SixIsUnwritten, StepsAreFew, ThreeIsRefused, ZeroReadsAll};

use hyper_core::Hyper;
use outside::Clock;
use policy_lock::Machine;

/// With 0 the script was read to its end, if there is one.
pub fn zero_reads_all<C: Clock>()
    ensures { ZeroReadsAll ⟦<Hyper as Machine>⟧ C.may }
{}

/// With 3 the file of the policy is refused: it states none.
pub fn three_is_refused<C: Clock>()
    ensures { ThreeIsRefused ⟦<Hyper as Machine>⟧ C.may }
{}

/// With 5 a read failed: of the file, or of the script, and then each line that was read before is done.
pub fn five_only_where_all_was_done<C: Clock>()
    ensures { FiveOnlyWhereAllWasDone ⟦<Hyper as Machine>⟧ C.may }
{}

/// With 6 a write failed.
pub fn six_is_unwritten<C: Clock>()
    ensures { SixIsUnwritten ⟦<Hyper as Machine>⟧ C.may }
{}

/// With 7 there is no file of the policy.
pub fn seven_is_absent<C: Clock>()
    ensures { SevenIsAbsent ⟦<Hyper as Machine>⟧ C.may }
{}

/// With 8 a dial failed, where none is such that may.
pub fn eight_is_undialled<C: Clock>()
    ensures { EightIsUndialled ⟦<Hyper as Machine>⟧ C.may }
{}

/// With 9 the works that serve could not be run.
pub fn nine_is_unspawned<C: Clock>()
    ensures { NineIsUnspawned ⟦<Hyper as Machine>⟧ C.may }
{}

/// Where nothing fails and the report has the status 0, the answer is 0, or memory was wanted.
pub fn quiet_is_done<C: Clock>()
    ensures { QuietIsDone ⟦<Hyper as Machine>⟧ C.may }
{}

/// Whatever the answer is, at most the steps of the command were counted, over what the files answered and the whole
/// script.
pub fn steps_are_few<C: Clock>()
    ensures { StepsAreFew ⟦<Hyper as Machine>⟧ C.may }
{}

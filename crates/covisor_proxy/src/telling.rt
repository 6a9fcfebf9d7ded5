//! The last lines of faults of a policy file.
ghost use Rattle.std.specs.Prelude.{◌≡◌, ◌≢◌, ◌++◌, Err, IfOk, IsTrue, List, Option, codes, ℕ};
ghost use Rattle.std.specs.List.{list_all};
ghost use Rattle.script_text.specs.Lines.{is_ascii};
ghost use Rattle.policies.specs.Terse.{terse as terse_of};
ghost use Rattle.replay_report.specs.Takings.{as_line};
ghost use Rattle.outside.specs.declared.files.MemFile.{MemFile};
ghost use Rattle.script_text.specs.declared.form.Form.{Form};
ghost use Rattle.covisor_proxy.specs.Asked.{Scripts};
ghost use Rattle.covisor_proxy.specs.Following.{Alone};
ghost use Rattle.covisor_proxy.specs.Noted.{NotesNone};
ghost use Rattle.covisor_proxy.specs.Opening.{Opens};
ghost use Rattle.covisor_proxy.specs.declared.opening.NoPolicy.TheVariants as none;
ghost use Rattle.covisor_proxy.specs.Outcomes.{moment};
ghost use Rattle.covisor_proxy.specs.Serving.{EndsUnopened};

use crate::ending::write_fault;
use crate::noting::{note_absent, note_policy, note_unread};
use crate::opening::NoPolicy;
use crate::status::Status;
use cv_io::{Memory, Text};
use outside::Sink;
use policies::PolicyFault;
use policy_notes::Place;
use script_text::say;
use std::alloc::Global;

/// There is no policy of a name.
pub(crate) fn tell<K: Sink, N: Sink>(
    alloc: Global,
    name: &Text,
    fault: NoPolicy,
    out: &mut K,
    notes: &mut N,
) -> Status
    ensures ends { (files : Option (List MemFile)) (fails fails' : ℕ) (all cut : Scripts) (form : Form)
        (left : Option (List ℕ)) (reads steps : ℕ)
        → Opens files fails fails' name.now (Err fault)
        → EndsUnopened result all cut form name.now files fails fails'
        (moment left reads (K.held out.old) (K.faults out.old) steps)
        (moment left reads (K.held out.new) (K.faults out.new) steps) }
    ensures notes { NotesNone result name.now fault (N.held notes.old) (N.held notes.new) }
    ensures form { result ≢ Status.Usage }
    ensures done { result ≢ Status.Done }
{
    match fault {
        NoPolicy::Absent => tell_absent(alloc, name, out, notes),
        NoPolicy::Unread => {
            note_unread(alloc, notes, name);
            write_fault(out, b"fault read\n", Status::Read)
        }
        NoPolicy::Refused { fault, place } => {
            tell_refused(alloc, name, &fault, &place, out, notes)
        }
        NoPolicy::Memory => Status::Memory,
    }
}

/// There is no file of a name.
fn tell_absent<K: Sink, N: Sink>(alloc: Global, name: &Text, out: &mut K, notes: &mut N) -> Status
    ensures notes { NotesNone result name.now none.Absent (N.held notes.old) (N.held notes.new) }
    ensures alone { Alone Status.Absent result (K.held out.old) (K.held out.new) (K.faults out.old) (K.faults out.new)
        (as_line (codes "fault absent " ++ name.now)) }
{
    match fault_line(alloc, "fault absent ", name) {
        Ok(last) => {
            note_absent(alloc, notes, name);
            write_fault(out, last.as_bytes(), Status::Absent)
        }
        Err(_) => Status::Memory,
    }
}

/// The policy file is refused.
fn tell_refused<K: Sink, N: Sink>(
    alloc: Global,
    name: &Text,
    fault: &PolicyFault,
    place: &Place,
    out: &mut K,
    notes: &mut N,
) -> Status
    ensures notes { NotesNone result name.now (none.Refused fault.now place.now) (N.held notes.old) (N.held notes.new) }
    ensures alone { Alone Status.Policy result (K.held out.old) (K.held out.new) (K.faults out.old) (K.faults out.new)
        (as_line (codes "fault policy " ++ terse_of fault.now)) }
{
    match refusal_line(alloc, fault) {
        Ok(last) => {
            note_policy(alloc, notes, name, place, fault);
            write_fault(out, last.as_bytes(), Status::Policy)
        }
        Err(_) => Status::Memory,
    }
}

fn refusal_line(alloc: Global, fault: &PolicyFault) -> Result<Text, Memory>
    ensures { IfOk result (λ line. line ≡ as_line (codes "fault policy " ++ terse_of fault.now)) }
{
    let terse = fault.terse(alloc)?;
    fault_line(alloc, "fault policy ", &terse)
}

/// A line of a fault, which ends with a text.
fn fault_line(alloc: Global, start: &str, end: &Text) -> Result<Text, Memory>
    requires { IsTrue (list_all is_ascii start.now) }
    ensures { IfOk result (λ line. line ≡ as_line (start.now ++ end.now)) }
{
    let mut line = Text::new(alloc);
    say(&mut line, start)?;
    line.push_text(end)?;
    line.push(b'\n')?;
    Ok(line)
}

//! The policy that a file holds.
ghost use Rattle.std.specs.Prelude.{◌≡◌, Err, IfOk, Ok};
ghost use Rattle.covisor_proxy.specs.Asked.{stated};
ghost use Rattle.covisor_proxy.specs.BuiltIn.{built_in_read};
ghost use Rattle.covisor_proxy.specs.Opening.{Opens, Reads};

use cv_io::{Memory, Text};
use outside::{FileFault, Files};
use policies::{Policy, PolicyFault};
use policy_notes::{Place, find_place};
use std::alloc::Global;

/// Why there is no policy of a name.
#[derive(Debug, Drop)]
pub(crate) enum NoPolicy {
    Absent,
    Unread,
    Refused { fault: PolicyFault, place: Place },
    Memory,
}

/// The policy that stands where no file is named.
pub(crate) fn open_built_in(alloc: Global) -> Result<Policy, Memory>
    ensures { IfOk result (λ policy. built_in_read ≡ Ok policy) }
{
    policy_file::built_in(alloc)
}

/// The policy of a file.
pub(crate) fn open<F: Files>(alloc: Global, files: &mut F, name: &Text) -> Result<Policy, NoPolicy>
    ensures { Opens (F.files files.old) (F.faults files.old) (F.faults files.new) name.now result }
{
    match files.read(name) {
        Ok(bytes) => read_policy(alloc, bytes.as_slice()),
        Err(FileFault::Absent) => Err(NoPolicy::Absent),
        Err(FileFault::Failed) => Err(NoPolicy::Unread),
        Err(FileFault::Memory) => Err(NoPolicy::Memory),
    }
}

/// The fault of bytes that state no policy, and where it stands.
fn refused(alloc: Global, bytes: &[u8], fault: PolicyFault) -> Result<Policy, NoPolicy>
    requires { stated bytes.now ≡ Err fault }
    ensures { Reads bytes.now result }
{
    match find_place(alloc, bytes, &fault) {
        Ok(place) => Err(NoPolicy::Refused { fault, place }),
        Err(_) => Err(NoPolicy::Memory),
    }
}

/// The policy that bytes state.
#[tactic(auto, unfolding(crate::specs::Asked::stated))]
fn read_policy(alloc: Global, bytes: &[u8]) -> Result<Policy, NoPolicy>
    ensures { Reads bytes.now result }
{
    match policy_file::read(alloc, bytes) {
        Ok(policy) => Ok(policy),
        Err(PolicyFault::Memory) => Err(NoPolicy::Memory),
        Err(fault) => refused(alloc, bytes, fault),
    }
}

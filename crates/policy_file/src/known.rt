//! Policies that need no file.
ghost use Rattle.std.specs.Prelude.{◌≡◌, IfOk, Ok};
ghost use Rattle.policy_file.specs.Reading.{policy_in_bytes};

use crate::reading::read;
use cv_io::Memory;
use policies::Policy;
use std::alloc::Global;

/// One member, `app`, at a virtual switch of the four ports of a switch.
pub const BUILT_IN: &str = "\
version = 1
[[switch]]
name = \"s1\"
dpid = \"0000000000000001\"
ports = [1, 2, 3, 4]
[[virtual]]
name = \"v1\"
dpid = \"00000000000000a1\"
ports = [\"1=s1:1\", \"2=s1:2\", \"3=s1:3\", \"4=s1:4\"]
expr = \"app\"
[[member]]
controller = \"app\"
virtual = \"v1\"
bits = 8
match = [\"in_port\", \"dl_src\", \"dl_dst\", \"dl_vlan\", \"dl_type\", \"nw_tos\",
  \"nw_proto\", \"nw_src\", \"nw_dst\", \"tp_src\", \"tp_dst\"]
actions = [\"output\", \"controller\", \"set_dl_src\", \"set_dl_dst\", \"set_nw_src\",
  \"set_nw_dst\", \"set_nw_tos\", \"set_tp_src\", \"set_tp_dst\"]
packet_out = true
";

/// Two members in parallel at a virtual switch of the four ports of a switch.
pub const BENCH: &str = "\
version = 1
[[switch]]
name = \"s1\"
dpid = \"0000000000000001\"
ports = [1, 2, 3, 4]
[[virtual]]
name = \"v1\"
dpid = \"00000000000000a1\"
ports = [\"1=s1:1\", \"2=s1:2\", \"3=s1:3\", \"4=s1:4\"]
expr = \"mon + rt\"
[[member]]
controller = \"mon\"
virtual = \"v1\"
bits = 3
match = [\"in_port\", \"dl_src\", \"dl_dst\", \"dl_vlan\", \"dl_type\", \"nw_tos\",
  \"nw_proto\", \"nw_src\", \"nw_dst\"]
actions = [\"output\"]
misses = false
[[member]]
controller = \"rt\"
virtual = \"v1\"
bits = 3
match = [\"in_port\", \"dl_src\", \"dl_dst\", \"dl_vlan\", \"dl_type\", \"nw_tos\",
  \"nw_proto\", \"nw_src\", \"nw_dst\", \"tp_src\", \"tp_dst\"]
actions = [\"output\", \"controller\"]
";

/// The policy of a text that has none but faults of memory.
fn known(alloc: Global, text: &str) -> Result<Policy, Memory>
    ensures { IfOk result (λ policy. policy_in_bytes text.now ≡ Ok policy) }
{
    match read(alloc, text.as_bytes()) {
        Ok(policy) => Ok(policy),
        Err(_) => Err(Memory),
    }
}

/// The policy that stands where no file is given.
pub fn built_in(alloc: Global) -> Result<Policy, Memory>
    ensures { IfOk result (λ policy. policy_in_bytes BUILT_IN.now ≡ Ok policy) }
{
    known(alloc, BUILT_IN)
}

/// The policy of benchmarks.
pub fn bench(alloc: Global) -> Result<Policy, Memory>
    ensures { IfOk result (λ policy. policy_in_bytes BENCH.now ≡ Ok policy) }
{
    known(alloc, BENCH)
}

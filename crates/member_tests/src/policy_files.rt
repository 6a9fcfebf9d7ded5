//! Policy files, their faults, and the policies that need no file.
use cv_io::{Duplicate, Memory};
use policies::{Policy, PolicyFault};
use policy_file::{bench, built_in, read};
use std::alloc::Global;
use std::test::Fail;

/// One physical switch, and a virtual one up to its expression.
const ONE: &str = "version = 1
[[switch]]
name = \"s1\"
dpid = \"0000000000000001\"
ports = [1, 2, 3, 4]
[[virtual]]
name = \"v1\"
dpid = \"00000000000000a1\"
ports = [\"1=s1:1\", \"2=s1:2\"]
";

/// The same in version 2.
const ONE_OF_TWO: &str = "version = 2
standby = \"127.0.0.1:6640\"
[[switch]]
name = \"s1\"
dpid = \"0000000000000001\"
ports = [1, 2, 3, 4]
[[virtual]]
name = \"v1\"
dpid = \"00000000000000a1\"
ports = [\"1=s1:1\", \"2=s1:2\"]
expr = \"app\"
[[member]]
controller = \"app\"
virtual = \"v1\"
bits = 3
";

/// Three physical switches in a line but for the cable of the last two, and a virtual switch on all.
const LINE: &str = "version = 1
[[switch]]
name = \"s1\"
dpid = \"0000000000000001\"
ports = [1, 2, 3]
[[switch]]
name = \"s2\"
dpid = \"0000000000000002\"
ports = [1, 3, 4]
[[switch]]
name = \"s3\"
dpid = \"0000000000000003\"
ports = [1, 3]
[[cable]]
a = \"s1:3\"
b = \"s2:3\"
[[virtual]]
name = \"v1\"
dpid = \"00000000000000a1\"
ports = [\"1=s1:1\", \"2=s2:1\", \"3=s1:2\", \"4=s3:1\"]
expr = \"app\"
[[member]]
controller = \"app\"
virtual = \"v1\"
bits = 8
";

/// Two virtual switches on one physical switch, and two links between them.
const PAIR: &str = "
version = 1
[[switch]]
name = \"s1\"
dpid = \"0000000000000001\"
ports = [1, 2, 3, 4]
[[virtual]]
name = \"v1\"
dpid = \"00000000000000a1\"
ports = [\"1=s1:1\", \"2=s1:2\", \"8=link\", \"9=link\"]
expr = \"a\"
[[virtual]]
name = \"v2\"
dpid = \"00000000000000a2\"
ports = [\"1=s1:3\", \"2=s1:4\", \"8=link\", \"9=link\"]
expr = \"b\"
[[link]]
a = \"v1:9\"
b = \"v2:9\"
[[link]]
a = \"v1:8\"
b = \"v2:8\"
[[member]]
controller = \"a\"
virtual = \"v1\"
bits = 4
[[member]]
controller = \"b\"
virtual = \"v2\"
bits = 4
";

/// The texts, one after the other.
fn joined(alloc: Global, texts: [&str; 2]) -> Result<String, Fail> {
    let [first, second] = texts;
    Ok(format!(in alloc; "{first}{second}")?)
}

/// The terse form of what reading gave.
fn terse(alloc: Global, read: &Result<Policy, PolicyFault>) -> Result<String, Fail> {
    match read {
        Ok(policy) => Ok(format!(in alloc; "accepted {}", policy.members.len())?),
        Err(fault) => Ok(format!(in alloc; "{}", fault.terse(alloc)?)?),
    }
}

/// What reading the texts gives, in the terse form.
fn outcome(alloc: Global, texts: [&str; 2]) -> Result<String, Fail> {
    let file = joined(alloc, texts)?;
    let read = read(alloc, file.as_bytes());
    let said = terse(alloc, &read);
    drop(read);
    said
}

/// Files as a whole: their texts, and the outcome.
const FILES: &[([&str; 2], &str)] = &[
    (["", ""], "missing version"),
    (["version = 1", ""], "accepted 0"),
    (["version = ", ""], "syntax -"),
    (["version = 3", ""], "value version"),
    (["vision = 1", ""], "key vision"),
    (["version = 1\nstandby = \"a\"", ""], "key standby"),
    (["version = 1\nhops = 5", ""], "value hops"),
    (["version = 1\nswitch = 3", ""], "value switch"),
    ([ONE_OF_TWO, ""], "accepted 1"),
    ([LINE, ""], "paths - unreachable"),
    (
        [LINE, "[[cable]]\na = \"s2:4\"\nb = \"s3:3\"\n"],
        "accepted 1",
    ),
    (
        [LINE, "[[cable]]\na = \"s2:4\"\nb = \"s1:1\"\n"],
        "topology - porttwice",
    ),
    (
        [
            "version = 1\n[[virtual]]\nname = \"v1\"\ndpid = \"00000000000000a1\"\nports = [\"8=link\"]\nexpr = \"a\"\n[[member]]\n",
            "controller = \"a\"\nvirtual = \"v1\"\nbits = 2",
        ],
        "topology - linkshape",
    ),
    (["hops = 4", PAIR], "toowide v1"),
    (["hops = 3", PAIR], "accepted 2"),
    (
        [
            ONE_OF_TWO,
            "regions = [{dl_type = 2048, nw_dst = \"10.0.0.0/24\"}, {dl_type = 2048, nw_dst = \"10.0.2.0/24\"}]",
        ],
        "accepted 1",
    ),
    (
        [
            ONE_OF_TWO,
            "regions = [{dl_type = 2048, nw_dst = \"10.0.0.0/24\"}, {dl_type = 2048, nw_dst = \"10.0.0.0/25\"}]",
        ],
        "value member[0].regions",
    ),
];

#[test]
fn files_have_these_outcomes(rt: HostRuntime) -> Result<(), Fail> {
    for (texts, want) in FILES {
        assert_eq!(rt; outcome(rt.alloc(), *texts)?.as_str(), *want);
    }
    Ok(())
}

/// What stands after the ports of a virtual switch, and the outcome.
const MEMBERS: &[(&str, &str)] = &[
    (
        "expr = \"app\"\n[[member]]\ncontroller = \"app\"\nvirtual = \"v1\"\nbits = 15\n",
        "accepted 1",
    ),
    (
        "expr = \"app\"\n[[member]]\ncontroller = \"app\"\nvirtual = \"v1\"\nbits = 16\n",
        "value member[0].bits",
    ),
    (
        "expr = \"app\"\n[[member]]\ncontroller = \"app\"\nvirtual = \"v1\"\nbits = 2\nregions = []\n",
        "key member[0].regions",
    ),
    (
        "expr = \"app\"\n[[member]]\ncontroller = \"app\"\nvirtual = \"v1\"\n",
        "missing member[0].bits",
    ),
    (
        "expr = \"app\"\n[[member]]\ncontroller = \"app\"\nvirtual = \"v2\"\nbits = 2\n",
        "value member[0].virtual",
    ),
    (
        "expr = \"app\"\n[[member]]\ncontroller = \"app\"\nvirtual = \"v1\"\nbits = 2\nports = [3]\n",
        "value member[0].ports",
    ),
    (
        "expr = \"app\"\n[[member]]\ncontroller = \"app\"\nvirtual = \"v1\"\nbits = 2\nmatch = [\"nw_src/24\", \"dl_vlan_pcp\"]\n",
        "accepted 1",
    ),
    (
        "expr = \"app\"\n[[member]]\ncontroller = \"app\"\nvirtual = \"v1\"\nbits = 2\nmatch = [\"nw_src/33\"]\n",
        "value member[0].match",
    ),
    (
        "expr = \"app\"\n[[member]]\ncontroller = \"app\"\nvirtual = \"v1\"\nbits = 2\nactions = [\"output\", \"output\"]\n",
        "value member[0].actions",
    ),
    (
        "expr = \"app\"\n[[member]]\ncontroller = \"app\"\nvirtual = \"v1\"\nbits = 2\n[member.region]\nnw_tos = 4\n",
        "value member[0].region",
    ),
    (
        "expr = \"web\"\n[[member]]\ncontroller = \"app\"\nvirtual = \"v1\"\nbits = 2\n",
        "expr v1 unknown",
    ),
    (
        "expr = \"app +\t\"\n[[member]]\ncontroller = \"app\"\nvirtual = \"v1\"\nbits = 2\n",
        "expr v1 syntax",
    ),
    (
        "expr = \"a >> b\"\n[[member]]\ncontroller = \"a\"\nvirtual = \"v1\"\nbits = 2\n[[member]]\ncontroller = \"a\"\nvirtual = \"v1\"\nbits = 2\n",
        "value member[1].controller",
    ),
    (
        "expr = \"a >> b\"\n[[member]]\ncontroller = \"a\"\nvirtual = \"v1\"\nbits = 15\n[[member]]\ncontroller = \"b\"\nvirtual = \"v1\"\nbits = 15\n",
        "toowide v1",
    ),
];

#[test]
fn members_have_these_outcomes(rt: HostRuntime) -> Result<(), Fail> {
    for (rest, want) in MEMBERS {
        assert_eq!(rt; outcome(rt.alloc(), [ONE, *rest])?.as_str(), *want);
    }
    Ok(())
}

/// How many levels are needed, if reading refused a file for them.
fn levels(read: &Result<Policy, PolicyFault>) -> Option<u64> {
    match read {
        Err(PolicyFault::TooWide { needed, .. }) => Some(*needed),
        _ => None,
    }
}

/// How many levels a file needs, if it is refused for them.
fn needed(alloc: Global, texts: [&str; 2]) -> Result<Option<u64>, Fail> {
    let file = joined(alloc, texts)?;
    let read = read(alloc, file.as_bytes());
    let needed = levels(&read);
    drop(read);
    Ok(needed)
}

#[test]
fn too_wide_by_the_product(rt: HostRuntime) -> Result<(), Fail> {
    let (rest, _) = &MEMBERS[13];
    assert_eq!(rt; needed(rt.alloc(), [ONE, *rest])?, Some(1_073_741_824));
    Ok(())
}

/// Whether a copy of the policy equals it.
fn is_copied(policy: &Policy) -> Result<bool, Memory> {
    let copied = policy.copy()?;
    let same = copied == *policy;
    drop(copied);
    Ok(same)
}

/// Whether the built-in policy is copied as it is, and how many members it has.
fn seen(alloc: Global) -> Result<(bool, usize), Memory> {
    let policy = built_in(alloc)?;
    let same = is_copied(&policy);
    let members = policy.members.len();
    drop(policy);
    Ok((same?, members))
}

/// How many members the policy of the benchmark has.
fn bench_members(alloc: Global) -> Result<usize, Memory> {
    let policy = bench(alloc)?;
    let members = policy.members.len();
    drop(policy);
    Ok(members)
}

#[test]
fn policies_without_a_file(rt: HostRuntime) -> Result<(), Fail> {
    let (same, members) = seen(rt.alloc())?;
    assert!(rt; same);
    assert_eq!(rt; members, 1);
    assert_eq!(rt; bench_members(rt.alloc())?, 2);
    Ok(())
}

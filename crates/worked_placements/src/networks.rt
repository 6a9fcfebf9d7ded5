//! The policies over which rules are placed.

/// A virtual switch over three switches in a row.
pub const ROW: &str = "\
version = 1
[[switch]]
name = \"s1\"
dpid = \"0000000000000001\"
ports = [1, 2, 3, 4]
[[switch]]
name = \"s2\"
dpid = \"0000000000000002\"
ports = [1, 2, 3, 4]
[[switch]]
name = \"s3\"
dpid = \"0000000000000003\"
ports = [1, 2, 3, 4]
[[cable]]
a = \"s1:3\"
b = \"s2:3\"
[[cable]]
a = \"s2:4\"
b = \"s3:3\"
[[virtual]]
name = \"v1\"
dpid = \"00000000000000a1\"
ports = [\"1=s1:1\", \"2=s2:1\", \"3=s1:2\", \"4=s3:1\"]
expr = \"app\"
[[member]]
controller = \"app\"
virtual = \"v1\"
bits = 8
";

/// Two virtual switches on one switch, with two links.
pub const LINKED: &str = "\
version = 1
[[switch]]
name = \"s1\"
dpid = \"0000000000000001\"
ports = [1, 2, 3, 4]
[[virtual]]
name = \"v1\"
dpid = \"00000000000000a1\"
ports = [\"1=s1:1\", \"2=s1:2\", \"8=link\", \"9=link\"]
expr = \"a\"
[[virtual]]
name = \"v2\"
dpid = \"00000000000000a2\"
ports = [\"1=s1:3\", \"2=s1:4\", \"8=link\", \"9=link\"]
expr = \"b\"
[[link]]
a = \"v1:9\"
b = \"v2:9\"
[[link]]
a = \"v1:8\"
b = \"v2:8\"
[[member]]
controller = \"a\"
virtual = \"v1\"
bits = 3
[[member]]
controller = \"b\"
virtual = \"v2\"
bits = 3
";

/// A virtual switch of two ports, which is all of a switch of four.
pub const HALF: &str = "\
version = 1
[[switch]]
name = \"s1\"
dpid = \"0000000000000001\"
ports = [1, 2, 3, 4]
[[virtual]]
name = \"v1\"
dpid = \"00000000000000a1\"
ports = [\"1=s1:1\", \"2=s1:2\"]
expr = \"app\"
[[member]]
controller = \"app\"
virtual = \"v1\"
bits = 8
";

//! Messages to members, and a line of the audit.
use cv_io::{Bytes, Text};
use member_replies::{config_reply, port_status, slow_line};
use std::alloc::Global;
use std::test::*;

/// Messages as Python's `struct` packs them by the layouts of the standard, in hexadecimal digits, and a
/// line of the audit.
const SENT: [&str; 3] = [
    "010c0040000000000200000000000000000c02000000000c70313200000000000000000000000000000000000000000100000000000000000000000000000000",
    "0108000c0000000700000080",
    "736c6f77207274407274",
];

/// A message or a line by its number.
fn sent(alloc: Global, number: usize) -> Result<Bytes, Fail> {
    match number {
        0 => Ok(port_status(alloc, 0, 12, false, true)?),
        1 => Ok(config_reply(alloc, 7, 0, 128)?),
        _ => {
            let name = Text::from_slice(alloc, b"rt")?;
            Ok(slow_line(alloc, &name, &name)?)
        }
    }
}

/// The digits of a message or a line.
fn digits(alloc: Global, number: usize) -> Result<String, Fail> {
    let bytes = sent(alloc, number)?;
    let digits = hex::encode(alloc, bytes.as_slice());
    drop(bytes);
    Ok(digits?)
}

#[test]
fn messages(rt: HostRuntime) -> Result<(), Fail> {
    for (number, want) in SENT.iter().enumerate() {
        assert_eq!(rt; digits(rt.alloc(), number)?.as_str(), *want);
    }
    Ok(())
}

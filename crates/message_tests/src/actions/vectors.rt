//! Actions of each kind as bytes, and bytes that are refused.

use of10_actions::{Action, ActionFault};

/// An action of each kind, as bytes in which what is free, padding and the low bits of a tos, is ones
/// on the left, and zeros on the right.
pub const KINDS: [([u8; 16], [u8; 16], Action); 12] = [
    (
        [0, 0, 0, 8, 0xff, 0xfd, 1, 2, 0, 0, 0, 0, 0, 0, 0, 0],
        [0, 0, 0, 8, 0xff, 0xfd, 1, 2, 0, 0, 0, 0, 0, 0, 0, 0],
        Action::Output {
            port: 0xfffd,
            max_len: 258,
        },
    ),
    (
        [0, 1, 0, 8, 15, 255, 255, 255, 0, 0, 0, 0, 0, 0, 0, 0],
        [0, 1, 0, 8, 15, 255, 0, 0, 0, 0, 0, 0, 0, 0, 0, 0],
        Action::SetVlanVid { vid: 4095 },
    ),
    (
        [0, 2, 0, 8, 7, 255, 255, 255, 0, 0, 0, 0, 0, 0, 0, 0],
        [0, 2, 0, 8, 7, 0, 0, 0, 0, 0, 0, 0, 0, 0, 0, 0],
        Action::SetVlanPcp { pcp: 7 },
    ),
    (
        [0, 3, 0, 8, 255, 255, 255, 255, 0, 0, 0, 0, 0, 0, 0, 0],
        [0, 3, 0, 8, 0, 0, 0, 0, 0, 0, 0, 0, 0, 0, 0, 0],
        Action::StripVlan,
    ),
    (
        [0, 4, 0, 16, 1, 2, 3, 4, 5, 6, 255, 255, 255, 255, 255, 255],
        [0, 4, 0, 16, 1, 2, 3, 4, 5, 6, 0, 0, 0, 0, 0, 0],
        Action::SetDlSrc {
            address: 0x0102_0304_0506,
        },
    ),
    (
        [0, 5, 0, 16, 6, 5, 4, 3, 2, 1, 255, 255, 255, 255, 255, 255],
        [0, 5, 0, 16, 6, 5, 4, 3, 2, 1, 0, 0, 0, 0, 0, 0],
        Action::SetDlDst {
            address: 0x0605_0403_0201,
        },
    ),
    (
        [0, 6, 0, 8, 10, 0, 0, 1, 0, 0, 0, 0, 0, 0, 0, 0],
        [0, 6, 0, 8, 10, 0, 0, 1, 0, 0, 0, 0, 0, 0, 0, 0],
        Action::SetNwSrc {
            address: 0x0a00_0001,
        },
    ),
    (
        [0, 7, 0, 8, 10, 0, 0, 2, 0, 0, 0, 0, 0, 0, 0, 0],
        [0, 7, 0, 8, 10, 0, 0, 2, 0, 0, 0, 0, 0, 0, 0, 0],
        Action::SetNwDst {
            address: 0x0a00_0002,
        },
    ),
    (
        [0, 8, 0, 8, 0xbb, 255, 255, 255, 0, 0, 0, 0, 0, 0, 0, 0],
        [0, 8, 0, 8, 0xb8, 0, 0, 0, 0, 0, 0, 0, 0, 0, 0, 0],
        Action::SetNwTos { tos: 0xb8 },
    ),
    (
        [0, 9, 0, 8, 0, 80, 255, 255, 0, 0, 0, 0, 0, 0, 0, 0],
        [0, 9, 0, 8, 0, 80, 0, 0, 0, 0, 0, 0, 0, 0, 0, 0],
        Action::SetTpSrc { port: 80 },
    ),
    (
        [0, 10, 0, 8, 31, 144, 255, 255, 0, 0, 0, 0, 0, 0, 0, 0],
        [0, 10, 0, 8, 31, 144, 0, 0, 0, 0, 0, 0, 0, 0, 0, 0],
        Action::SetTpDst { port: 8080 },
    ),
    (
        [0, 11, 0, 16, 0, 3, 255, 255, 255, 255, 255, 255, 0, 0, 1, 0],
        [0, 11, 0, 16, 0, 3, 0, 0, 0, 0, 0, 0, 0, 0, 1, 0],
        Action::Enqueue {
            port: 3,
            queue: 256,
        },
    ),
];

/// Faults, and actions that have them.
pub const FAULTS: [(&str, [u8; 8], ActionFault); 10] = [
    (
        "type 12",
        [0, 12, 0, 8, 0, 0, 0, 0],
        ActionFault::BadType { at: 0 },
    ),
    (
        "type 12, length 0",
        [0, 12, 0, 0, 0, 0, 0, 0],
        ActionFault::BadType { at: 0 },
    ),
    (
        "a vendor",
        [0xff, 0xff, 0, 8, 0, 0, 0, 1],
        ActionFault::BadVendor { at: 0 },
    ),
    (
        "a vendor, length 7",
        [0xff, 0xff, 0, 7, 0, 0, 0, 1],
        ActionFault::BadVendor { at: 0 },
    ),
    (
        "length 16",
        [0, 0, 0, 16, 0, 1, 0, 0],
        ActionFault::BadLen { at: 0 },
    ),
    (
        "length 0",
        [0, 3, 0, 0, 0, 0, 0, 0],
        ActionFault::BadLen { at: 0 },
    ),
    (
        "length 8",
        [0, 4, 0, 8, 0, 0, 0, 0],
        ActionFault::BadLen { at: 0 },
    ),
    (
        "vid 4096, length 9",
        [0, 1, 0, 9, 16, 0, 0, 0],
        ActionFault::BadLen { at: 0 },
    ),
    (
        "vid 4096",
        [0, 1, 0, 8, 16, 0, 0, 0],
        ActionFault::BadArgument { at: 0 },
    ),
    (
        "pcp 8",
        [0, 2, 0, 8, 8, 0, 0, 0],
        ActionFault::BadArgument { at: 0 },
    ),
];

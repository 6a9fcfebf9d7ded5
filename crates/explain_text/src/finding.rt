//! What there is to say of the way of a packet.
use explain_path::LeafTrace;
use of10_actions::Rewrite;

/// One thing to say. Switches, virtual switches and members are known by their numbers in the policy.
#[derive(Clone, Copy, PartialEq, Eq, Debug)]
pub enum Finding {
    /// The expression of a virtual switch is evaluated for the packet, which came by this port.
    Hop {
        v: u32,
        port: u16,
    },
    /// There a member is asked.
    Leaf {
        leaf: LeafTrace,
    },
    /// The packet leaves by a port of a physical switch, after this rewrite.
    Out {
        switch: u32,
        port: u16,
        rewrite: Rewrite,
    },
    /// A member is told of it, for this reason.
    Tell {
        member: u32,
        reason: u8,
    },
    /// The switch where it comes in uses the entry of this cookie and priority for it.
    Entry {
        switch: u32,
        cookie: u64,
        priority: u16,
    },
    /// The switch where it comes in is down.
    Down {
        switch: u32,
    },
}

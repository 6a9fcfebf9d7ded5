//! Why a switch uses an entry: the laws that tie the entries of switches to the traces of packets.
#![tactic(auto)]

ghost use Rattle.used_entries.specs.Traced.{BestEntriesAreTraced, UsedEntriesAreTraced};

/// Of the entries of a sound setting one is the best for each packet that comes in at an outside port, and
/// its leaves are those that the packet's trace uses, in order.
pub fn best_entries_are_traced()
    ensures { BestEntriesAreTraced }
{}

/// Where a switch has the entries of a sound setting, the one of the highest rank and the least cookie that
/// holds a packet is the only one that the switch may use for it, and its leaves are those of the trace.
pub fn used_entries_are_traced()
    ensures { UsedEntriesAreTraced }
{}

//! Ranks.
ghost use Rattle.std.specs.Prelude.{◌≡◌, ◌≤◌};
ghost use Rattle.member_table.specs.Tables.{rank_of as rank_of_message};

use of10_msgs::FlowMod;

/// The rank of the entry that a message describes: above every priority where its match is written
/// without a wildcard (section 3.4), else the priority.
pub fn rank_of(m: &FlowMod) -> u32
    ensures rank { result ≡ rank_of_message m.now }
    ensures most { result ≤ 65536 }
{
    of10_match::rank(of10_match::read(&m.m).exact, m.priority)
}

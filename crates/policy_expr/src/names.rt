// Names and members.
ghost use Rattle.std.specs.Prelude.{◌≡◌, map};
ghost use Rattle.policy_expr.specs.Members.{index_of, is_among, is_plain};

use crate::member::MemberName;
use cv_io::Text;

/// The number of the first member of this name, or 0.
pub fn index_of(members: &[MemberName], name: &[u8]) -> u32
    ensures { result ≡ index_of members.now name.now }
{
    for member in members {
        if member.name.as_bytes() == name {
            return member.index;
        }
    }
    0
}

/// Whether the first member of this name is plain.
pub fn is_plain(members: &[MemberName], name: &Text) -> bool
    ensures { result ≡ is_plain members.now name.now }
{
    for member in members {
        if member.name == *name {
            return member.plain;
        }
    }
    true
}

/// Whether a member has this name.
pub fn is_member(members: &[MemberName], name: &Text) -> bool
    ensures { result ≡ is_among (map (λ m. m.name) members.now) name.now }
{
    for member in members {
        if member.name == *name {
            return true;
        }
    }
    false
}

/// Whether the name is among the names.
pub fn is_named(names: &[Text], name: &Text) -> bool
    ensures { result ≡ is_among names.now name.now }
{
    for other in names {
        if *other == *name {
            return true;
        }
    }
    false
}

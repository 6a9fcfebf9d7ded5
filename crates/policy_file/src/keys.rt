//! The keys of a policy file.
ghost use Rattle.std.specs.Prelude.{◌≡◌, map};
ghost use Rattle.policy_file.specs.Keys.{kind_key, item_rows};
ghost use Rattle.policy_file.specs.Shown.{shown_row};

/// A form of the policy file.
#[derive(Clone, Copy, PartialEq, Eq, Debug)]
pub enum Version {
    /// A member's region is one box.
    One,
    /// A member's region is a list of boxes, and there may be a second proxy.
    Two,
}

/// What a policy file lists.
#[derive(Clone, Copy, PartialEq, Eq, Debug)]
pub enum ItemKind {
    Switch,
    Cable,
    Virtual,
    Link,
    Member,
}

/// The kinds of item, in the order in which they are looked through.
pub const ITEM_KINDS: [ItemKind; 5] = [
    ItemKind::Switch,
    ItemKind::Cable,
    ItemKind::Virtual,
    ItemKind::Link,
    ItemKind::Member,
];

impl ItemKind {
    /// The top key that lists the items.
    pub fn key(self) -> &'static str
        ensures { result.now ≡ kind_key self }
    {
        match self {
            ItemKind::Switch => "switch",
            ItemKind::Cable => "cable",
            ItemKind::Virtual => "virtual",
            ItemKind::Link => "link",
            ItemKind::Member => "member",
        }
    }

    /// The keys of an item.
    pub fn rows(self) -> &'static [KeyRow]
        ensures { map shown_row result.now ≡ item_rows self }
    {
        match self {
            ItemKind::Switch => &SWITCH_KEYS,
            ItemKind::Cable | ItemKind::Link => &PAIR_KEYS,
            ItemKind::Virtual => &VIRTUAL_KEYS,
            ItemKind::Member => &MEMBER_KEYS,
        }
    }
}

/// A key that may stand, whether it has to, and the one version in which it stands, if not in each.
#[derive(Clone, Copy, PartialEq, Eq, Debug)]
pub struct KeyRow {
    pub key: &'static str,
    pub needed: bool,
    pub only: Option<Version>,
}

/// The keys of the file itself, in the order of their bytes.
pub const TOP_KEYS: [KeyRow; 10] = [
    KeyRow {
        key: "cable",
        needed: false,
        only: None,
    },
    KeyRow {
        key: "hops",
        needed: false,
        only: None,
    },
    KeyRow {
        key: "link",
        needed: false,
        only: None,
    },
    KeyRow {
        key: "listen",
        needed: false,
        only: None,
    },
    KeyRow {
        key: "member",
        needed: false,
        only: None,
    },
    KeyRow {
        key: "rounds",
        needed: false,
        only: None,
    },
    KeyRow {
        key: "standby",
        needed: false,
        only: Some(Version::Two),
    },
    KeyRow {
        key: "switch",
        needed: false,
        only: None,
    },
    KeyRow {
        key: "version",
        needed: true,
        only: None,
    },
    KeyRow {
        key: "virtual",
        needed: false,
        only: None,
    },
];

const SWITCH_KEYS: [KeyRow; 3] = [
    KeyRow {
        key: "dpid",
        needed: true,
        only: None,
    },
    KeyRow {
        key: "name",
        needed: true,
        only: None,
    },
    KeyRow {
        key: "ports",
        needed: true,
        only: None,
    },
];

const PAIR_KEYS: [KeyRow; 2] = [
    KeyRow {
        key: "a",
        needed: true,
        only: None,
    },
    KeyRow {
        key: "b",
        needed: true,
        only: None,
    },
];

const VIRTUAL_KEYS: [KeyRow; 4] = [
    KeyRow {
        key: "dpid",
        needed: true,
        only: None,
    },
    KeyRow {
        key: "expr",
        needed: true,
        only: None,
    },
    KeyRow {
        key: "name",
        needed: true,
        only: None,
    },
    KeyRow {
        key: "ports",
        needed: true,
        only: None,
    },
];

const MEMBER_KEYS: [KeyRow; 12] = [
    KeyRow {
        key: "actions",
        needed: false,
        only: None,
    },
    KeyRow {
        key: "address",
        needed: false,
        only: None,
    },
    KeyRow {
        key: "bits",
        needed: true,
        only: None,
    },
    KeyRow {
        key: "controller",
        needed: true,
        only: None,
    },
    KeyRow {
        key: "entries",
        needed: false,
        only: None,
    },
    KeyRow {
        key: "match",
        needed: false,
        only: None,
    },
    KeyRow {
        key: "misses",
        needed: false,
        only: None,
    },
    KeyRow {
        key: "packet_out",
        needed: false,
        only: None,
    },
    KeyRow {
        key: "ports",
        needed: false,
        only: None,
    },
    KeyRow {
        key: "region",
        needed: false,
        only: Some(Version::One),
    },
    KeyRow {
        key: "regions",
        needed: false,
        only: Some(Version::Two),
    },
    KeyRow {
        key: "virtual",
        needed: true,
        only: None,
    },
];

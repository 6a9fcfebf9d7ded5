//! Matches before and after a rewrite.
use of10_actions::Rewrite;
use of10_match::{Match, Prefix};
use pull_back::{image, pull};
use std::process::Abort;

/// Packets go to the server at 2.0.0.1.
fn to_server() -> Rewrite {
    Rewrite {
        nw_dst: Some(0x0200_0001),
        ..Rewrite::new()
    }
}

/// Packets come from port 80.
fn from_web() -> Rewrite {
    Rewrite {
        tp_src: Some(80),
        ..Rewrite::new()
    }
}

fn of_type(dl_type: u16) -> Match {
    Match {
        dl_type: Some(dl_type),
        ..Match::everything()
    }
}

fn of_protocol(nw_proto: u8) -> Match {
    Match {
        nw_proto: Some(nw_proto),
        ..of_type(0x0800)
    }
}

const NET_10: Prefix = Prefix {
    addr: 0x0a00_0000,
    len: 8,
};

const NET_2: Prefix = Prefix {
    addr: 0x0200_0000,
    len: 24,
};

const NET_3: Prefix = Prefix {
    addr: 0x0300_0000,
    len: 8,
};

/// The pull of a match through a rewrite.
fn pulls_to(rt: &impl Abort, rewrite: &Rewrite, m: &Match, want: Option<Match>) {
    assert_eq!(rt; pull(rewrite, m), want);
}

#[test]
fn worked_pulls_of_addresses(rt: HostRuntime) {
    let arp = Match {
        nw_dst: Some(NET_10),
        ..of_type(0x0806)
    };
    let to_net_2 = Match {
        nw_dst: Some(NET_2),
        ..of_type(0x0800)
    };
    let to_net_3 = Match {
        nw_dst: Some(NET_3),
        ..of_type(0x0800)
    };
    // ARP stays as it is; a net with the address is no longer asked for; another has no pull.
    pulls_to(&rt, &to_server(), &arp, Some(arp));
    pulls_to(&rt, &to_server(), &to_net_2, Some(of_type(0x0800)));
    pulls_to(&rt, &to_server(), &to_net_3, None);
}

/// Ports are set in TCP and UDP, and not in ICMP.
#[test]
fn worked_pulls_of_ports(rt: HostRuntime) {
    let web = Match {
        tp_src: Some(80),
        ..of_protocol(6)
    };
    let echo = Match {
        tp_src: Some(8),
        ..of_protocol(1)
    };
    pulls_to(&rt, &from_web(), &web, Some(of_protocol(6)));
    pulls_to(&rt, &from_web(), &echo, Some(echo));
}

/// The image of a match under the rewrite to the server.
fn goes_to_server(rt: &impl Abort, m: &Match, want: Match) {
    assert_eq!(rt; image(&to_server(), m), want);
}

#[test]
fn worked_images(rt: HostRuntime) {
    let arp = Match {
        nw_dst: Some(NET_10),
        ..of_type(0x0806)
    };
    let to_net_3 = Match {
        nw_dst: Some(NET_3),
        ..of_type(0x0800)
    };
    let at_server = Match {
        nw_dst: Some(Prefix::from(0x0200_0001)),
        ..of_type(0x0800)
    };
    // ARP stays as it is; IPv4 packets go to the server; of what has no type nothing more is known.
    goes_to_server(&rt, &arp, arp);
    goes_to_server(&rt, &to_net_3, at_server);
    goes_to_server(&rt, &Match::everything(), Match::everything());
}

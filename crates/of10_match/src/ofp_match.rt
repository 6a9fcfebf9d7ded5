//! The wire form of a match, `struct ofp_match`.
ghost use Rattle.std.specs.Prelude.{◌≡◌, ◌<◌, ◌^◌};
ghost use Rattle.of10_match.specs.OfpMatchFields.{bytes_of, fields_in, link_bytes, network_bytes};

use byteorder::{BigEndian, ByteOrder};

/// The fields of an `ofp_match` as they are written (section 5.2.3). Ethernet addresses take six
/// bytes each.
#[derive(Clone, Copy, PartialEq, Eq, Debug)]
pub struct OfpMatch {
    pub wildcards: u32,
    pub in_port: u16,
    pub dl_src: u64,
    pub dl_dst: u64,
    pub dl_vlan: u16,
    pub dl_vlan_pcp: u8,
    pub dl_type: u16,
    pub nw_tos: u8,
    pub nw_proto: u8,
    pub nw_src: u32,
    pub nw_dst: u32,
    pub tp_src: u16,
    pub tp_dst: u16,
}

/// The places of the wildcard bits, of which a set one leaves its field out.
pub mod wildcard {
    pub const IN_PORT: u32 = 0;

    pub const DL_VLAN: u32 = 1;

    pub const DL_SRC: u32 = 2;

    pub const DL_DST: u32 = 3;

    pub const DL_TYPE: u32 = 4;

    pub const NW_PROTO: u32 = 5;

    pub const TP_SRC: u32 = 6;

    pub const TP_DST: u32 = 7;

    /// Six bits from here count the low bits of nw_src that are left out, 32 and more for all.
    pub const NW_SRC: u32 = 8;

    /// The same of nw_dst.
    pub const NW_DST: u32 = 14;

    pub const DL_VLAN_PCP: u32 = 20;

    pub const NW_TOS: u32 = 21;

    /// All 22 bits.
    pub const ALL: u32 = (1 << 22) - 1;
}

impl OfpMatch {
    /// The fields that stand in 40 bytes, whatever their padding.
    pub fn from_bytes(bytes: &[u8; 40]) -> OfpMatch
        ensures value { result ≡ fields_in bytes.now }
        ensures dl_src { result.dl_src < 2 ^ 48 }
        ensures dl_dst { result.dl_dst < 2 ^ 48 }
    {
        OfpMatch {
            wildcards: BigEndian::read_u32(bytes),
            in_port: BigEndian::read_u16(&bytes[4..]),
            dl_src: BigEndian::read_u48(&bytes[6..]),
            dl_dst: BigEndian::read_u48(&bytes[12..]),
            dl_vlan: BigEndian::read_u16(&bytes[18..]),
            dl_vlan_pcp: bytes[20],
            dl_type: BigEndian::read_u16(&bytes[22..]),
            nw_tos: bytes[24],
            nw_proto: bytes[25],
            nw_src: BigEndian::read_u32(&bytes[28..]),
            nw_dst: BigEndian::read_u32(&bytes[32..]),
            tp_src: BigEndian::read_u16(&bytes[36..]),
            tp_dst: BigEndian::read_u16(&bytes[38..]),
        }
    }

    /// The 40 bytes of the fields, with zero padding.
    pub fn to_bytes(&self) -> [u8; 40]
        requires dl_src { self.now.dl_src < 2 ^ 48 }
        requires dl_dst { self.now.dl_dst < 2 ^ 48 }
        ensures { result ≡ bytes_of self.now }
    {
        let mut bytes = [0; 40];
        bytes[..22].copy_from_slice(&self.link_bytes());
        bytes[22..].copy_from_slice(&self.network_bytes());
        bytes
    }

    fn link_bytes(&self) -> [u8; 22]
        requires dl_src { self.now.dl_src < 2 ^ 48 }
        requires dl_dst { self.now.dl_dst < 2 ^ 48 }
        ensures { result ≡ link_bytes self.now }
    {
        let mut bytes = [0; 22];
        BigEndian::write_u32(&mut bytes, self.wildcards);
        BigEndian::write_u16(&mut bytes[4..], self.in_port);
        BigEndian::write_uint(&mut bytes[6..], self.dl_src, 6);
        BigEndian::write_uint(&mut bytes[12..], self.dl_dst, 6);
        BigEndian::write_u16(&mut bytes[18..], self.dl_vlan);
        bytes[20] = self.dl_vlan_pcp;
        bytes
    }

    fn network_bytes(&self) -> [u8; 18]
        ensures { result ≡ network_bytes self.now }
    {
        let mut bytes = [0; 18];
        BigEndian::write_u16(&mut bytes, self.dl_type);
        bytes[2] = self.nw_tos;
        bytes[3] = self.nw_proto;
        BigEndian::write_u32(&mut bytes[6..], self.nw_src);
        BigEndian::write_u32(&mut bytes[10..], self.nw_dst);
        BigEndian::write_u16(&mut bytes[14..], self.tp_src);
        BigEndian::write_u16(&mut bytes[16..], self.tp_dst);
        bytes
    }
}

//! Frames after a rewrite.
ghost use Rattle.std.specs.Prelude.{◌≡◌, ℕ, ◌≤◌, ◌<◌, ◌+◌, ◌^◌, length, slice_index, IfOk, IfSome};
ghost use Rattle.of10_actions.specs.Rewriting.{apply};
ghost use Rattle.pkt_bytes.specs.declared.ipv4.Ipv4.{Ipv4 as PacketPlaces};
ghost use Rattle.pkt_bytes.specs.Checksums.{IsRight, words_sum};
ghost use Rattle.pkt_bytes.specs.Headers.{header_in};
ghost use Rattle.pkt_bytes.specs.Ipv4.{header_words, ipv4_of};
ghost use Rattle.pkt_bytes.specs.Rewritten as spec;
ghost use Rattle.pkt_bytes.specs.Touched.{AreWhole, IsApart, IsRewrite};

use crate::checksum::{change, mended};
use crate::ipv4::Ipv4;
use crate::link::ETHERNET;
use crate::numbers::{put_u8, put_u16, put_u32, put_u48, u16_at};
use cv_io::{Bytes, List, Memory};
use of10_actions::Rewrite;
use of10_match::{TCP, UDP};
use std::alloc::Global;

/// A checksum and its place.
#[derive(Clone, Copy)]
struct Checksum {
    place: usize,
    value: u16,
}

/// The bytes of a frame after a rewrite: the fields that it sets where their layer is whole, and the
/// checksums of IPv4, TCP and UDP mended for them. The type of service keeps its two low bits. Of a
/// fragment the ports stay, and so does a checksum of UDP that is 0, which says that there is none.
pub fn rewrite(alloc: Global, bytes: &[u8], r: &Rewrite) -> Result<Bytes, Memory>
    ensures frame { IfOk result (λ frame. frame ≡ spec.rewritten r.now bytes.now) }
    ensures length { IfOk result (λ frame. length frame ≡ length bytes.now) }
    ensures header { (in_port : ℕ) → AreWhole r.now bytes.now
        → IfOk result (λ frame. header_in in_port frame ≡ apply r.now (header_in in_port bytes.now)) }
    ensures apart { (k : ℕ) → IsApart r.now bytes.now k
        → IfOk result (λ frame. slice_index frame k ≡ slice_index bytes.now k) }
    ensures right { (ip : PacketPlaces) → ipv4_of bytes.now ≡ Some ip
        → IsRight (words_sum ip.place (header_words ip) bytes.now)
        → IfOk result (λ frame. IsRight (words_sum ip.place (header_words ip) frame)) }
{
    check_ranges(r);
    let mut frame = Vec::from_slice(alloc, bytes)?;
    rewrite_in_place(&mut frame, r);
    Ok(List::from_vec(frame))
}

/// The values of a rewrite are in the ranges of their fields. It does nothing; its clause is what the
/// laws of frames ask of a rewrite.
fn check_ranges(r: &Rewrite)
    ensures { IsRewrite r.now }
{
    let _nw_src = r.nw_src.unwrap_or(0);
    let _nw_dst = r.nw_dst.unwrap_or(0);
    let _nw_tos = r.nw_tos.unwrap_or(0);
    let _tp_src = r.tp_src.unwrap_or(0);
    let _tp_dst = r.tp_dst.unwrap_or(0);
}

#[tactic(auto, unfolding(crate::specs::Rewritten::rewritten))]
fn rewrite_in_place(bytes: &mut [u8], r: &Rewrite)
    ensures { bytes.new ≡ spec.rewritten r.now bytes.old }
{
    if bytes.len() < ETHERNET {
        return;
    }
    let ip = Ipv4::of(bytes);
    put_dl(bytes, r);
    if let Some(ip) = ip {
        put_ip(ip, bytes, r);
    }
}

#[tactic(auto, unfolding(crate::specs::Rewritten::with_dl))]
fn put_dl(bytes: &mut [u8], r: &Rewrite)
    requires { 14 ≤ length bytes.old }
    ensures { bytes.new ≡ spec.with_dl r.now bytes.old }
{
    put_u48(bytes, 0, r.dl_dst);
    put_u48(bytes, 6, r.dl_src);
}

/// Sets the fields of IPv4 and of its transport, with both checksums.
#[tactic(auto, unfolding(crate::specs::Rewritten::with_ip))]
fn put_ip(ip: Ipv4, bytes: &mut [u8], r: &Rewrite)
    requires header { ip.place + 20 ≤ ip.transport }
    requires near { ip.transport < 128 }
    requires there { ip.transport ≤ length bytes.old }
    ensures { bytes.new ≡ spec.with_ip ip r.now bytes.old }
{
    let header = header_checksum(ip, bytes, r);
    let transport = new_checksum(ip, bytes, r);
    put_nw(ip, bytes, r);
    put_tp(ip, bytes, r);
    put_u16(bytes, ip.place + 10, Some(header));
    put_checksum(transport, bytes);
}

/// Sets the type of service and the addresses.
#[tactic(auto, unfolding(crate::specs::Rewritten::with_nw))]
fn put_nw(ip: Ipv4, bytes: &mut [u8], r: &Rewrite)
    requires header { ip.place + 20 ≤ length bytes.old }
    ensures { bytes.new ≡ spec.with_nw ip r.now bytes.old }
{
    let tos = tos_byte(r, bytes[ip.place + 1]);
    put_u8(bytes, ip.place + 1, tos);
    put_u32(bytes, ip.place + 12, r.nw_src);
    put_u32(bytes, ip.place + 16, r.nw_dst);
}

/// Sets the ports where they are there.
#[tactic(auto, unfolding(crate::specs::Rewritten::with_tp))]
fn put_tp(ip: Ipv4, bytes: &mut [u8], r: &Rewrite)
    requires { ip.transport < 128 }
    ensures { bytes.new ≡ spec.with_tp ip r.now bytes.old }
{
    if ip.has_ports(bytes) {
        put_u16(bytes, ip.transport, r.tp_src);
        put_u16(bytes, ip.transport + 2, r.tp_dst);
    }
}

fn put_checksum(checksum: Option<Checksum>, bytes: &mut [u8])
    requires { IfSome checksum (λ c. c.place + 2 ≤ length bytes.old) }
    ensures { bytes.new ≡ spec.with_checksum checksum bytes.old }
{
    if let Some(checksum) = checksum {
        put_u16(bytes, checksum.place, Some(checksum.value));
    }
}

/// The byte of the type of service, whose two low bits stay.
fn tos_byte(r: &Rewrite, old: u8) -> Option<u8>
    ensures { result ≡ spec.tos_byte r.now.nw_tos old }
{
    match r.nw_tos {
        Some(tos) => Some(tos + old % 4),
        None => None,
    }
}

/// What a word at a place adds to a checksum where it is replaced.
fn word_change(place: usize, value: Option<u16>, bytes: &[u8]) -> u32
    requires { place + 2 ≤ length bytes.now }
    ensures value { result ≡ spec.word_change place value bytes.now }
    ensures small { result < 2 ^ 17 }
{
    match value {
        Some(value) => change(u16_at(bytes, place), value),
        None => 0,
    }
}

/// What an address at a place adds, which is two words.
#[tactic(auto, unfolding(crate::specs::Rewritten::address_change))]
fn address_change(place: usize, address: Option<u32>, bytes: &[u8]) -> u32
    requires { place + 4 ≤ length bytes.now }
    ensures value { result ≡ spec.address_change place address bytes.now }
    ensures small { result < 2 ^ 18 }
{
    match address {
        Some(address) => {
            let upper = (address >> 16) as u16;
            let lower = (address & 0xffff) as u16;
            word_change(place, Some(upper), bytes) + word_change(place + 2, Some(lower), bytes)
        }
        None => 0,
    }
}

/// What the addresses add.
#[tactic(auto, unfolding(crate::specs::Rewritten::nw_change))]
fn nw_change(ip: Ipv4, bytes: &[u8], r: &Rewrite) -> u32
    requires { ip.place + 20 ≤ length bytes.now }
    ensures value { result ≡ spec.nw_change ip r.now bytes.now }
    ensures small { result < 2 ^ 19 }
{
    address_change(ip.place + 12, r.nw_src, bytes) + address_change(ip.place + 16, r.nw_dst, bytes)
}

/// What the type of service adds, which is the lower byte of its word.
#[tactic(auto, unfolding(crate::specs::Rewritten::tos_change))]
fn tos_change(ip: Ipv4, bytes: &[u8], r: &Rewrite) -> u32
    requires { ip.place + 20 ≤ length bytes.now }
    ensures value { result ≡ spec.tos_change ip r.now bytes.now }
    ensures small { result < 2 ^ 17 }
{
    match tos_byte(r, bytes[ip.place + 1]) {
        Some(tos) => {
            let word = u16::from(bytes[ip.place]) * 256 + u16::from(tos);
            word_change(ip.place, Some(word), bytes)
        }
        None => 0,
    }
}

/// What the ports add where they are there.
#[tactic(auto, unfolding(crate::specs::Rewritten::tp_change))]
fn tp_change(ip: Ipv4, bytes: &[u8], r: &Rewrite) -> u32
    requires { ip.transport < 128 }
    ensures value { result ≡ spec.tp_change ip r.now bytes.now }
    ensures small { result < 2 ^ 18 }
{
    if ip.has_ports(bytes) {
        word_change(ip.transport, r.tp_src, bytes) + word_change(ip.transport + 2, r.tp_dst, bytes)
    } else {
        0
    }
}

/// The checksum of the header after the rewrite.
#[tactic(auto, unfolding(crate::specs::Rewritten::header_checksum))]
fn header_checksum(ip: Ipv4, bytes: &[u8], r: &Rewrite) -> u16
    requires { ip.place + 20 ≤ length bytes.now }
    ensures { result ≡ spec.header_checksum ip r.now bytes.now }
{
    let changes = tos_change(ip, bytes, r) + nw_change(ip, bytes, r);
    mended(u16_at(bytes, ip.place + 10), changes)
}

/// The place of the checksum of TCP or UDP, if it is there.
#[tactic(auto, unfolding(crate::specs::Rewritten::checksum_place))]
fn checksum_place(ip: Ipv4, bytes: &[u8]) -> Option<usize>
    requires { ip.transport < 128 }
    ensures value { result ≡ spec.checksum_place ip bytes.now }
    ensures there { IfSome result (λ place. place + 2 ≤ length bytes.now) }
{
    if ip.fragment.is_start() && (ip.protocol == TCP && ip.transport + 18 <= bytes.len()) {
        Some(ip.transport + 16)
    } else if ip.fragment.is_start() && (ip.protocol == UDP && ip.transport + 8 <= bytes.len()) {
        Some(ip.transport + 6)
    } else {
        None
    }
}

/// The checksum of TCP or UDP at a place after the rewrite.
#[tactic(auto, unfolding(crate::specs::Rewritten::transport_checksum))]
fn transport_checksum(place: usize, ip: Ipv4, bytes: &[u8], r: &Rewrite) -> u16
    requires header { ip.place + 20 ≤ ip.transport }
    requires near { ip.transport < 128 }
    requires there { ip.transport ≤ length bytes.now }
    requires place { place + 2 ≤ length bytes.now }
    ensures { result ≡ spec.transport_checksum place ip r.now bytes.now }
{
    let old = u16_at(bytes, place);
    let changes = nw_change(ip, bytes, r) + tp_change(ip, bytes, r);
    if ip.protocol == UDP {
        udp_mended(old, changes)
    } else {
        mended(old, changes)
    }
}

/// The same of UDP, where 0 says that there is no checksum and 0xffff stands for 0.
fn udp_mended(old: u16, changes: u32) -> u16
    requires { changes < 2 ^ 31 }
    ensures { result ≡ spec.udp_mended old changes }
{
    if old == 0 {
        return 0;
    }
    let new = mended(old, changes);
    if new == 0 { 0xffff } else { new }
}

/// The checksum of TCP or UDP after the rewrite, if it is there.
#[tactic(auto, unfolding(crate::specs::Rewritten::new_checksum))]
fn new_checksum(ip: Ipv4, bytes: &[u8], r: &Rewrite) -> Option<Checksum>
    requires header { ip.place + 20 ≤ ip.transport }
    requires near { ip.transport < 128 }
    requires there { ip.transport ≤ length bytes.now }
    ensures value { result ≡ spec.new_checksum ip r.now bytes.now }
    ensures there { IfSome result (λ c. c.place + 2 ≤ length bytes.now) }
{
    match checksum_place(ip, bytes) {
        Some(place) => Some(Checksum {
            place,
            value: transport_checksum(place, ip, bytes, r),
        }),
        None => None,
    }
}

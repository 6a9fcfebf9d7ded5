//! The messages of an opening.
ghost use Rattle.std.specs.Prelude.{◌≡◌, ◌≤◌, ◌<◌, length, OnOk, IfErr, IfSome};
ghost use Rattle.sessions.specs.Greetings.{dpid_of, echo, is_echo, is_features, is_hello, matches_arp, place_of};
ghost use Rattle.sessions.specs.InsideReading.{IsSendEnd};
ghost use Rattle.sessions.specs.Streams.{Appends};

use crate::ends::OpenEnd;
use crate::writing::write_all;
use byteorder::{BigEndian, ByteOrder};
use cv_io::Bytes;
use of10_frames::VERSION;
use outside::{Failed, Sink};

/// A HELLO of version 1, of transaction id 0.
pub(crate) const HELLO: [u8; 8] = [1, 0, 0, 8, 0, 0, 0, 0];

/// A HELLO and a FEATURES_REQUEST, both of transaction id 0.
pub(crate) const GREETING: [u8; 16] = [1, 0, 0, 8, 0, 0, 0, 0, 1, 5, 0, 8, 0, 0, 0, 0];

const HELLO_TYPE: u8 = 0;

const ECHO_REQUEST: u8 = 2;

const ECHO_REPLY: u8 = 3;

const FEATURES_REPLY: u8 = 6;

/// How long a FEATURES_REPLY is at least.
const FEATURES: usize = 32;

/// Whether a frame is a HELLO. Later versions have the same one.
pub(crate) fn is_hello(frame: &[u8]) -> bool
    requires { 8 ≤ length frame.now }
    ensures { result ≡ is_hello frame.now }
{
    frame[0] >= VERSION && frame[1] == HELLO_TYPE
}

/// Whether a frame is a FEATURES_REPLY with its fixed part.
pub(crate) fn is_features(frame: &[u8]) -> bool
    requires { 8 ≤ length frame.now }
    ensures { result ≡ is_features frame.now }
{
    frame[0] == VERSION && frame[1] == FEATURES_REPLY && frame.len() >= FEATURES
}

fn is_echo(frame: &[u8]) -> bool
    requires { 8 ≤ length frame.now }
    ensures { result ≡ is_echo frame.now }
{
    frame[0] == VERSION && frame[1] == ECHO_REQUEST
}

/// The datapath id that a FEATURES_REPLY tells.
pub(crate) fn dpid_of(reply: &[u8]) -> u64
    requires { 32 ≤ length reply.now }
    ensures { result ≡ dpid_of reply.now }
{
    BigEndian::read_u64(&reply[8..])
}

/// Whether a FEATURES_REPLY tells the capability to match ARP addresses.
pub(crate) fn matches_arp(reply: &[u8]) -> bool
    requires { 32 ≤ length reply.now }
    ensures { result ≡ matches_arp reply.now }
{
    reply[27] >= 0x80
}

/// The place of the first datapath id that is this one.
pub(crate) fn place_of(dpids: &[u64], dpid: u64) -> Option<usize>
    ensures place { result ≡ place_of dpid dpids.now }
    ensures within { IfSome result (λ place. place < length dpids.now) }
{
    dpids.iter().position(|d| *d == dpid)
}

/// Answers a frame that is an ECHO_REQUEST, and no other.
pub(crate) fn answer<K: Sink>(sink: &mut K, mut frame: Bytes) -> Result<(), OpenEnd>
    requires { 8 ≤ length frame }
    ensures written { OnOk result (Appends (K.held sink.old) (K.held sink.new) (echo frame)) }
    ensures quiet { OnOk result ((K.faults sink.new ≡ K.faults sink.old) × (K.wants sink.new ≡ K.wants sink.old)) }
    ensures end { IfErr result (IsSendEnd (K.held sink.old) (K.held sink.new) (echo frame)
        (K.faults sink.old) (K.faults sink.new) (K.wants sink.old) (K.wants sink.new) (K.is_reliable sink.old)) }
    ensures reliable { K.is_reliable sink.new ≡ K.is_reliable sink.old }
{
    if !is_echo(frame.as_slice()) {
        return Ok(());
    }
    frame.set(1, ECHO_REPLY);
    send(sink, frame.as_slice())
}

/// Writes all of the bytes.
pub(crate) fn send<K: Sink>(sink: &mut K, bytes: &[u8]) -> Result<(), OpenEnd>
    ensures written { OnOk result (Appends (K.held sink.old) (K.held sink.new) bytes.now) }
    ensures quiet { OnOk result ((K.faults sink.new ≡ K.faults sink.old) × (K.wants sink.new ≡ K.wants sink.old)) }
    ensures end { IfErr result (IsSendEnd (K.held sink.old) (K.held sink.new) bytes.now
        (K.faults sink.old) (K.faults sink.new) (K.wants sink.old) (K.wants sink.new) (K.is_reliable sink.old)) }
    ensures reliable { K.is_reliable sink.new ≡ K.is_reliable sink.old }
{
    match write_all(sink, bytes) {
        Ok(()) => Ok(()),
        Err(Failed) => Err(OpenEnd::WriteFault),
    }
}

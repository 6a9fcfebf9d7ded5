//! Connections in memory.
ghost use Rattle.std.specs.Prelude.{◌≡◌, ◌≤◌, ◌↔◌, ◌⊎◌, ℕ, true, Option, Some, [], IfOk, IsOk, IsErr, OnOk, OnErr};
ghost use Rattle.std.specs.Prelude.{IfSome, IsNone, IsTrue, option_copied};
ghost use Rattle.outside.specs.Outside.{Rose, is_listed, lists_none, next_count};
ghost use Rattle.outside.specs.Connections.{Gives};
ghost use Rattle.outside.specs.InMemory.{LinksOf, DialOf, connections, end_of, fails_of, inputs_of};
ghost use Rattle.outside.specs.declared.links.Endpoint.{Endpoint};

use crate::calls::{Calls, Failed};
use crate::links::{Dial, Endpoint, Links};
use crate::sink::MemSink;
use crate::source::MemSource;
use cv_io::{Bytes, Duplicate, List, Memory};
use std::alloc::Global;
use std::marker::Model;

/// The connections of an endpoint, one for each item of inputs, and which calls of its dial are to
/// fail.
#[derive(Drop, Debug)]
pub struct MemEnd {
    pub end: Endpoint,
    pub inputs: List<Bytes>,
    pub fails: List<u64>,
}

/// Connections in memory, each a source over bytes and an empty sink, of which no calls are to fail.
#[derive(Drop, Debug)]
pub struct MemDial {
    inputs: List<Bytes>,
    calls: Calls,
    alloc: Global,
}

impl Model for MemDial {
    ghost use Rattle.outside.specs.InMemory.{DialOf};

    ghost Value = { DialOf };

    ghost view = { λ d. record {
      inputs = d.inputs;
      fails = d.calls.fails;
      made = d.calls.made;
      faults = d.calls.faults;
    } };
}

impl Dial for MemDial {
    type In = MemSource;

    type Out = MemSink;

    ghost left = { λ d. Some (connections d.inputs) };

    ghost faults = { λ d. d.faults };

    ghost is_reliable = { λ d. lists_none d.fails };

    fn next(&mut self) -> Result<Option<(MemSource, MemSink)>, Failed>
        ensures given { IfOk result (λ next. IfSome next
            (λ link. Gives (Some (connections self.old.inputs)) (Some (connections self.new.inputs))
            (Some link.0.left) (lists_none link.0.fails) (Some link.1.held) (lists_none link.1.fails))) }
        ensures none { IfOk result (λ next. IsNone next ↔ (connections self.old.inputs ≡ [])) }
        ensures over { IfOk result (λ next. IsNone next → self.new.inputs ≡ self.old.inputs) }
        ensures kept { OnErr result (self.new.inputs ≡ self.old.inputs) }
        ensures quiet { OnOk result (self.new.faults ≡ self.old.faults) }
        ensures fault { OnErr result (Rose self.old.faults self.new.faults) }
        ensures never_falls { self.old.faults ≤ self.new.faults }
        ensures reliable { self.new.fails ≡ self.old.fails }
        ensures dials { lists_none self.old.fails ≡ true → IsOk result }
        ensures listed { IsTrue (is_listed self.old.fails (next_count self.old.made)) → IsErr result }
        ensures unlisted { OnErr result (IsTrue (is_listed self.old.fails (next_count self.old.made))) }
        ensures made { self.new.made ≡ next_count self.old.made }
    {
        if self.calls.count() {
            return Err(Failed);
        }
        if self.inputs.is_empty() {
            return Ok(None);
        }
        let source = MemSource::new(self.inputs.remove(0), List::new(self.alloc));
        let sink = MemSink::new(Bytes::new(self.alloc), List::new(self.alloc));
        Ok(Some((source, sink)))
    }
}

/// Links in memory, of which listed calls fail, and those that find no memory, which are counted
/// beside.
#[derive(Drop, Debug)]
pub struct MemLinks {
    ends: List<MemEnd>,
    calls: Calls,
    wants: u64,
    alloc: Global,
}

impl Model for MemLinks {
    ghost use Rattle.outside.specs.InMemory.{LinksOf};

    ghost Value = { LinksOf };

    ghost view = { λ l. record {
      ends = l.ends;
      fails = l.calls.fails;
      made = l.calls.made;
      faults = l.calls.faults;
      wants = l.wants;
    } };
}

impl MemLinks {
    /// Links of these endpoints; of two items with one endpoint the first counts, and an endpoint
    /// without one has no connection. `fails` lists the numbers of the calls that are to fail, from 1.
    pub fn new(alloc: Global, ends: List<MemEnd>, fails: List<u64>) -> Self
        ensures { result ≡ record { ends = ends; fails = fails; made = 0; faults = 0; wants = 0 } }
    {
        MemLinks {
            ends,
            calls: Calls::new(fails),
            wants: 0,
            alloc,
        }
    }
}

/// The first item of an endpoint.
fn find<'a>(ends: &'a [MemEnd], end: &Endpoint) -> Option<&'a MemEnd>
    ensures { option_copied result ≡ end_of ends.now end.now }
{
    for item in ends {
        if item.end.is_same(end) {
            return Some(item);
        }
    }
    None
}

/// The dial of an endpoint.
fn made(alloc: Global, ends: &[MemEnd], end: &Endpoint) -> Result<MemDial, Memory>
    ensures { IfOk result
        (λ dial. dial ≡ record {
          inputs = inputs_of (end_of ends.now end.now);
          fails = fails_of (end_of ends.now end.now);
          made = 0;
          faults = 0;
        }) }
{
    let (inputs, fails) = match find(ends, end) {
        Some(item) => (item.inputs.copy()?, item.fails.copy()?),
        None => (List::new(alloc), List::new(alloc)),
    };
    Ok(MemDial {
        inputs,
        calls: Calls::new(fails),
        alloc,
    })
}

impl Links for MemLinks {
    type Dial = MemDial;

    ghost told = { λ l end. Some (connections (inputs_of (end_of l.ends end))) };

    ghost is_reliable = { λ l end. lists_none (fails_of (end_of l.ends end)) };

    ghost faults = { λ l. l.faults };

    fn dial(&mut self, end: &Endpoint) -> Result<MemDial, Failed>
        ensures dial { IfOk result
            (λ dial. dial ≡ record {
              inputs = inputs_of (end_of self.old.ends end.now);
              fails = fails_of (end_of self.old.ends end.now);
              made = 0;
              faults = 0;
            }) }
        ensures same { (self.new.ends ≡ self.old.ends) × (self.new.fails ≡ self.old.fails) }
        ensures quiet { OnOk result (self.new.faults ≡ self.old.faults) }
        ensures fault { OnErr result (Rose self.old.faults self.new.faults) }
        ensures never_falls { self.old.faults ≤ self.new.faults }
        ensures listed { IsTrue (is_listed self.old.fails (next_count self.old.made)) → IsErr result }
        ensures unlisted { OnErr result (IsTrue (is_listed self.old.fails (next_count self.old.made))
            ⊎ Rose self.old.wants self.new.wants) }
        ensures sated { OnOk result (self.new.wants ≡ self.old.wants) }
        ensures made { self.new.made ≡ next_count self.old.made }
    {
        if self.calls.count() {
            return Err(Failed);
        }
        match made(self.alloc, self.ends.as_slice(), end) {
            Ok(dial) => Ok(dial),
            Err(Memory) => {
                self.calls.fault();
                self.wants = self.wants.saturating_add(1);
                Err(Failed)
            }
        }
    }
}

//! The answers that are waited for, those of one switch with numbers in a row together.
ghost use Rattle.std.specs.Prelude.{◌≡◌, ◌≤◌, ◌-◌, ◌==◌, ◌∷◌, ◌++◌, [], IfOk, IsTrue, OnErr, OnOk, false};
ghost use Rattle.std.specs.Prelude.{filter, length};
ghost use Rattle.std.specs.Prelude.{map, not, suc};
ghost use Rattle.std.specs.List.{AllByRecursion, list_any};
ghost use Rattle.waitings.specs.InsideSpans.{IsSpan, all_spelled, has_in, is_next, row, span_with_xid, spelled};
ghost use Rattle.waitings.specs.Waitings.{is_part, part_with_xid};
ghost use Rattle.waitings.specs.declared.parts.Span.{Span as SpanOf};
ghost use Rattle.waitings.specs.declared.state.Part.{Part as PartOf};

use crate::state::Part;
use cv_io::{Duplicate, Memory};
use smallvec::SmallVec;
use std::alloc::Global;
use std::marker::Model;

/// Answers of one switch, of each number from the first to the last.
#[derive(Clone, Copy, PartialEq, Eq, Debug, Default)]
pub(crate) struct Span {
    switch: u32,
    first: u64,
    last: u64,
}

/// Answers that are waited for. Barriers are numbered in a row, so those of one switch take the room of one. Most have
/// one span, which lies inside, so that a copy takes no allocation.
#[derive(Debug, Drop)]
pub struct Parts {
    spans: SmallVec<Span, 1>,
}

impl Model for Parts {
    ghost use Rattle.std.specs.Prelude.{List};
    ghost use Rattle.std.specs.List.{AllByRecursion};
    ghost use Rattle.waitings.specs.InsideSpans.{IsSpan, all_spelled};
    ghost use Rattle.waitings.specs.declared.state.Part.{Part};

    ghost Value = { List Part };

    ghost view = { λ a. all_spelled a.spans.items };

    ghost invariant = { λ a. AllByRecursion IsSpan a.spans.items };
}

impl Span {
    /// The answer of a number.
    fn of(part: Part) -> Span
        ensures span { IsSpan result }
        ensures spelled { spelled result ≡ part ∷ [] }
    {
        Span {
            switch: part.switch,
            first: part.number,
            last: part.number,
        }
    }

    /// It has the answer of this switch and number.
    fn has(&self, switch: u32, number: u64) -> bool
        ensures { result ≡ has_in switch number self.now }
    {
        self.switch == switch && self.first <= number && number <= self.last
    }

    /// The answer comes right behind it. Number 0 is that of a request without an xid, and stands alone.
    fn is_before(&self, part: &Part) -> bool
        ensures { result ≡ is_next part.now self.now }
    {
        self.switch == part.switch
            && self.first > 0
            && part.number > self.last
            && part.number - self.last == 1
    }

    /// The answer without an xid is that to the request of this xid.
    fn give_xid(&mut self, switch: u32, xid: u32)
        ensures { self.new ≡ span_with_xid switch xid self.old }
    {
        if self.switch == switch && self.first == 0 {
            self.first = u64::from(xid);
            self.last = u64::from(xid);
        }
    }
}

/// One of the spans has the answer of this switch and number.
fn any_has(spans: &[Span], switch: u32, number: u64) -> bool
    ensures { result ≡ list_any (has_in switch number) spans.now }
{
    spans.iter().any(|span| span.has(switch, number))
}

/// One of the spans is of this switch.
fn any_of(spans: &[Span], switch: u32) -> bool
    ensures { result ≡ list_any (λ (span : SpanOf). span.switch == switch) spans.now }
{
    spans.iter().any(|span| span.switch == switch)
}

/// Appends what of a span comes before a number.
fn push_front(spans: &mut SmallVec<Span, 1>, span: &Span, number: u64) -> Result<(), Memory>
    requires span { IsSpan span.now }
    requires within { number ≤ span.now.last }
    ensures front { OnOk result (all_spelled spans.new.items
        ≡ all_spelled spans.old.items ++ row span.now.switch span.now.first (number - span.now.first)) }
    ensures spans { AllByRecursion IsSpan spans.old.items → OnOk result (AllByRecursion IsSpan spans.new.items) }
{
    if number <= span.first {
        return Ok(());
    }
    spans.push(Span {
        last: number - 1,
        ..*span
    })?;
    Ok(())
}

/// Appends what of a span comes behind a number.
fn push_back(spans: &mut SmallVec<Span, 1>, span: &Span, number: u64) -> Result<(), Memory>
    requires span { IsSpan span.now }
    ensures back { OnOk result (all_spelled spans.new.items
        ≡ all_spelled spans.old.items ++ row span.now.switch (suc number) (span.now.last - number)) }
    ensures spans { AllByRecursion IsSpan spans.old.items → OnOk result (AllByRecursion IsSpan spans.new.items) }
{
    if span.last <= number {
        return Ok(());
    }
    spans.push(Span {
        first: number + 1,
        ..*span
    })?;
    Ok(())
}

/// Appends what is left of a span without an answer.
fn push_without(
    spans: &mut SmallVec<Span, 1>,
    span: &Span,
    switch: u32,
    number: u64,
) -> Result<(), Memory>
    requires { IsSpan span.now }
    ensures left { OnOk result (all_spelled spans.new.items ≡ all_spelled spans.old.items
        ++ filter (λ (part : PartOf). not (is_part switch number part)) (spelled span.now)) }
    ensures spans { AllByRecursion IsSpan spans.old.items → OnOk result (AllByRecursion IsSpan spans.new.items) }
{
    if !span.has(switch, number) {
        spans.push(*span)?;
        return Ok(());
    }
    push_front(spans, span, number)?;
    push_back(spans, span, number)
}

/// The last span takes an answer that comes right behind it. Whether it did.
fn lengthen(spans: &mut SmallVec<Span, 1>, part: &Part) -> bool
    ensures taken { IsTrue result → AllByRecursion IsSpan spans.old.items
        → all_spelled spans.new.items ≡ all_spelled spans.old.items ++ part.now ∷ [] }
    ensures spans { AllByRecursion IsSpan spans.old.items → AllByRecursion IsSpan spans.new.items }
    ensures kept { result ≡ false → spans.new ≡ spans.old }
{
    let Some(span) = spans.as_mut_slice().last_mut() else {
        return false;
    };
    if !span.is_before(part) {
        return false;
    }
    span.last = part.number;
    true
}

/// Answers without an xid are those to the request of this xid.
fn give_all_xid(spans: &mut [Span], switch: u32, xid: u32)
    ensures { spans.new ≡ map (span_with_xid switch xid) spans.old }
{
    for span in spans.iter_mut() {
        span.give_xid(switch, xid);
    }
}

impl Parts {
    /// Nothing is waited for. It takes no memory.
    pub fn new(alloc: Global) -> Parts
        ensures { result ≡ [] }
    {
        Parts {
            spans: SmallVec::new(alloc),
        }
    }

    /// One more answer is waited for.
    pub fn push(&mut self, part: Part) -> Result<(), Memory>
        ensures pushed { OnOk result (self.new ≡ self.old ++ part ∷ []) }
        ensures memory { OnErr result (self.new ≡ self.old) }
    {
        if lengthen(&mut self.spans, &part) {
            return Ok(());
        }
        self.spans.push(Span::of(part))?;
        Ok(())
    }

    pub fn is_empty(&self) -> bool
        ensures { result ≡ (length self.now == 0) }
    {
        self.spans.is_empty()
    }

    /// The answer of this switch and number is waited for.
    pub fn has(&self, switch: u32, number: u64) -> bool
        ensures { result ≡ list_any (is_part switch number) self.now }
    {
        any_has(self.spans.as_slice(), switch, number)
    }

    /// An answer of this switch is waited for.
    pub fn has_of(&self, switch: u32) -> bool
        ensures { result ≡ list_any (λ (part : PartOf). part.switch == switch) self.now }
    {
        any_of(self.spans.as_slice(), switch)
    }

    /// The parts without that of this switch and number.
    pub(crate) fn without(&self, alloc: Global, switch: u32, number: u64) -> Result<Parts, Memory>
        ensures { IfOk result (λ left.
            left ≡ filter (λ (part : PartOf). not (is_part switch number part)) self.now) }
    {
        let mut spans = SmallVec::new(alloc);
        for span in self.spans.as_slice() {
            push_without(&mut spans, span, switch, number)?;
        }
        Ok(Parts { spans })
    }

    /// The parts without those of this switch.
    pub(crate) fn without_switch(self, switch: u32) -> Parts
        ensures { result ≡ filter (λ (part : PartOf). not (part.switch == switch)) self }
    {
        let Parts { mut spans } = self;
        spans.retain(|span| span.switch != switch);
        Parts { spans }
    }

    /// Answers of a switch without an xid are those to the request of this xid.
    pub(crate) fn give_xid(&mut self, switch: u32, xid: u32)
        ensures { self.new ≡ map (part_with_xid switch xid) self.old }
    {
        give_all_xid(self.spans.as_mut_slice(), switch, xid);
    }
}

impl Duplicate for Parts {
    fn copy(&self) -> Result<Parts, Memory> {
        Ok(Parts {
            spans: SmallVec::from_slice(*self.spans.allocator(), self.spans.as_slice())?,
        })
    }
}

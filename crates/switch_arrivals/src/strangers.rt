//! Strangers: connections that have not said yet which switch they are.
ghost use Rattle.std.specs.Prelude.{◌≡◌, ◌<◌, ◌≤◌, ◌+◌, ◌↔◌, [], IfOk, IfSome, IsTrue, MatchBool, OnErr, OnOk, Some, length};
ghost use Rattle.std.specs.Prelude.{position, slice_get, slice_set};
ghost use Rattle.std.specs.List.{remove};
ghost use Rattle.switch_arrivals.specs.Strangers.{IsAdmitted, IsCrowdOf, IsCrowding, IsCrowdingAmong, crowd, is_late};
ghost use Rattle.switch_arrivals.specs.Strangers.{with_said, with_told};
ghost use Rattle.switch_arrivals.specs.declared.strangers.Stranger.{Stranger as StrangerOf};

use cv_io::{Bytes, List, Memory};
use std::alloc::Global;
use std::marker::Model;

/// So many strangers wait at most.
pub const MOST_STRANGERS: usize = 64;

/// None has said more bytes.
pub const MOST_SAID: usize = 131_072;

/// A connection that has not said yet which switch it is.
#[derive(Drop)]
pub struct Stranger<C> {
    /// Where it is from.
    pub host: u64,
    /// When it came, in milliseconds.
    pub since: u64,
    /// What it has said.
    pub said: Bytes,
    /// How many bytes it was told.
    pub told: usize,
    /// What stands for the connection.
    pub link: C,
}

/// Who went for a newcomer, and its place.
#[derive(Drop)]
pub struct Ousted<C> {
    pub place: usize,
    pub stranger: Stranger<C>,
}

/// Strangers, the oldest first. Contracts see them as a list.
#[derive(Drop)]
pub struct Strangers<C> {
    waiting: List<Stranger<C>>,
}

impl<C> Model for Strangers<C> {
    ghost use Rattle.std.specs.Prelude.{List};
    ghost use Rattle.switch_arrivals.specs.Strangers.{AreBounded};
    ghost use Rattle.switch_arrivals.specs.declared.strangers.Stranger.{Stranger};

    ghost Value = { List (Stranger C) };

    ghost view = { λ s. s.waiting };

    ghost invariant = { λ s. AreBounded s.waiting };
}

/// How many are of a host.
fn crowd_at<C>(strangers: &[Stranger<C>], host: u64) -> usize
    ensures { result ≡ crowd strangers.now host }
{
    strangers.iter().filter(|s| s.host == host).count()
}

/// How many are of the host of a stranger.
fn crowd_of<C>(strangers: &[Stranger<C>], place: usize) -> usize
    requires { place < length strangers.now }
    ensures { IsCrowdOf strangers.now place result }
{
    crowd_at(strangers, strangers[place].host)
}

/// The place of the oldest of the host that has most, among one more: the former one, or the last.
fn better<C>(strangers: &[Stranger<C>], place: usize, at: usize) -> usize
    requires former { place < length strangers.now }
    requires last { at < length strangers.now }
    requires best { IsCrowdingAmong strangers.now at place }
    ensures { IsCrowdingAmong strangers.now (at + 1) result }
{
    let size = crowd_of(strangers, at);
    let most = crowd_of(strangers, place);
    if size > most {
        return at;
    }
    place
}

/// The place of the oldest of the host that has most.
fn crowding<C>(strangers: &[Stranger<C>]) -> usize
    requires { 0 < length strangers.now }
    ensures { IsCrowding strangers.now result }
{
    let mut place = 0;
    for at in 1..strangers.len() {
        place = better(strangers, place, at);
    }
    place
}

/// It has said so much more.
fn add_said<C>(stranger: &mut Stranger<C>, bytes: &[u8]) -> Result<(), Memory>
    ensures said { OnOk result (stranger.new ≡ with_said bytes.now stranger.old) }
    ensures memory { OnErr result (stranger.new ≡ stranger.old) }
{
    stranger.said.extend_from_slice(bytes)
}

/// It was told so much in all.
fn set_told<C>(stranger: &mut Stranger<C>, told: usize)
    ensures { stranger.new ≡ with_told told stranger.old }
{
    stranger.told = told;
}

impl<C> Strangers<C> {
    /// None.
    #[tactic(auto, using(crate::proofs::Bounds::bounded_none))]
    pub fn new(alloc: Global) -> Self
        ensures { result ≡ [] }
    {
        Strangers {
            waiting: List::new(alloc),
        }
    }

    /// The strangers, the oldest first.
    pub fn as_slice(&self) -> &[Stranger<C>]
        ensures { result.now ≡ self.now }
    {
        self.waiting.as_slice()
    }

    /// The place of the first that has waited so long, in milliseconds.
    #[tactic(auto, using(crate::proofs::Places::is_within))]
    pub fn late(&self, now: u64, patience: u64) -> Option<usize>
        ensures first { result ≡ position (is_late now patience) self.now }
        ensures within { IfSome result (λ place. place < length self.now) }
    {
        self.waiting
            .as_slice()
            .iter()
            .position(|s| now.saturating_sub(s.since) >= patience)
    }

    /// Takes a stranger out.
    #[tactic(auto, using(crate::proofs::Bounds::bounded_remove))]
    pub fn leave(&mut self, place: usize) -> Stranger<C>
        requires { place < length self.old }
        ensures who { slice_get self.old place ≡ Some result }
        ensures others { self.new ≡ remove self.old place }
    {
        self.waiting.remove(place)
    }

    /// A stranger was told so many bytes in all.
    #[tactic(auto, using(crate::proofs::Bounds::bounded_set))]
    pub fn tell(&mut self, place: usize, told: usize)
        requires { place < length self.old }
        ensures told { (s : StrangerOf C) → slice_get self.old place ≡ Some s
            → self.new ≡ slice_set self.old place (with_told told s) }
        ensures count { length self.new ≡ length self.old }
    {
        set_told(&mut self.waiting.as_mut_slice()[place], told);
    }

    /// Adds to what a stranger has said; false where that would be more than one may say, and then nothing is added.
    #[tactic(auto, using(crate::proofs::Bounds::bounded_set))]
    pub fn hear(&mut self, place: usize, bytes: &[u8]) -> Result<bool, Memory>
        requires { place < length self.old }
        ensures room { IfOk result (λ fits. (s : StrangerOf C) → slice_get self.old place ≡ Some s
            → IsTrue fits ↔ length s.said + length bytes.now ≤ 131072) }
        ensures said { IfOk result (λ fits. (s : StrangerOf C) → slice_get self.old place ≡ Some s
            → MatchBool fits (self.new ≡ slice_set self.old place (with_said bytes.now s)) (self.new ≡ self.old)) }
        ensures memory { OnErr result (self.new ≡ self.old) }
        ensures count { length self.new ≡ length self.old }
    {
        if bytes.len() > MOST_SAID - self.waiting.as_slice()[place].said.len() {
            return Ok(false);
        }
        add_said(&mut self.waiting.as_mut_slice()[place], bytes)?;
        Ok(true)
    }
}

impl<C: Drop> Strangers<C> {
    /// Lets a newcomer in. Where 64 wait, the oldest of the host that has most goes: a crowd pays, not the newcomer.
    #[tactic(auto, using(crate::proofs::Bounds::bounded_push, crate::proofs::Bounds::bounded_instead, crate::proofs::Bounds::removed_push))]
    pub fn admit(&mut self, newcomer: Stranger<C>) -> Result<Option<Ousted<C>>, Memory>
        requires { length newcomer.said ≤ 131072 }
        ensures admitted { IfOk result (IsAdmitted self.old self.new newcomer) }
        ensures memory { OnErr result (self.new ≡ self.old) }
    {
        if self.waiting.len() < MOST_STRANGERS {
            self.waiting.push(newcomer)?;
            return Ok(None);
        }
        let place = crowding(self.waiting.as_slice());
        self.waiting.push(newcomer)?;
        let stranger = self.waiting.remove(place);
        Ok(Some(Ousted { place, stranger }))
    }
}

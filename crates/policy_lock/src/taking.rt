//! The lock is taken and given back.
ghost use Rattle.std.specs.Prelude.{◌≡◌, ◌+◌, ◌*◌, ◌^◌, ◌<◌, ◌∷◌, [], true, length, Some, None};
ghost use Rattle.policy_lock.specs.Locked.{Stands};
ghost use Rattle.policy_lock.specs.View.{let_go};
ghost use Rattle.policy_lock.specs.Play.{HasTaken};

use crate::held::Held;
use crate::lock::{PolicyLock, Token};
use crate::machine::Machine;
use crate::rule::{GiveBack, Take};
use std::sync::Wait;
use std::sync::atomic::Ordering;
use std::thread;
use std::time::Duration;

// How often a seat that waits lets other threads run before it sleeps.
const YIELDS: u32 = 32;

// How long a sleep lasts at most, in milliseconds.
const NAP: u64 = 1;

// How many sleeps an event is held for at most.
const TURNS: u32 = 30_000;

impl<M: Machine> PolicyLock<M> {
    // Takes the lock and the value, once the machine doesn't hold the event: until then both are given back, and the
    // seat rests. An event that was held for long enough is taken for anyway.
    pub(crate) fn take_for<R: Wait>(
        &self,
        rt: &R,
        token: &mut Token<M>,
        event: &M::Event,
    ) -> (u64, Held<M>)
        requires own { token.old.table_id ≡ self.now.id }
        requires free { (token.old.me.0.seated ≡ true) × (token.old.me.1 ≡ []) }
        ensures token { (token.new.table_id ≡ token.old.table_id) × (token.new.id ≡ token.old.id) }
        ensures taken { HasTaken ⟦<M as Machine>⟧ token.old.me.0 result.0 result.1 token.new.me }
        ensures room { result.0 + 2 < 2 ^ 64 }
    {
        for turns in 0..TURNS {
            let (word, locked) = self.take(rt, token);
            if !locked.holds(event, turns) {
                return (word, locked);
            }
            self.give_back(token, word, locked);
            self.words.rest(rt, Duration::from_millis(NAP));
        }
        self.take(rt, token)
    }

    // Takes the lock and the value, and tells the word that was found.
    pub(crate) fn take<R: Wait>(&self, rt: &R, token: &mut Token<M>) -> (u64, Held<M>)
        requires own { token.old.table_id ≡ self.now.id }
        requires free { (token.old.me.0.seated ≡ true) × (token.old.me.1 ≡ []) }
        ensures token { (token.new.table_id ≡ token.old.table_id) × (token.new.id ≡ token.old.id) }
        ensures taken { HasTaken ⟦<M as Machine>⟧ token.old.me.0 result.0 result.1 token.new.me }
        ensures room { result.0 + 2 < 2 ^ 64 }
    {
        let shared = &self.table.shared;
        let mut tries = 0;
        let mut sleeps = 0;
        for _ in rt.forever() {
            let word = shared.peek(0);
            if word % 2 == 0 && word < u64::MAX - 1 {
                let found = shared.compare_exchange::<Take>(token, 0, word, word + 1);
                if found == word {
                    let locked = shared.exchange(token, 0, None).unwrap();
                    self.words.serve(sleeps);
                    return (word, locked);
                }
            } else if tries < YIELDS {
                tries += 1;
                thread::yield_now();
            } else {
                sleeps = self.words.tire(sleeps);
                self.sleep(rt, word);
            }
        }
        unreachable!()
    }

    // Lets a seat that asks for its turn go first: sleeps until one gives the machine back, for a millisecond at most.
    // Who posts one event after the other would else take the machine again before a seat that it woke runs.
    pub(crate) fn give_way<R: Wait>(&self, rt: &R) {
        if self.words.is_asked() {
            self.sleep(rt, self.table.shared.peek(0));
        }
    }

    // Sleeps until a seat gives the machine back, for a millisecond at most, if the word is still this one.
    fn sleep<R: Wait>(&self, rt: &R, word: u64) {
        // What a sleep compares is the low half of the word.
        let low = (word % (1 << 32)) as u32;
        self.words.asleep.fetch_add(1, Ordering::SeqCst);
        self.table
            .shared
            .park_timeout(rt, 0, low, Duration::from_millis(NAP));
        self.words.asleep.fetch_sub(1, Ordering::SeqCst);
        self.words.waking.store(0, Ordering::SeqCst);
    }

    // Wakes a seat that sleeps, unless a wake is under way: who is awake wakes the next one as it gives the machine
    // back. A seat counts itself before it compares the word, and the word was changed before this looks at the count.
    // A wake that finds no one costs the sleepers the rest of their millisecond.
    pub(crate) fn wake(&self) {
        if self.words.asleep.load(Ordering::SeqCst) > 0
            && self.words.waking.swap(1, Ordering::SeqCst) == 0
        {
            self.table.shared.wake_one(0);
        }
    }

    // Puts the value back, with no new entry.
    pub(crate) fn give_back(&self, token: &mut Token<M>, word: u64, locked: Held<M>)
        requires own { token.old.table_id ≡ self.now.id }
        requires held { (token.old.me.0.holds ≡ true) × (token.old.me.1 ≡ (0, None) ∷ []) }
        requires word { word ≡ 2 * length token.old.me.0.pass.seen }
        requires stands { (s : M.State) → token.old.me.0.pass.start ≡ Some s →
            Stands ⟦<M as Machine>⟧ s locked.boxed.value token.old.me.0.pass.seen }
        ensures token { (token.new.table_id ≡ token.old.table_id) × (token.new.id ≡ token.old.id) }
        ensures back { token.new.me ≡ (let_go token.old.me.0, []) }
    {
        let shared = &self.table.shared;
        drop(shared.exchange(token, 0, Some(locked)));
        shared.store::<GiveBack>(token, 0, word);
        self.wake();
    }
}

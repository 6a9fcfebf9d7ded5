//! The command line.
ghost use Rattle.std.specs.Prelude.{◌<◌, ◌≤◌};

use std::env::Args;

/// What keeps the threads apart.
#[derive(Clone, Copy, PartialEq, Eq, Debug)]
pub enum Way {
    Lock,
    Mutex,
}

/// How many posts each of how many threads makes.
#[derive(Clone, Copy)]
pub struct Work {
    pub way: Way,
    pub threads: u32,
    pub posts: u64,
    ghost some: { 0 < threads },
    ghost few: { threads ≤ 64 },
}

/// A few posts under the lock.
pub const FEW: Work = Work {
    way: Way::Lock,
    threads: 4,
    posts: 1000,
};

fn work_of(way: Way, threads: u32, posts: u64) -> Option<Work> {
    if threads == 0 || threads > 64 {
        return None;
    }
    Some(Work {
        way,
        threads,
        posts,
    })
}

/// The work that the words ask for, and None where they are not of the listed form.
pub fn read(words: &mut Args) -> Option<Work> {
    let (Some(way), Some(threads), Some(posts), None) = (
        words.next(),
        words.next(),
        words.next(),
        words.next(),
    ) else {
        return None;
    };
    let way = match way.as_str() {
        "lock" => Way::Lock,
        "mutex" => Way::Mutex,
        _ => return None,
    };
    let (Ok(threads), Ok(posts)) = (threads.parse(), posts.parse()) else {
        return None;
    };
    work_of(way, threads, posts)
}

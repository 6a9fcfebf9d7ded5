//! Lists that copies share.
use cv_io::{Duplicate, Memory};
use shared_list::{SharedList, Wanted};
use std::alloc::Global;
use std::process::Abort;
use std::test::Fail;

/// Numbers from one on are wanted.
#[derive(Drop)]
struct From(u64);

impl Wanted<u64> for From {
    ghost use Rattle.std.specs.Prelude.{nat_le};

    ghost wants = { λ a. nat_le a.0 };

    fn wants(&self, number: &u64) -> bool {
        self.0 <= *number
    }
}

/// Even numbers from 0 to 198: more than a run has.
fn evens(alloc: Global) -> Result<SharedList<u64>, Memory> {
    let mut list = SharedList::new(alloc);
    for half in 0..100u64 {
        list.push(half + half)?;
    }
    Ok(list)
}

/// These and 101.
fn with_odd(alloc: Global) -> Result<SharedList<u64>, Memory> {
    let mut list = evens(alloc)?;
    list.put(&From(101), 101)?;
    Ok(list)
}

/// The last item, and how many there are.
fn end(list: &SharedList<u64>) -> Result<(Option<u64>, usize), Memory> {
    let items = list.listed()?;
    Ok((items.as_slice().last().copied(), items.len()))
}

/// 101 stands between its neighbours.
fn has_odd(rt: &impl Abort, list: &SharedList<u64>) -> Result<(), Memory> {
    assert_eq!(rt; list.first(&From(101)), Some(&101));
    assert_eq!(rt; list.first(&From(102)), Some(&102));
    assert_eq!(rt; end(list)?, (Some(198), 101));
    Ok(())
}

#[test]
fn an_item_is_put_in_its_place(rt: HostRuntime) -> Result<(), Fail> {
    let list = with_odd(rt.alloc())?;
    let put = has_odd(&rt, &list);
    drop(list);
    Ok(put?)
}

/// 102 goes, and what isn't there doesn't.
fn take(rt: &impl Abort, list: &mut SharedList<u64>) -> Result<(), Memory> {
    assert_eq!(rt; list.take(&From(102))?, Some(102));
    assert_eq!(rt; list.take_first(&From(199))?, None);
    assert_eq!(rt; end(list)?, (Some(198), 100));
    Ok(())
}

#[test]
fn items_are_taken(rt: HostRuntime) -> Result<(), Fail> {
    let mut list = with_odd(rt.alloc())?;
    let taken = take(&rt, &mut list);
    drop(list);
    Ok(taken?)
}

/// The end of a copy of a list that goes on.
fn end_of_copy(list: &mut SharedList<u64>) -> Result<(Option<u64>, usize), Memory> {
    let copied = list.copy()?;
    let put = list.put(&From(300), 300);
    let end = end(&copied);
    drop(copied);
    put?;
    end
}

#[test]
fn a_copy_stays(rt: HostRuntime) -> Result<(), Fail> {
    let mut list = evens(rt.alloc())?;
    let end = end_of_copy(&mut list);
    drop(list);
    assert_eq!(rt; end?, (Some(198), 100));
    Ok(())
}

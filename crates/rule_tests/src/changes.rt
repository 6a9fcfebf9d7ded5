//! What is in both lists of a change.
use list_change::{Netted, Place, net};
use std::alloc::Global;
use std::test::Fail;

/// Items at places from 0 on.
fn places(alloc: Global, items: &[u16]) -> Result<Vec<Place<u16>>, Fail> {
    let mut places = Vec::new(alloc);
    for (place, item) in items.iter().enumerate() {
        places.push(Place { item: *item, place })?;
    }
    Ok(places)
}

/// What goes and what comes, without what does both.
fn changed(alloc: Global, gone: &[u16], come: &[u16]) -> Result<Netted<u16>, Fail> {
    let gone = places(alloc, gone)?;
    let come = places(alloc, come)?;
    Ok(net(alloc, gone, come)?)
}

/// What went and came again is left out, as often as it did both.
#[test]
fn what_goes_and_comes_stays(rt: HostRuntime) -> Result<(), Fail> {
    let net = changed(rt.alloc(), &[3, 1, 2], &[2, 4, 1])?;
    assert_eq!(rt;
        net.gone.as_slice(),
        [Place { item: 3, place: 0 }].as_slice()
    );
    assert_eq!(rt;
        net.come.as_slice(),
        [Place { item: 4, place: 1 }].as_slice()
    );
    assert_eq!(rt; net.both.len(), 2);
    Ok(())
}

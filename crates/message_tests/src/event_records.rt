//! An event as bytes.
use cv_io::{Session, Who};
use events::{Event, read_event, write_event};
use std::test::Fail;

#[test]
fn an_event_is_written_and_read(rt: HostRuntime) -> Result<(), Fail> {
    let event = Event::Gone {
        session: Session {
            who: Who::Member(3),
            round: 7,
        },
    };
    let bytes = write_event(rt.alloc(), &event)?;
    let spelled = [3, 0, 0, 0, 0, 3, 0, 0, 0, 0, 0, 0, 0, 7];
    assert_eq!(rt; bytes.as_slice(), spelled.as_slice());
    assert_eq!(rt; read_event(rt.alloc(), bytes.as_slice()), Ok(event));
    Ok(())
}

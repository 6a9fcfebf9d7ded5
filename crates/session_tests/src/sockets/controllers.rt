//! A controller that accepts connections and closes them.
use super::peers::{HELLO, limits, text_of};
use outside::{Dial, Endpoint, Failed, Links};
use std::io::{self, Read, Write};
use std::net::TcpListener;
use std::process::Abort;
use std::test::Fail;
use std::thread;
use tcp_links::TcpLinks;

/// Turns a connection away, and greets on the next one. Tells what it was sent.
fn controller(listener: &TcpListener) -> io::Result<[u8; 8]> {
    let (turned_away, _) = listener.accept()?;
    drop(turned_away);
    let (socket, _) = listener.accept()?;
    (&socket).write_all(&HELLO)?;
    let mut place = [0; 8];
    (&socket).read_exact(&mut place)?;
    Ok(place)
}

/// How many connections a dial gives, of three tries.
fn count<D: Dial + Drop>(mut dial: D) -> Result<u32, Failed>
where
    D::In: Drop,
    D::Out: Drop,
{
    let mut given = 0u32;
    for _ in 0..3 {
        match dial.next()? {
            Some(_) => given = given.saturating_add(1),
            None => return Ok(given),
        }
    }
    Ok(given)
}

#[test]
fn a_controller_that_closes(rt: HostRuntime) -> Result<(), Fail> {
    let listener = TcpListener::bind(&rt, "127.0.0.1:0")?;
    let end = Endpoint::Member {
        index: 0,
        address: text_of(rt.alloc(), listener.local_addr()?)?,
        rounds: 1,
    };
    let mut links = TcpLinks::new(&rt, rt.alloc(), limits(5));
    let dial = links.dial(&end)?;
    let (heard, given) = thread::join(&rt, move || controller(&listener), move || count(dial));
    assert_eq!(rt; heard?, HELLO);
    // the connection that was closed before its HELLO is no round
    assert_eq!(rt; given, Ok(1));
    links.close();
    Ok(())
}

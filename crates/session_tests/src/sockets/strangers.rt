//! Strangers beside a switch, and who asks for the status page.
use super::peers::{
    GREETING, ends, free_address, limits, limits_shown_at, peer, switch, switch_dial,
};
use cv_io::List;
use outside::{Dial, Failed, Source};
use std::io::{Read, Write};
use std::net::{SocketAddr, TcpStream};
use std::process::Abort;
use std::test::Fail;
use tcp_links::TcpLinks;

/// The first bytes of the next connection that a dial gives are those of a switch's greeting.
fn gives_the_switch<D: Dial + Drop>(dial: &mut D) -> Result<bool, Failed>
where
    D::In: Drop,
    D::Out: Drop,
{
    let Some((mut source, _sink)) = dial.next()? else {
        return Ok(false);
    };
    let mut place = [0; 40];
    let taken = source.read(&mut place)?;
    Ok(taken == GREETING.len() && place == GREETING)
}

#[test]
fn a_silent_connection(rt: HostRuntime) -> Result<(), Fail> {
    let address = free_address(&rt)?;
    let mut links = TcpLinks::open(&rt, rt.alloc(), limits(1));
    let mut dial = switch_dial(rt.alloc(), &mut links, address)?;
    let silent = peer(&rt, address)?;
    let _switch = switch(&rt, address)?;
    assert_eq!(rt; gives_the_switch(&mut dial), Ok(true));
    // it has a second to greet
    assert!(rt; ends(&silent));
    links.close();
    Ok(())
}

#[test]
fn a_crowd(rt: HostRuntime) -> Result<(), Fail> {
    let address = free_address(&rt)?;
    // nobody goes since it is late
    let mut links = TcpLinks::open(&rt, rt.alloc(), limits(3_600));
    let mut dial = switch_dial(rt.alloc(), &mut links, address)?;
    let first = peer(&rt, address)?;
    let mut crowd = List::new(rt.alloc());
    for _ in 0..64 {
        crowd.push(peer(&rt, address)?)?;
    }
    let _switch = switch(&rt, address)?;
    assert_eq!(rt; gives_the_switch(&mut dial), Ok(true));
    // the 65th that waits is one too many
    assert!(rt; ends(&first));
    links.close();
    Ok(())
}

/// The first line that is answered to a request, by its three digits.
fn code(rt: &HostRuntime, address: SocketAddr, request: &[u8]) -> Result<[u8; 12], Fail> {
    let socket = peer(rt, address)?;
    (&socket).write_all(request)?;
    let mut line = [0; 12];
    (&socket).read_exact(&mut line)?;
    Ok(line)
}

#[test]
fn the_status_page(rt: HostRuntime) -> Result<(), Fail> {
    let address = free_address(&rt)?;
    let status = free_address(&rt)?;
    let mut links = TcpLinks::open(&rt, rt.alloc(), limits_shown_at(status));
    let mut dial = switch_dial(rt.alloc(), &mut links, address)?;
    // one who asks nothing keeps nobody waiting
    let _silent = peer(&rt, status)?;
    assert_eq!(rt;
        code(&rt, status, b"GET / HTTP/1.0\r\n\r\n")?,
        *b"HTTP/1.0 200"
    );
    assert_eq!(rt;
        code(&rt, status, b"GET /metrics HTTP/1.1\r\nHost: x\r\n\r\n")?,
        *b"HTTP/1.0 200"
    );
    assert_eq!(rt;
        code(&rt, status, b"GET /other HTTP/1.0\r\n\r\n")?,
        *b"HTTP/1.0 404"
    );
    assert_eq!(rt;
        code(&rt, status, b"POST / HTTP/1.0\r\n\r\n")?,
        *b"HTTP/1.0 405"
    );
    assert_eq!(rt; code(&rt, status, b"no request\r\n\r\n")?, *b"HTTP/1.0 400");
    let _switch = switch(&rt, address)?;
    assert_eq!(rt; gives_the_switch(&mut dial), Ok(true));
    links.close();
    Ok(())
}

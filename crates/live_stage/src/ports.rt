//! A port that is free.

use std::io;
use std::net::{Ipv4Addr, Net, OpenListener, SocketAddr};

/// A port of 127.0.0.1 that is free now. Another process may take it before it is used.
pub fn free_port<R: Net>(rt: &R) -> io::Result<u16> {
    let listener = rt.bind(SocketAddr::from((Ipv4Addr::LOCALHOST, 0)))?;
    Ok(listener.local_addr()?.port())
}

//! Connections over sockets, with peers that behave and peers that don't. Expected bytes and codes are those of the
//! OpenFlow Switch Specification 1.0.0 and of RFC 1945.
mod controllers;
mod peers;
mod strangers;
mod twins;

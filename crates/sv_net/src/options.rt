//! Options of a connection that std doesn't have: a peer that vanished without a word is found out within a minute.

use libc::net::{
    SO_KEEPALIVE, SOL_SOCKET, TCP_KEEPCNT, TCP_KEEPIDLE, TCP_KEEPINTVL, TCP_USER_TIMEOUT,
    setsockopt,
};
use std::net::TcpStream;
use std::os::fd::AsRawFd;

/// The level of the options of TCP (IPPROTO_TCP).
const TCP: i32 = 6;

/// After n seconds without a word a peer is asked whether it is there (RFC 9293, keep-alives).
const IDLE: i32 = 30;

/// After n seconds without an answer it is asked again.
const INTERVAL: i32 = 10;

/// After n questions without an answer the connection is lost.
const COUNT: i32 = 3;

/// After n milliseconds in which nothing that was sent was acknowledged the connection is lost (RFC 5482).
const UNACKNOWLEDGED: i32 = 60000;

/// The octets of an option's value.
fn octets(value: i32) -> [u8; 16] {
    let mut octets = [0u8; 16];
    octets[..4].copy_from_slice(&value.to_ne_bytes());
    octets
}

/// Has the system find out within a minute that the peer of a connection is gone. Where an option can't be set, the connection goes on
/// without it.
pub(crate) fn watch_peer(stream: &TcpStream) {
    let fd = stream.as_raw_fd();
    unsafe {
        setsockopt(fd, SOL_SOCKET, SO_KEEPALIVE, &octets(1), 4);
        setsockopt(fd, TCP, TCP_KEEPIDLE, &octets(IDLE), 4);
        setsockopt(fd, TCP, TCP_KEEPINTVL, &octets(INTERVAL), 4);
        setsockopt(fd, TCP, TCP_KEEPCNT, &octets(COUNT), 4);
        setsockopt(fd, TCP, TCP_USER_TIMEOUT, &octets(UNACKNOWLEDGED), 4);
    }
}

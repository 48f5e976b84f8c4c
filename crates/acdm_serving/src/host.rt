//! What serving needs of the system.

use acdm_keeping::Paths;
use acdm_partners::Appends;
use std::io::Eprint;
use std::net::{Net, TcpListener, TcpStream};
use std::sync::Wait;
use std::thread::Threads;
use std::time::Clock;

/// Files by their paths, connections, the clock, standard error, and threads that share all of it. It is each
/// runtime that has them. (`complete` of `acdm_commands` names them one by one: who calls it with a runtime needs
/// their types.)
pub trait Host: Paths
    + Appends
    + Net<Listener = TcpListener, Stream = TcpStream>
    + Clock
    + Eprint
    + Threads
    + Wait
    + Clone
    + Drop
    + Send
    + Sync
    + 'static {}

impl<Rt> Host for Rt
where
    Rt: Paths
        + Appends
        + Net<Listener = TcpListener, Stream = TcpStream>
        + Clock
        + Eprint
        + Threads
        + Wait
        + Clone
        + Drop
        + Send
        + Sync
        + 'static,
{}

//! Applications: child programs, each behind a socket of its own.

ghost use Rattle.std.specs.Prelude.{◌<◌, ◌≤◌, length, IfSome};
ghost use Rattle.live_world.specs.Intakes.{IsIntakeIn};

use crate::deadline::{CALL_MILLISECONDS, Deadline};
use crate::event_loop::MOST_CONNECTIONS;
use crate::readiness::Readiness;
use mio::net::UnixStream;
use outside::Taken;
use std::alloc::{AllocError, Global};
use std::io;
use std::io::{ErrorKind, Read, Write};
use std::net::Net;
use std::os::fd::OwnedFd;
use std::os::unix::net;
use std::process::{Child, Command, Processes, Stdio, SystemProcess};

/// The lowest token of an application. Below are those of the listener and of connections.
pub(crate) const FIRST_APP: usize = MOST_CONNECTIONS + 2;

/// A running child. It is killed and waited for where it is dropped.
struct Running {
    child: Child<SystemProcess>,
}

impl Drop for Running {
    fn drop(self) {
        let Running { mut child } = self;
        // A child that cannot be killed, as one of another user, is not waited for.
        if child.kill().is_ok() {
            let _ = child.wait();
        }
    }
}

/// What a child is told of its surroundings.
#[derive(Drop)]
pub(crate) struct Surroundings {
    pub(crate) path: Option<String>,
    pub(crate) home: Option<String>,
}

/// A running application and its socket.
#[derive(Drop)]
pub(crate) struct App {
    pub(crate) index: u32,
    pub(crate) stream: UnixStream,
    pub(crate) ready: Readiness,
    /// Until when it is heard.
    pub(crate) until: Deadline,
    running: Running,
}

/// What a read from an application came to.
#[derive(Clone, Copy, Debug, PartialEq, Eq)]
pub enum Intake {
    /// This is to be told.
    Told(Taken),
    /// Nothing waits now.
    Nothing,
}

/// The place of a running application.
pub(crate) fn app_place(apps: &[App], index: u32) -> Option<usize> {
    for place in 0..apps.len() {
        if apps[place].index == index {
            return Some(place);
        }
    }
    None
}

impl App {
    /// Starts the program that the first word names, with the other words. Its standard input and output are one socket, its
    /// standard error is this process's own, and it has no variables but these. There is a first word.
    pub(crate) fn start<R: Net + Processes<Started = SystemProcess>>(
        rt: &R,
        alloc: Global,
        index: u32,
        words: &[String],
        surroundings: &Surroundings,
        now: u64,
    ) -> io::Result<App> {
        let Some((program, arguments)) = words.split_first() else {
            return Err(io::Error::from(ErrorKind::NotFound));
        };
        let (own, theirs) = net::UnixStream::pair(rt)?;
        own.set_nonblocking(true)?;
        let input = OwnedFd::from(theirs);
        let output = input.try_clone()?;
        let mut command = command_of(alloc, program, arguments, surroundings)?;
        command
            .stdin(Stdio::from(input))
            .stdout(Stdio::from(output))
            .stderr(Stdio::inherit());
        let child = command.spawn(rt)?;
        Ok(App {
            index,
            stream: UnixStream::from_std(own),
            ready: Readiness::new(),
            until: Deadline::after(now, CALL_MILLISECONDS),
            running: Running { child },
        })
    }

    /// The token by which its socket is registered.
    pub(crate) fn token(&self) -> usize {
        FIRST_APP.saturating_add(self.index as usize)
    }

    /// Gives a front of the bytes to the application, as far as it takes them at once. Tells how many it took, if it takes any at all.
    pub(crate) fn give(&mut self, bytes: &[u8]) -> Option<usize>
        ensures { IfSome result (λ count. count ≤ length bytes.now) }
    {
        match (&self.stream).write(bytes) {
            Ok(0) => None,
            Ok(count) => Some(count),
            Err(error) if error.kind() == ErrorKind::Interrupted => Some(0),
            Err(error) if error.kind() == ErrorKind::WouldBlock => {
                self.ready.is_writable = false;
                Some(0)
            }
            Err(_) => None,
        }
    }

    /// Takes what the application has given, if it has.
    pub(crate) fn take(&mut self, buf: &mut [u8]) -> Intake
        requires { 0 < length buf.old }
        ensures { IsIntakeIn result buf.new }
    {
        let room = buf.len();
        match (&self.stream).read(buf) {
            Ok(0) => Intake::Told(Taken::Closed),
            Ok(count) => {
                if count < room {
                    self.ready.came_short();
                }
                Intake::Told(Taken::Some(count))
            }
            Err(error) if error.kind() == ErrorKind::Interrupted => Intake::Nothing,
            Err(error) if error.kind() == ErrorKind::WouldBlock => {
                self.ready.is_readable = false;
                Intake::Nothing
            }
            Err(_) => Intake::Told(Taken::Closed),
        }
    }
}

fn command_of(
    alloc: Global,
    program: &String,
    arguments: &[String],
    surroundings: &Surroundings,
) -> Result<Command, AllocError> {
    let mut command = Command::new(alloc, program)?;
    command.args(arguments)?;
    command.env_clear();
    if let Some(path) = &surroundings.path {
        command.env("PATH", path)?;
    }
    if let Some(home) = &surroundings.home {
        command.env("HOME", home)?;
    }
    Ok(command)
}

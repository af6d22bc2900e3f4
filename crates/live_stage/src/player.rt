//! A child that plays a part.

use std::alloc::{AllocError, Global};
use std::io;
use std::process::{Child, Command, Processes, Stdio, SystemProcess};

/// The program that runs, under its own name in a child that is about to become it.
pub const OWN_PROGRAM: &str = "/proc/self/exe";

/// A running child. It is killed and waited for where it is dropped.
pub struct Player {
    child: Child<SystemProcess>,
}

impl Player {
    /// Starts the program that runs with these words. Its standard streams are empty.
    pub fn start<R: Processes<Started = SystemProcess>>(
        rt: &R,
        alloc: Global,
        words: &[&str],
    ) -> io::Result<Player> {
        let mut command = Command::new(alloc, OWN_PROGRAM)?;
        for word in words {
            command.arg(*word)?;
        }
        command
            .stdin(Stdio::null())
            .stdout(Stdio::null())
            .stderr(Stdio::null());
        Ok(Player {
            child: command.spawn(rt)?,
        })
    }
}

impl Drop for Player {
    fn drop(self) {
        let Player { mut child } = self;
        if child.kill().is_ok() {
            let _ = child.wait();
        }
    }
}

/// The words that start the program that runs, with one more, as an application.
pub fn own_words(alloc: Global, part: &str) -> Result<Vec<String>, AllocError> {
    let mut words = Vec::new(alloc);
    words
        .push(String::from_str(alloc, OWN_PROGRAM)?)
        .map_err(AllocError::from)?;
    words
        .push(String::from_str(alloc, part)?)
        .map_err(AllocError::from)?;
    Ok(words)
}

//! What an operator sets in the environment, and the clock.

use live_world::{Clock, milliseconds_of};
use std::alloc::AllocError;
use std::env;
use std::env::{Env, VarError};
use std::net::Ipv4Addr;
use std::time::Clock as MonotonicClock;
use thiserror::Error;

/// The variable with the address to listen at.
const LISTEN: &str = "LEGOSDN_LISTEN";

/// The variable that asks for a trace.
const TRACE: &str = "LEGOSDN_TRACE";

/// The variable with the port at which a connection ends a run.
const STOP: &str = "LEGOSDN_STOP";

/// The variable that asks for a recording.
const RECORD: &str = "LEGOSDN_RECORD";

/// Why a setting is none. It shows as the line that the program writes.
#[derive(Clone, Copy, Debug, PartialEq, Eq, Error)]
pub enum SettingFault {
    /// What is set as the address is no IPv4 address of one machine.
    #[error("bad address")]
    Address,
    /// What is set as the port at which a run is ended is none: 1 to 65,535.
    #[error("bad setting")]
    Stop,
    /// A recording is asked for beside a trace, which goes to the same place.
    #[error("bad setting")]
    Record,
    /// Memory ran out.
    #[error("no memory")]
    NoMemory,
}

/// What an operator sets in the environment.
#[derive(Clone, Copy, Debug, PartialEq, Eq)]
pub struct Settings {
    /// The address to listen at: that of `LEGOSDN_LISTEN`, or 127.0.0.1.
    pub address: Ipv4Addr,
    /// Whether acts are told on standard error: where `LEGOSDN_TRACE` is `1`.
    pub is_traced: bool,
    /// Whether a run is recorded on standard error: where `LEGOSDN_RECORD` is `1`.
    pub is_recorded: bool,
    /// The port of 127.0.0.1 at which a connection ends a run: that of `LEGOSDN_STOP`, if it is set.
    pub stop_port: Option<u16>,
}

impl SettingFault {
    /// The variable at fault, and what it has to be; none where memory ran out.
    pub fn wanted(self) -> Option<(&'static str, &'static str)> {
        match self {
            SettingFault::Address => Some((
                LISTEN,
                "the IPv4 address of one machine, as 192.0.2.1",
            )),
            SettingFault::Stop => Some((STOP, "a port, 1 to 65535")),
            SettingFault::Record => Some((RECORD, "unset where LEGOSDN_TRACE is 1")),
            SettingFault::NoMemory => None,
        }
    }

    /// Says which variable has which value, and what it has to be; nothing where memory ran out.
    pub fn explain<R: Env + AllocGlobal>(self, rt: &R) -> Result<Option<String>, AllocError> {
        let Some((name, wanted)) = self.wanted() else {
            return Ok(None);
        };
        let line = match env::var(rt, name) {
            Ok(value) => format!(in rt.alloc(); "{name} is \"{value}\", and has to be {wanted}\n")?,
            Err(_) => format!(in rt.alloc(); "{name} is no text, and has to be {wanted}\n")?,
        };
        Ok(Some(line))
    }
}

impl Settings {
    /// Reads the settings of this process.
    pub fn read<R: Env + AllocGlobal>(rt: &R) -> Result<Settings, SettingFault> {
        let settings = Settings {
            address: address_of(rt)?,
            is_traced: is_one(rt, TRACE)?,
            is_recorded: is_one(rt, RECORD)?,
            stop_port: stop_port_of(rt)?,
        };
        if settings.is_traced && settings.is_recorded {
            return Err(SettingFault::Record);
        }
        Ok(settings)
    }
}

fn address_of<R: Env + AllocGlobal>(rt: &R) -> Result<Ipv4Addr, SettingFault> {
    match env::var(rt, LISTEN) {
        Ok(text) => match text.as_str().parse::<Ipv4Addr>() {
            Ok(address) if !address.is_multicast() && !address.is_broadcast() => Ok(address),
            _ => Err(SettingFault::Address),
        },
        Err(VarError::NotPresent) => Ok(Ipv4Addr::LOCALHOST),
        Err(VarError::OutOfMemory) => Err(SettingFault::NoMemory),
        Err(_) => Err(SettingFault::Address),
    }
}

fn stop_port_of<R: Env + AllocGlobal>(rt: &R) -> Result<Option<u16>, SettingFault> {
    match env::var(rt, STOP) {
        Ok(text) => match text.as_str().parse::<u16>() {
            Ok(port) if port > 0 => Ok(Some(port)),
            _ => Err(SettingFault::Stop),
        },
        Err(VarError::NotPresent) => Ok(None),
        Err(VarError::OutOfMemory) => Err(SettingFault::NoMemory),
        Err(_) => Err(SettingFault::Stop),
    }
}

fn is_one<R: Env + AllocGlobal>(rt: &R, name: &str) -> Result<bool, SettingFault> {
    match env::var(rt, name) {
        Ok(text) => Ok(text.as_str() == "1"),
        Err(VarError::OutOfMemory) => Err(SettingFault::NoMemory),
        Err(_) => Ok(false),
    }
}

/// The system's clock that never goes back. It stands still while it cannot be read.
#[derive(Drop)]
pub struct SystemClock<R> {
    rt: R,
    milliseconds: u64,
}

impl<R: MonotonicClock + Drop> SystemClock<R> {
    /// Returns the clock of this runtime.
    pub fn new(rt: R) -> SystemClock<R> {
        SystemClock {
            rt,
            milliseconds: 0,
        }
    }
}

impl<R: MonotonicClock + Drop> Clock for SystemClock<R> {
    fn milliseconds(&mut self) -> u64 {
        if let Ok(passed) = self.rt.monotonic() {
            self.milliseconds = milliseconds_of(passed);
        }
        self.milliseconds
    }
}

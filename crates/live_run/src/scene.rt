//! A trial: one application, one switch, and what comes of them.

use crate::steady::steady;
use crate::trouble::Trouble;
use crash_policy::{AppRule, DEFAULT_BUDGET, Policy};
use event_dispatch::{Served, serve};
use lego_io::{MemSink, Sink};
use live_stage::{Bounded, Bounds, Player, SteadyClock, free_port, own_words};
use live_world::{Clock, LiveWorld};
use of_types::limits::MOST_ROUNDS;
use outside::AllowAll;
use std::alloc::{AllocError, Global};
use std::net::Net;
use std::process::{Processes, SystemProcess};
use std::rt::{Clock as TimeSource, Env};

/// How many bytes of a report are taken.
const ROOM: usize = 65_536;

/// How many seconds a trial has.
const MOST_SECONDS: u64 = 20;

/// How many ports are tried.
const MOST_PORTS: u32 = 16;

/// A trial.
#[derive(Clone, Copy, Debug)]
pub(crate) struct Scene {
    /// The word of the application.
    pub(crate) app: &'static str,
    /// The word of the switch, before its port.
    pub(crate) switch: &'static str,
    /// How many packets come from the switch.
    pub(crate) packets: u32,
}

/// All trials.
pub(crate) const SCENES: [Scene; 4] = [
    Scene {
        app: "learn",
        switch: "both",
        packets: 2,
    },
    Scene {
        app: "garble",
        switch: "switch",
        packets: 1,
    },
    Scene {
        app: "close",
        switch: "switch",
        packets: 1,
    },
    Scene {
        app: "tear",
        switch: "both",
        packets: 2,
    },
];

/// What a run left behind.
#[derive(Drop)]
struct Outcome {
    served: Served,
    packets: u32,
    sink: MemSink,
}

/// An application `app` that these words start, and of which a policy says nothing else.
fn usual_app(alloc: Global, command: Vec<String>) -> Result<AppRule, AllocError> {
    Ok(AppRule {
        name: String::from_str(alloc, "app")?,
        command,
        policy: Policy::Absolute,
        rules: [Policy::Absolute; 6],
        events: [true; 6],
        budget: DEFAULT_BUDGET,
    })
}

/// Runs the engine over a world, with the application. The world ends here, and nowhere else: each place at which it could end
/// is proved by itself.
fn outcome_of<
    R: Net + Processes<Started = SystemProcess> + Env + AllocGlobal + Drop,
    C: Clock + Drop,
    K: Sink + Drop,
>(
    alloc: Global,
    app: AppRule,
    mut world: Bounded<R, C, K>,
    mut sink: MemSink,
    port: u16,
) -> Outcome {
    let served = serve(
        alloc,
        &[app],
        &mut world,
        &AllowAll,
        &mut sink,
        port,
        MOST_ROUNDS,
    );
    Outcome {
        served,
        packets: world.packets(),
        sink,
    }
}

/// Runs the engine at a port, with a new switch child and the application.
fn run_at<
    R: Net + Processes<Started = SystemProcess> + Env + TimeSource + AllocGlobal + Clone + Drop,
>(rt: &R, scene: &Scene, port: u16) -> Result<Outcome, Trouble> {
    let alloc = rt.alloc();
    let app = usual_app(alloc, own_words(alloc, scene.app)?)?;
    let sink = MemSink::new(alloc, ROOM, &[])?;
    let bounds = Bounds {
        packets: scene.packets,
        seconds: MOST_SECONDS,
    };
    let clock = SteadyClock::new(rt.clone()?)?;
    let word = format!(in alloc; "{port}")?;
    let _switch = Player::start(rt, alloc, &[scene.switch, word.as_str()])?;
    let errors = MemSink::new(alloc, ROOM, &[])?;
    let live = LiveWorld::new(rt.clone()?, alloc, SteadyClock::new(rt.clone()?)?, errors)?;
    let world = Bounded::new(live, clock, bounds);
    Ok(outcome_of(alloc, app, world, sink, port))
}

/// Runs the trial at a free port, and at another one where that was taken meanwhile.
fn run_somewhere<
    R: Net + Processes<Started = SystemProcess> + Env + TimeSource + AllocGlobal + Clone + Drop,
>(rt: &R, scene: &Scene) -> Result<Outcome, Trouble> {
    for _ in 0..MOST_PORTS {
        let outcome = run_at(rt, scene, free_port(rt)?)?;
        if !matches!(outcome.served, Served::Shut) {
            return Ok(outcome);
        }
    }
    Err(Trouble::NoPort)
}

/// Runs the trial, and answers its report without what may differ from run to run.
pub(crate) fn show<
    R: Net + Processes<Started = SystemProcess> + Env + TimeSource + AllocGlobal + Clone + Drop,
>(rt: &R, scene: &Scene) -> Result<String, Trouble> {
    let outcome = run_somewhere(rt, scene)?;
    if !matches!(outcome.served, Served::Ended { .. }) {
        return Err(Trouble::Ended(outcome.served));
    }
    if outcome.packets < scene.packets {
        return Err(Trouble::Late(outcome.packets));
    }
    Ok(steady(rt.alloc(), outcome.sink.bytes())?)
}

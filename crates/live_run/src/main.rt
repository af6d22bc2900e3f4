//! Trials over the live world. Of the engine: a switch that connects over TCP and applications that are child programs, some
//! of which fail in the middle of a turn. And of the world by itself: an application that is restored at a checkpoint.
//!
//! The program is its own children: with the words of `demo_parts`, and two more (`both PORT`, `tear`), it plays a part.
//! Without words it runs the engine once for each of four applications, with a new switch each time, and writes the reports;
//! of the last line of each the moment is left out. Then it starts a child `learn`, restores it, gives it one event, and
//! writes what it gives, in hex, on a line.
#![tactic(auto)]

mod restored;
mod scene;
mod steady;
mod talk;
mod talk_trouble;
mod trouble;

use crate::restored::show_restored;
use crate::scene::{SCENES, show};
use demo_parts::{Arrival, Part, perform, play_part, play_switch};
use std::process::ExitCode;
use std::{env, io};

/// The status where the words name no part.
const NO_PART: u8 = 2;

/// The status where a trial failed.
const FAILED: u8 = 1;

/// Plays the part of the words, and answers the status.
fn play(rt: &HostRuntime, words: &[String]) -> u8 {
    match words {
        [word] if word.as_str() == "tear" => play_part(rt, Part::Tear { has_begun: false }),
        [word, port] if word.as_str() == "both" => match port.parse() {
            Ok(port) => play_switch(rt, port, Arrival::Together),
            Err(_) => NO_PART,
        },
        _ => perform(rt, words).unwrap_or(NO_PART),
    }
}

/// Runs the trials of the engine, and answers the status.
fn run_scenes(rt: &HostRuntime) -> io::Result<u8> {
    let mut status = 0;
    for scene in SCENES {
        let name = scene.app;
        println!(rt; "{name}")?;
        match show(rt, &scene) {
            Ok(report) => print!(rt; "{report}")?,
            Err(trouble) => {
                println!(rt; "{trouble}")?;
                status = FAILED;
            }
        }
    }
    Ok(status)
}

/// Restores an application, and answers the status.
fn run_restored(rt: &HostRuntime) -> io::Result<u8> {
    println!(rt; "learn, restored")?;
    match show_restored(rt) {
        Ok(text) => {
            println!(rt; "{text}")?;
            Ok(0)
        }
        Err(trouble) => {
            println!(rt; "{trouble}")?;
            Ok(FAILED)
        }
    }
}

/// Plays the part of the words; without words runs all trials. Answers the status.
fn run(rt: &HostRuntime) -> io::Result<u8> {
    let words: Vec<String> = env::args(rt)?.skip(1).collect(rt.alloc())?;
    if words.is_empty() {
        Ok(run_scenes(rt)?.max(run_restored(rt)?))
    } else {
        Ok(play(rt, &words))
    }
}

fn main(rt: HostRuntime) -> ExitCode {
    ExitCode::from(run(&rt).unwrap_or(FAILED))
}

//! Lists of stimuli and of scripts: what was pushed is found again.

use app_frames::ScriptStep;
use of_types::{ByteList, PortChange, Stimulus, WorldStim};
use session_lists::{ReplyList, StepList, StepRef, Steps, StimulusList};
use std::alloc::{AllocError, Global};
use std::test::Fail;

/// The bytes of a frame.
const FRAME: [u8; 3] = [1, 2, 3];

/// The bytes of a step.
const STEP: [u8; 2] = [1, 2];

/// How many stimuli there are.
const STIMULI: usize = 9;

/// The stimulus of a number: one of each kind, and the last moment of 32 bits and the one behind it.
fn stimulus(alloc: Global, number: usize) -> Result<WorldStim, AllocError> {
    Ok(match number {
        0 => WorldStim::Join(1),
        1 => WorldStim::At(4_294_967_295),
        2 => WorldStim::At(4_294_967_296),
        3 => {
            let bytes = ByteList::from_slice(alloc, &FRAME)?;
            WorldStim::Of(2, Stimulus::Frame { port: 9, bytes })
        }
        4 => WorldStim::Of(2, Stimulus::Advance(7)),
        5 => {
            let change = PortChange::Delete;
            WorldStim::Of(u64::MAX, Stimulus::Port { port: 8, change })
        }
        6 => WorldStim::Of(
            2,
            Stimulus::Counts {
                priority: 5,
                packets: 3,
                bytes: 300,
            },
        ),
        7 => WorldStim::Of(2, Stimulus::Raw(ByteList::new(alloc))),
        _ => WorldStim::Leave(1),
    })
}

/// Packs all of them.
fn push_all(alloc: Global, list: &mut StimulusList) -> Result<(), AllocError> {
    for number in 0..STIMULI {
        let stimulus = stimulus(alloc, number)?;
        let pushed = list.push(&stimulus);
        drop(stimulus);
        pushed?;
    }
    Ok(())
}

/// Whether it is the stimulus of a number.
fn is_stimulus(alloc: Global, found: &WorldStim, number: usize) -> Result<bool, AllocError> {
    let wanted = stimulus(alloc, number)?;
    let is_same = wanted == *found;
    drop(wanted);
    Ok(is_same)
}

/// Whether the stimulus of a number is found in its place.
fn is_found(alloc: Global, list: &StimulusList, number: usize) -> Result<bool, AllocError> {
    let Some(found) = list.get(alloc, number)? else {
        return Ok(false);
    };
    let is_stimulus = is_stimulus(alloc, &found, number);
    drop(found);
    is_stimulus
}

/// Whether each is found in its place when all are packed, and none behind them.
fn keeps_all(alloc: Global, list: &mut StimulusList) -> Result<bool, AllocError> {
    push_all(alloc, list)?;
    for number in 0..STIMULI {
        if !is_found(alloc, list, number)? {
            return Ok(false);
        }
    }
    Ok(list.len() == STIMULI && list.get(alloc, STIMULI)?.is_none())
}

/// Whether a new list keeps them.
fn are_found(alloc: Global) -> Result<bool, AllocError> {
    let mut list = StimulusList::new(alloc);
    let keeps_all = keeps_all(alloc, &mut list);
    drop(list);
    keeps_all
}

#[test]
fn stimuli_are_found_again(rt: HostRuntime) -> Result<(), Fail> {
    assert!(rt; are_found(rt.alloc())?);
    Ok(())
}

/// Adds the steps of a turn: two bytes, and the end.
fn push_steps(alloc: Global, script: &mut StepList) -> Result<(), AllocError> {
    let step = ScriptStep::Bytes(ByteList::from_slice(alloc, &STEP)?);
    let pushed = script.push(&step);
    drop(step);
    pushed?;
    script.push(&ScriptStep::Closed)
}

/// Whether these are the steps that [`push_steps`] adds.
fn is_script(steps: &Steps<'_>) -> bool {
    steps.len() == 2
        && matches!(steps.get(0), StepRef::Bytes([1, 2]))
        && matches!(steps.get(1), StepRef::Closed)
}

/// Adds a line without steps, and one with them.
fn push_lines(
    alloc: Global,
    list: &mut ReplyList,
    script: &mut StepList,
) -> Result<(), AllocError> {
    list.push(3, script)?;
    push_steps(alloc, script)?;
    list.push(4, script)
}

/// Whether two lines are found in their places, the first without steps.
fn has_lines(list: &ReplyList) -> bool {
    list.len() == 2 && list.app(1) == 4 && is_script(&list.steps(1)) && list.steps(0).len() == 0
}

/// Whether a new list keeps the lines.
fn keeps_replies(alloc: Global) -> Result<bool, AllocError> {
    let mut script = StepList::new(alloc);
    let mut list = ReplyList::new(alloc);
    let pushed = push_lines(alloc, &mut list, &mut script);
    let has_lines = has_lines(&list);
    drop(list);
    drop(script);
    pushed.and(Ok(has_lines))
}

#[test]
fn replies_are_found_again(rt: HostRuntime) -> Result<(), Fail> {
    assert!(rt; keeps_replies(rt.alloc())?);
    Ok(())
}

//! The whole text.

ghost use Rattle.std.specs.Prelude.{◌≡◌, ◌++◌, map, IfOk, OnOk, string_bytes};
ghost use Rattle.session_record.specs.Deeds.{deeds_in};
ghost use Rattle.session_record.specs.Lines.{lines_text, SwitchLine};
ghost use Rattle.session_record.specs.Recording.{fault_line};
ghost use Rattle.session_record.specs.Texts.{Spells, NextTold, AllTold};
ghost use Rattle.outside.specs.Seen.{Shown};

use crate::app_lines::push_apps;
use crate::line_words::{push_fault, push_switch};
use crate::log::Kept;
use crate::stimulus_lines::push_stimulus;
use of_types::{ByteList, Dpid};
use outside::{Decl, Told};
use std::alloc::{AllocError, Global};

/// Appends the lines of these switches.
#[tactic(auto, using(crate::specs::laws::PushLaws::pushed))]
fn push_switches(out: &mut String, switches: &[Decl]) -> Result<(), AllocError>
    ensures { OnOk result (string_bytes out.new ≡ string_bytes out.old ++ lines_text (map SwitchLine switches.now)) }
{
    for switch in switches {
        push_switch(out, switch)?;
    }
    Ok(())
}

/// Appends the lines of these losses.
#[tactic(auto, using(crate::specs::laws::PushLaws::pushed))]
fn push_faults(out: &mut String, losses: &[(Dpid, u64)]) -> Result<(), AllocError>
    ensures { OnOk result (string_bytes out.new ≡ string_bytes out.old ++ lines_text (map fault_line losses.now)) }
{
    for loss in losses {
        push_fault(out, loss.0, loss.1)?;
    }
    Ok(())
}

/// Appends the line of the stimulus of a number, and answers whether there is one.
fn push_next<W: Told>(
    alloc: Global,
    out: &mut String,
    world: &W,
    number: usize,
) -> Result<bool, AllocError>
    ensures { IfOk result (λ more. NextTold (Shown W.Tells (W.seen world.now)) (W.seen world.now) number more (string_bytes out.old) (string_bytes out.new)) }
{
    match world.stimulus(alloc, number)? {
        Some(stimulus) => {
            push_stimulus(alloc, out, &stimulus)?;
            Ok(true)
        }
        None => Ok(false),
    }
}

/// Appends the lines of all stimuli of a world.
fn push_stimuli<W: Told>(alloc: Global, out: &mut String, world: &W) -> Result<(), AllocError>
    ensures { OnOk result (AllTold (Shown W.Tells (W.seen world.now)) (W.seen world.now) (string_bytes out.old) (string_bytes out.new)) }
{
    for number in 0..usize::MAX {
        if !push_next(alloc, out, world, number)? {
            return Ok(());
        }
    }
    Err(AllocError)
}

/// Makes a text into the list of its bytes; takes no memory.
fn list_of(text: String) -> ByteList
    ensures { result ≡ string_bytes text }
{
    ByteList::from_vec(text.into_bytes())
}

/// Spells the session of these deeds and losses, over the switches and stimuli of a world.
pub(crate) fn whole_text<W: Told>(
    alloc: Global,
    world: &W,
    names: &[String],
    deeds: &[Kept],
    bytes: &[u8],
    losses: &[(Dpid, u64)],
) -> Result<ByteList, AllocError>
    ensures { IfOk result (λ text. Spells (Shown W.Tells (W.seen world.now)) (W.seen world.now) (map (λ s. string_bytes s) names.now) (deeds_in bytes.now deeds.now) losses.now text) }
{
    let mut out = String::from_str(alloc, "session 1\n")?;
    let switches = world.declared(alloc)?;
    push_switches(&mut out, &switches)?;
    push_apps(alloc, &mut out, names, deeds, bytes)?;
    push_faults(&mut out, losses)?;
    push_stimuli(alloc, &mut out, world)?;
    Ok(list_of(out))
}

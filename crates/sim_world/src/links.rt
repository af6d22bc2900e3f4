//! The switches of a simulated world.

ghost use Rattle.std.specs.Prelude.{◌≡◌, ◌≢◌, List, ℕ, ◌+◌, ◌-◌, ◌<◌, ◌≤◌, ◌∷◌, [], not, length, map, is_some, slice_get, IsOk, IfNone, IfOk, IfSome, OnOk, OnErr, if◌then◌else◌};
ghost use Rattle.std.specs.List.{AllByRecursion, insert};
ghost use Rattle.std.specs.Option.{option_to_list};
ghost use Rattle.of_types.specs.declared.journal.Stimulus.TheVariants.{Advance};
ghost use Rattle.of_wire.specs.Reading.{reading_of};
ghost use Rattle.outside.specs.declared.step.WorldStep.TheVariants.{From, Left};
ghost use Rattle.outside.specs.Conforming.{AreDeclaredFrom, IsStimulus, IsWorldStim};
ghost use Rattle.of_wire.specs.Handshake.{IsFeaturesOf};
ghost use Rattle.outside.specs.Seen.{is_declared};
ghost use Rattle.outside.specs.State.{is_empty, fails_in, join_due, links_after, link_of, switch_in, waits_in, with_link, link_joined, link_left, link_stimulated, link_sent, link_got, link_told, link_lost, link_failed, declared_in, waiting_in};
ghost use Rattle.sim_world.specs.Links.{links_in, insert_link, fails_at, features_of_join, IsDue, StandsAt, due_in, AreLinks, AreReady, insert_held, Held, StandsBy, MayCall, IsPlaceOf, IsFirstWaiting};

use crate::link::SimLink;
use of_types::{ByteList, Dpid, Stimulus, WorldStim};
use outside::{Decl, WorldStep};
use std::alloc::{AllocError, Global};
use std::marker::Model;

/// The declared switches of a world with their links, by their numbers, at most 64.
///
/// Contracts see a list of `Link`. A call for a number that is not declared changes nothing.
#[derive(Drop, Debug)]
pub struct Links {
    links: Vec<SimLink>,
}

impl Model for Links {
    ghost use Rattle.std.specs.Prelude.{List};
    ghost use Rattle.outside.specs.State.{Link};
    ghost use Rattle.sim_world.specs.Links.{links_in, AreLinks};

    ghost Value = { List Link };

    ghost view = { λ s. links_in s.links.items };

    ghost invariant = { λ s. AreLinks (links_in s.links.items) };
}

/// Finds where the switch of a number is held.
fn place_of(links: &[SimLink], dpid: Dpid) -> Option<usize>
    ensures { IsPlaceOf dpid links.now result }
{
    for (place, link) in links.iter().enumerate() {
        if link.dpid() == dpid {
            return Some(place);
        }
    }
    None
}

/// Finds where the first switch is held of which a message waits.
fn first_waiting(links: &[SimLink]) -> Option<usize>
    ensures { IsFirstWaiting links.now result }
{
    for (place, link) in links.iter().enumerate() {
        if link.has_waiting() {
            return Some(place);
        }
    }
    None
}

/// Finds the first switch of which a message waits.
fn waiting_switch(links: &[SimLink]) -> Option<Dpid>
    requires { AreDeclaredFrom 1 (declared_in (links_in links.now)) }
    ensures none { IfNone result (waiting_in (links_in links.now) ≡ []) }
    ensures some { IfSome result (λ dpid. waits_in (link_of dpid (links_in links.now)) ≢ []) }
    ensures next { IfSome result (λ dpid. (message : List ℕ) → slice_get (waits_in (link_of dpid (links_in links.now))) 0 ≡ Some message → slice_get (waiting_in (links_in links.now)) 0 ≡ Some (From dpid message)) }
{
    let place = first_waiting(links)?;
    Some(links[place].dpid())
}

/// Copies what the switches are declared to be, in order.
fn all_declared(alloc: Global, links: &[SimLink]) -> Result<Vec<Decl>, AllocError>
    ensures { IfOk result (λ all. all.items ≡ declared_in (links_in links.now)) }
{
    let mut all = Vec::with_capacity(alloc, links.len())?;
    for link in links {
        all.push(link.declared(alloc)?)?;
    }
    Ok(all)
}

fn is_held(links: &[SimLink], dpid: Dpid) -> bool
    ensures { result ≡ is_declared dpid (declared_in (links_in links.now)) }
{
    place_of(links, dpid).is_some()
}

fn is_joined(links: &[SimLink], dpid: Dpid) -> bool
    ensures { result ≡ is_some (switch_in (link_of dpid (links_in links.now))) }
{
    match place_of(links, dpid) {
        None => false,
        Some(place) => links[place].is_joined(),
    }
}

fn has_waiting(links: &[SimLink], dpid: Dpid) -> bool
    ensures { result ≡ not (is_empty (waits_in (link_of dpid (links_in links.now)))) }
{
    match place_of(links, dpid) {
        None => false,
        Some(place) => links[place].has_waiting(),
    }
}

fn is_failing(links: &[SimLink], dpid: Dpid) -> bool
    requires { IfSome (link_of dpid (links_in links.now)) MayCall }
    ensures { result ≡ fails_in (link_of dpid (links_in links.now)) }
{
    match place_of(links, dpid) {
        None => false,
        Some(place) => links[place].is_failing(),
    }
}

fn leave(links: &mut [SimLink], dpid: Dpid)
    ensures left { links_in links.new ≡ with_link dpid link_left (links_in links.old) }
    ensures declared { declared_in (links_in links.new) ≡ declared_in (links_in links.old) }
{
    if let Some(place) = place_of(links, dpid) {
        links[place].leave();
    }
}

fn lose(links: &mut [SimLink], dpid: Dpid)
    requires { IfSome (link_of dpid (links_in links.old)) MayCall }
    ensures lost { links_in links.new ≡ with_link dpid link_lost (links_in links.old) }
    ensures declared { declared_in (links_in links.new) ≡ declared_in (links_in links.old) }
{
    if let Some(place) = place_of(links, dpid) {
        links[place].lose();
    }
}

fn fail(links: &mut [SimLink], dpid: Dpid)
    requires { IfSome (link_of dpid (links_in links.old)) MayCall }
    ensures failed { links_in links.new ≡ with_link dpid link_failed (links_in links.old) }
    ensures declared { declared_in (links_in links.new) ≡ declared_in (links_in links.old) }
{
    if let Some(place) = place_of(links, dpid) {
        links[place].fail();
    }
}

fn got(links: &mut [SimLink], dpid: Dpid) -> Option<ByteList>
    requires { IfSome (link_of dpid (links_in links.old)) MayCall }
    ensures message { IfSome result (λ message. slice_get (waits_in (link_of dpid (links_in links.old))) 0 ≡ Some message) }
    ensures len { IfSome result (λ message. length message ≤ 65535) }
    ensures some { IfSome result (λ message. links_in links.new ≡ with_link dpid link_got (links_in links.old)) }
    ensures none { IfNone result ((waits_in (link_of dpid (links_in links.old)) ≡ []) × (links_in links.new ≡ links_in links.old)) }
    ensures declared { declared_in (links_in links.new) ≡ declared_in (links_in links.old) }
{
    let place = place_of(links, dpid)?;
    links[place].got()
}

fn told(links: &mut [SimLink]) -> Option<(Dpid, ByteList)>
    requires { AreDeclaredFrom 1 (declared_in (links_in links.old)) }
    ensures item { IfSome result (λ told. slice_get (waiting_in (links_in links.old)) 0 ≡ Some (From told.0 told.1)) }
    ensures len { IfSome result (λ told. length told.1 ≤ 65535) }
    ensures some { IfSome result (λ told. links_in links.new ≡ with_link told.0 link_told (links_in links.old)) }
    ensures none { IfNone result ((waiting_in (links_in links.old) ≡ []) × (links_in links.new ≡ links_in links.old)) }
    ensures declared { declared_in (links_in links.new) ≡ declared_in (links_in links.old) }
{
    let place = first_waiting(links)?;
    let dpid = links[place].dpid();
    let message = links[place].told()?;
    Some((dpid, message))
}

fn fail_at(links: &mut [SimLink], dpid: Dpid, number: u64) -> Result<(), AllocError>
    ensures ok { OnOk result (links_in links.new ≡ with_link dpid (fails_at number) (links_in links.old)) }
    ensures err { OnErr result (links_in links.new ≡ links_in links.old) }
    ensures declared { declared_in (links_in links.new) ≡ declared_in (links_in links.old) }
{
    match place_of(links, dpid) {
        None => Ok(()),
        Some(place) => links[place].fail_at(number),
    }
}

fn send(links: &mut [SimLink], dpid: Dpid, frame: &[u8]) -> Result<(), AllocError>
    requires frame { IsOk (reading_of frame.now) }
    requires may { IfSome (link_of dpid (links_in links.old)) MayCall }
    ensures ok { OnOk result (links_in links.new ≡ with_link dpid (link_sent frame.now) (links_in links.old)) }
    ensures err { OnErr result (links_in links.new ≡ links_in links.old) }
    ensures declared { declared_in (links_in links.new) ≡ declared_in (links_in links.old) }
{
    match place_of(links, dpid) {
        None => Ok(()),
        Some(place) => links[place].send(frame),
    }
}

fn stimulate(links: &mut [SimLink], dpid: Dpid, x: &Stimulus) -> Result<(), AllocError>
    requires stimulus { IsStimulus x.now }
    requires order { AreDeclaredFrom 1 (declared_in (links_in links.old)) }
    ensures ok { OnOk result (links_in links.new ≡ with_link dpid (link_stimulated x.now) (links_in links.old)) }
    ensures err { OnErr result (links_in links.new ≡ links_in links.old) }
    ensures few { length (waiting_in (links_in links.new)) ≤ length (waiting_in (links_in links.old)) + 262144 }
    ensures declared { declared_in (links_in links.new) ≡ declared_in (links_in links.old) }
{
    match place_of(links, dpid) {
        None => Ok(()),
        Some(place) => links[place].stimulate(x),
    }
}

fn join(links: &mut [SimLink], dpid: Dpid, moment: u64) -> Result<Option<ByteList>, AllocError>
    requires { moment ≤ 4294967295 }
    ensures told { IfOk result (λ features. features ≡ features_of_join moment (link_of dpid (links_in links.old))) }
    ensures own { IfOk result (λ features. IfSome features (IsFeaturesOf dpid)) }
    ensures short { IfOk result (λ features. IfSome features (λ bytes. length bytes ≤ 65535)) }
    ensures ok { OnOk result (links_in links.new ≡ with_link dpid (link_joined moment) (links_in links.old)) }
    ensures err { OnErr result (links_in links.new ≡ links_in links.old) }
    ensures declared { declared_in (links_in links.new) ≡ declared_in (links_in links.old) }
{
    match place_of(links, dpid) {
        None => Ok(None),
        Some(place) => links[place].join(moment),
    }
}

/// Makes all ready for a moment, which is before none of theirs.
fn prepare(links: &mut [SimLink], moment: u64) -> Result<(), AllocError>
    requires after { AllByRecursion (λ l. StandsBy moment l.switch) (links_in links.old) }
    requires within { moment ≤ 4294967295 }
    ensures same { links_in links.new ≡ links_in links.old }
    ensures ready { OnOk result (AreReady moment links.new) }
{
    for link in links.iter_mut() {
        link.prepare(moment)?;
    }
    Ok(())
}

/// Moves the moment of all on to the one for which they were made ready.
fn pass(links: &mut [SimLink], moment: u64)
    requires after { AllByRecursion (λ l. StandsBy moment l.switch) (links_in links.old) }
    requires within { moment ≤ 4294967295 }
    requires ready { AreReady moment links.old }
    ensures { links_in links.new ≡ map (link_stimulated (Advance moment)) (links_in links.old) }
{
    for link in links.iter_mut() {
        link.pass(moment);
    }
}

/// Moves the moment of all on, or of none where memory runs out.
fn advance(links: &mut [SimLink], moment: u64) -> Result<(), AllocError>
    requires after { AllByRecursion (λ l. StandsBy moment l.switch) (links_in links.old) }
    requires within { moment ≤ 4294967295 }
    requires links { AreLinks (links_in links.old) }
    ensures ok { OnOk result (links_in links.new ≡ map (link_stimulated (Advance moment)) (links_in links.old)) }
    ensures err { OnErr result (links_in links.new ≡ links_in links.old) }
    ensures few { length (waiting_in (links_in links.new)) ≤ length (waiting_in (links_in links.old)) + 262144 }
    ensures declared { declared_in (links_in links.new) ≡ declared_in (links_in links.old) }
{
    prepare(links, moment)?;
    pass(links, moment);
    Ok(())
}

/// Finds where a switch of a number stands among others.
fn place_for(links: &[SimLink], dpid: Dpid) -> usize
    ensures within { result ≤ length links.now }
    ensures place { (h : Held) → h.link.declared.dpid ≡ dpid → insert_held h links.now ≡ insert links.now result h }
{
    for (place, link) in links.iter().enumerate() {
        if dpid < link.dpid() {
            return place;
        }
    }
    links.len()
}

/// Puts a switch among others by its number.
fn insert(links: &mut Vec<SimLink>, link: SimLink) -> Result<(), AllocError>
    ensures ok { OnOk result (links_in links.new.items ≡ insert_link link.link (links_in links.old.items)) }
    ensures err { OnErr result (links_in links.new.items ≡ links_in links.old.items) }
{
    let place = place_for(links, link.dpid());
    links.insert(place, link)?;
    Ok(())
}

impl Links {
    /// Returns a list of no switches; takes no memory.
    pub fn new(alloc: Global) -> Links
        ensures { result ≡ [] }
    {
        Links {
            links: Vec::new(alloc),
        }
    }

    /// Tells how many switches are declared.
    pub fn len(&self) -> usize
        ensures { result ≡ length self.now }
    {
        self.links.len()
    }

    /// Declares one switch more, of a number from 1 on that is not declared, whose table takes at most 4,096 entries;
    /// fewer than 64 are declared. After want of memory the others are as before.
    pub fn insert(&mut self, link: SimLink) -> Result<(), AllocError>
        requires number { 1 ≤ link.link.declared.dpid }
        requires cap { link.link.declared.cap ≤ 4096 }
        requires absent { link_of link.link.declared.dpid self.old ≡ None }
        requires room { length self.old < 64 }
        ensures ok { OnOk result (self.new ≡ insert_link link.link self.old) }
        ensures err { OnErr result (self.new ≡ self.old) }
    {
        insert(&mut self.links, link)
    }

    /// Copies what the switches are declared to be, in order.
    pub fn declared(&self, alloc: Global) -> Result<Vec<Decl>, AllocError>
        ensures { IfOk result (λ all. all.items ≡ declared_in self.now) }
    {
        all_declared(alloc, &self.links)
    }

    /// Finds that the switches stand by number, as their type says.
    pub fn are_in_order(&self)
        ensures order { AreDeclaredFrom 1 (declared_in self.now) }
        ensures few { length self.now ≤ 64 }
    {
        let _links = &self.links;
    }

    /// Tells whether the switch is joined.
    pub fn is_joined(&self, dpid: Dpid) -> bool
        ensures { result ≡ is_some (switch_in (link_of dpid self.now)) }
    {
        is_joined(&self.links, dpid)
    }

    /// Tells whether a message of the switch waits.
    pub fn has_waiting(&self, dpid: Dpid) -> bool
        ensures { result ≡ not (is_empty (waits_in (link_of dpid self.now))) }
    {
        has_waiting(&self.links, dpid)
    }

    /// Returns the switch with the lowest number of which a message waits.
    pub fn first_waiting(&self) -> Option<Dpid>
        ensures none { IfNone result (waiting_in self.now ≡ []) }
        ensures some { IfSome result (λ dpid. waits_in (link_of dpid self.now) ≢ []) }
        ensures next { IfSome result (λ dpid. (message : List ℕ) → slice_get (waits_in (link_of dpid self.now)) 0 ≡ Some message → slice_get (waiting_in self.now) 0 ≡ Some (From dpid message)) }
    {
        let _links = &self.links;
        waiting_switch(&self.links)
    }

    /// Tells whether a switch of this number is declared.
    pub fn is_declared(&self, dpid: Dpid) -> bool
        ensures { result ≡ is_declared dpid (declared_in self.now) }
    {
        is_held(&self.links, dpid)
    }

    /// Tells whether the next call of the switch's link is to fail.
    pub fn is_failing(&self, dpid: Dpid) -> bool
        requires { IfSome (link_of dpid self.now) MayCall }
        ensures { result ≡ fails_in (link_of dpid self.now) }
    {
        is_failing(&self.links, dpid)
    }

    /// Tells the call of the switch's link with this number, counted from 1, to fail.
    pub fn fail_at(&mut self, dpid: Dpid, number: u64) -> Result<(), AllocError>
        ensures ok { OnOk result (self.new ≡ with_link dpid (fails_at number) self.old) }
        ensures err { OnErr result (self.new ≡ self.old) }
    {
        fail_at(&mut self.links, dpid, number)
    }

    /// Notes that a call of the switch's link failed while it was joined: it is lost, with all that it held. Takes no memory.
    pub fn lose(&mut self, dpid: Dpid)
        requires { IfSome (link_of dpid self.old) MayCall }
        ensures { self.new ≡ with_link dpid link_lost self.old }
    {
        lose(&mut self.links, dpid);
    }

    /// Notes that a call of the switch's link failed while it was out; takes no memory.
    pub fn fail(&mut self, dpid: Dpid)
        requires { IfSome (link_of dpid self.old) MayCall }
        ensures { self.new ≡ with_link dpid link_failed self.old }
    {
        fail(&mut self.links, dpid);
    }

    /// Sends a frame that spells a message to the switch. After want of memory all is as before.
    pub fn send(&mut self, dpid: Dpid, frame: &[u8]) -> Result<(), AllocError>
        requires frame { IsOk (reading_of frame.now) }
        requires may { IfSome (link_of dpid self.old) MayCall }
        ensures ok { OnOk result (self.new ≡ with_link dpid (link_sent frame.now) self.old) }
        ensures err { OnErr result (self.new ≡ self.old) }
    {
        send(&mut self.links, dpid, frame)
    }

    /// Takes the oldest message of the switch that waits, by a call of its link; takes no memory. Where none waits,
    /// nothing is counted.
    pub fn got(&mut self, dpid: Dpid) -> Option<ByteList>
        requires { IfSome (link_of dpid self.old) MayCall }
        ensures message { IfSome result (λ message. slice_get (waits_in (link_of dpid self.old)) 0 ≡ Some message) }
        ensures len { IfSome result (λ message. length message ≤ 65535) }
        ensures some { IfSome result (λ message. self.new ≡ with_link dpid link_got self.old) }
        ensures none { IfNone result ((waits_in (link_of dpid self.old) ≡ []) × (self.new ≡ self.old)) }
    {
        got(&mut self.links, dpid)
    }

    /// Takes the message that is told next, with its switch: the oldest one of the lowest number; takes no memory.
    pub fn told(&mut self) -> Option<(Dpid, ByteList)>
        ensures item { IfSome result (λ told. slice_get (waiting_in self.old) 0 ≡ Some (From told.0 told.1)) }
        ensures len { IfSome result (λ told. length told.1 ≤ 65535) }
        ensures some { IfSome result (λ told. self.new ≡ with_link told.0 link_told self.old) }
        ensures none { IfNone result ((waiting_in self.old ≡ []) × (self.new ≡ self.old)) }
    {
        told(&mut self.links)
    }

    /// Lets the switch join at a moment, in seconds and at most 4,294,967,295, where it is out; gives its
    /// FEATURES_REPLY then, of at most 65,535 bytes. After want of memory all is as before.
    pub fn join(&mut self, dpid: Dpid, moment: u64) -> Result<Option<ByteList>, AllocError>
        requires { moment ≤ 4294967295 }
        ensures told { IfOk result (λ features. features ≡ features_of_join moment (link_of dpid self.old)) }
        ensures own { IfOk result (λ features. IfSome features (IsFeaturesOf dpid)) }
        ensures short { IfOk result (λ features. IfSome features (λ bytes. length bytes ≤ 65535)) }
        ensures ok { OnOk result (self.new ≡ with_link dpid (link_joined moment) self.old) }
        ensures err { OnErr result (self.new ≡ self.old) }
    {
        join(&mut self.links, dpid, moment)
    }

    /// Lets the switch leave, with all that it held; takes no memory.
    pub fn leave(&mut self, dpid: Dpid)
        ensures { self.new ≡ with_link dpid link_left self.old }
    {
        leave(&mut self.links, dpid);
    }

    /// Lets something happen to the switch, where it is joined. After want of memory all is as before.
    pub fn stimulate(&mut self, dpid: Dpid, x: &Stimulus) -> Result<(), AllocError>
        requires { IsStimulus x.now }
        ensures ok { OnOk result (self.new ≡ with_link dpid (link_stimulated x.now) self.old) }
        ensures err { OnErr result (self.new ≡ self.old) }
        ensures few { length (waiting_in self.new) ≤ length (waiting_in self.old) + 262144 }
    {
        stimulate(&mut self.links, dpid, x)
    }

    /// Moves the moment of all on that are joined, in seconds, not before the last and at most 4,294,967,295. After
    /// want of memory all are as before.
    pub fn advance(&mut self, moment: u64) -> Result<(), AllocError>
        requires after { AllByRecursion (λ l. StandsBy moment l.switch) self.old }
        requires within { moment ≤ 4294967295 }
        ensures ok { OnOk result (self.new ≡ map (link_stimulated (Advance moment)) self.old) }
        ensures err { OnErr result (self.new ≡ self.old) }
        ensures few { length (waiting_in self.new) ≤ length (waiting_in self.old) + 262144 }
    {
        advance(&mut self.links, moment)
    }

    /// Lets the switch join, and returns what that makes due.
    #[tactic(auto, unfolding(crate::specs::Links::IsDue))]
    fn begin_join(&mut self, dpid: Dpid, moment: u64) -> Result<Option<WorldStep>, AllocError>
        requires { moment ≤ 4294967295 }
        ensures due { IfOk result (λ step. join_due dpid moment (link_of dpid self.old) ≡ option_to_list step) }
        ensures fits { IfOk result (λ step. IfSome step IsDue) }
        ensures ok { OnOk result (self.new ≡ with_link dpid (link_joined moment) self.old) }
        ensures err { OnErr result (self.new ≡ self.old) }
    {
        match self.join(dpid, moment)? {
            None => Ok(None),
            Some(features) => Ok(Some(WorldStep::Joined(dpid, features))),
        }
    }

    /// Lets the switch leave, and returns what that makes due.
    #[tactic(auto, unfolding(crate::specs::Links::IsDue))]
    fn begin_leave(&mut self, dpid: Dpid) -> Option<WorldStep>
        ensures due { (if is_some (switch_in (link_of dpid self.old)) then Left dpid ∷ [] else []) ≡ option_to_list result }
        ensures fits { IfSome result IsDue }
        ensures left { self.new ≡ with_link dpid link_left self.old }
    {
        let was_joined = self.is_joined(dpid);
        self.leave(dpid);
        if was_joined {
            Some(WorldStep::Left(dpid))
        } else {
            None
        }
    }

    /// Begins a stimulus at the moment at which all stand that are joined; gives the item that it makes due beside
    /// messages. After want of memory all is as before.
    ///
    /// The stimulus is of a declared switch, and a moment is not before the last and at most 4,294,967,295 seconds.
    #[tactic(auto, unfolding(outside::specs::Conforming::IsWorldStim, crate::specs::Links::IsDue))]
    pub fn begin(&mut self, x: &WorldStim, moment: u64) -> Result<Option<WorldStep>, AllocError>
        requires stimulus { IsWorldStim (declared_in self.old) moment x.now }
        requires stand { AllByRecursion (λ l. StandsAt moment l.switch) self.old }
        requires within { moment ≤ 4294967295 }
        ensures due { IfOk result (λ step. due_in x.now moment self.old ≡ option_to_list step) }
        ensures fits { IfOk result (λ step. IfSome step IsDue) }
        ensures ok { OnOk result (self.new ≡ links_after x.now moment self.old) }
        ensures err { OnErr result (self.new ≡ self.old) }
        ensures few { length (waiting_in self.new) ≤ length (waiting_in self.old) + 262144 }
    {
        match x {
            WorldStim::Join(dpid) => self.begin_join(*dpid, moment),
            WorldStim::Leave(dpid) => Ok(self.begin_leave(*dpid)),
            WorldStim::At(next) => {
                self.advance(*next)?;
                Ok(Some(WorldStep::Moment(*next)))
            }
            WorldStim::Of(dpid, x) => {
                self.stimulate(*dpid, x)?;
                Ok(None)
            }
        }
    }
}

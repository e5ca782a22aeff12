//! What the ends of a pair tell, by what is kept of it and of its owners.
ghost use Rattle.std.specs.Prelude.{◌≡◌, ℕ, ◌<◌, ◌||◌, length, nat_lt, List};
ghost use Rattle.flat_scene.specs.declared.setup.Setup.{Setup};
ghost use Rattle.flat_scene.specs.declared.journal.Entry.{Entry};
ghost use Rattle.flat_rules.specs.Ends.{is_viewport_lost, to_finished, view_uses, viewport_owner};
ghost use Rattle.flat_links.specs.SessionLinks.{AreLinked, IsLastSeenAtBegin};
ghost use Rattle.flat_rules.specs.Legal.{Legal};
ghost use Rattle.flat_rules.specs.Stamps.{is_seen};
ghost use Rattle.flat_rules.specs.Shown.{is_pair};
ghost use Rattle.std.specs.Option.{option_or};
ghost use Rattle.flat_rules.specs.Watch.{are_joined, props_told, told, layout_of, status_of, child_of, ratio_told};
ghost use Rattle.flat_states.specs.Ports.{port_of};

use crate::link_table::LinkTable;
use crate::linked_sessions::NOTHING;
use crate::session_links::SeenAtBegin;
use crate::told::{child_by, layout_by, status_by};
use flat_base::{Actor, PairNo, SessionNo};
use flat_facts::stamps::is_seen;
use flat_scene::{Setup, ViewportProps, WatcherValue};
use flat_states::port::DisplayPort;

/// Whether an end is lost, by its owner and by the stamp of what loses it.
fn is_lost(owner: SeenAtBegin, stamp: Option<u32>) -> bool
    ensures { result ≡ (owner.closed || is_seen stamp owner.taken) }
{
    owner.closed || is_seen(stamp, owner.taken)
}

fn is_pair(pair: Option<PairNo>, p: PairNo) -> bool
    ensures { result ≡ is_pair pair p }
{
    match pair {
        Some(q) => q.0 == p.0,
        None => false,
    }
}

/// The properties that were seen last, or else those given.
fn latest(seen: Option<ViewportProps>, given: Option<ViewportProps>) -> Option<ViewportProps>
    ensures { result ≡ option_or seen given }
{
    match seen {
        Some(props) => Some(props),
        None => given,
    }
}

impl LinkTable {
    /// What the begin of the last finished frame saw of a session.
    fn last_seen_at_begin(&self, s: SessionNo) -> SeenAtBegin
        ensures { (setup : Setup) (h : List Entry)
            → AreLinked setup h self.now.linked_sessions.items
            self.now.pairs.items → Legal setup h → IsLastSeenAtBegin setup h s result }
    {
        if s.0 == 0 {
            return NOTHING;
        }
        let place = s.0 as usize - 1;
        if place >= self.linked_sessions.len() {
            return NOTHING;
        }
        self.linked_sessions.at(place).finished
    }

    /// Whether the viewport end of a pair is lost for its view.
    fn is_viewport_lost(&self, setup: &Setup, p: PairNo) -> bool
        requires known { p.0 < length setup.now.pairs }
        requires kept { p.0 < length self.now.pairs.items }
        ensures { (h : List Entry) → AreLinked setup.now h self.now.linked_sessions.items
            self.now.pairs.items → Legal setup.now h → result
            ≡ is_viewport_lost setup.now (to_finished h) p }
    {
        match setup.pairs.at(p.0 as usize).viewport {
            Actor::Session(v) => is_lost(self.last_seen_at_begin(v), self.pairs.state(p).cleared),
            _ => false,
        }
    }

    /// Whether both ends were used, where it is known of the view end.
    fn are_joined(&self, setup: &Setup, p: PairNo, is_viewed: bool) -> bool
        requires known { p.0 < length setup.now.pairs }
        requires kept { p.0 < length self.now.pairs.items }
        ensures { (h : List Entry) → AreLinked setup.now h self.now.linked_sessions.items
            self.now.pairs.items → is_viewed ≡ nat_lt 0 (length (view_uses p h)) → result
            ≡ are_joined setup.now h p }
    {
        is_viewed
            && match setup.pairs.at(p.0 as usize).viewport {
                Actor::Display => true,
                _ => self.pairs.state(p).given.is_some(),
            }
    }

    /// The properties of the viewport that the last use made, or those of the display.
    fn props(&self, setup: &Setup, port: DisplayPort, p: PairNo) -> Option<ViewportProps>
        requires known { p.0 < length setup.now.pairs }
        requires kept { p.0 < length self.now.pairs.items }
        ensures { (h : List Entry) → AreLinked setup.now h self.now.linked_sessions.items
            self.now.pairs.items → port ≡ port_of (ratio_told setup.now h) setup.now → result
            ≡ props_told setup.now (viewport_owner setup.now p) h p }
    {
        match setup.pairs.at(p.0 as usize).viewport {
            Actor::Display => Some(port.props),
            Actor::Session(_) => {
                let state = self.pairs.state(p);
                latest(state.seen, state.given)
            }
            Actor::Probe(_) => None,
        }
    }

    /// The layout of a pair's view, where it is known whether its view end was used,
    /// and what is told of the display.
    pub fn layout(
        &self,
        setup: &Setup,
        port: DisplayPort,
        p: PairNo,
        is_viewed: bool,
    ) -> Option<WatcherValue>
        requires known { p.0 < length setup.now.pairs }
        requires kept { p.0 < length self.now.pairs.items }
        ensures { (h : List Entry) → AreLinked setup.now h self.now.linked_sessions.items
            self.now.pairs.items → Legal setup.now h → port
            ≡ port_of (ratio_told setup.now h) setup.now → is_viewed
            ≡ nat_lt 0 (length (view_uses p h)) → result ≡ told setup.now h (layout_of p) }
    {
        layout_by(
            port.ratio,
            self.is_viewport_lost(setup, p),
            self.are_joined(setup, p, is_viewed),
            self.props(setup, port, p),
        )
    }

    /// The status of a pair's view, where it is known whether its view end was used.
    pub fn status(&self, setup: &Setup, p: PairNo, is_viewed: bool) -> Option<WatcherValue>
        requires known { p.0 < length setup.now.pairs }
        requires kept { p.0 < length self.now.pairs.items }
        ensures { (h : List Entry) → AreLinked setup.now h self.now.linked_sessions.items
            self.now.pairs.items → Legal setup.now h → is_viewed
            ≡ nat_lt 0 (length (view_uses p h)) → result ≡ told setup.now h (status_of p) }
    {
        let owner = self.last_seen_at_begin(setup.pairs.at(p.0 as usize).view);
        status_by(
            self.is_viewport_lost(setup, p),
            self.are_joined(setup, p, is_viewed),
            is_pair(owner.view, p) && owner.connected,
        )
    }

    /// Whether the child of a pair's viewports has presented; the same for each use.
    pub fn child(&self, setup: &Setup, p: PairNo) -> Option<WatcherValue>
        requires known { p.0 < length setup.now.pairs }
        requires kept { p.0 < length self.now.pairs.items }
        ensures { (h : List Entry) (n : ℕ) → AreLinked setup.now h self.now.linked_sessions.items
            self.now.pairs.items → Legal setup.now h → result ≡ told setup.now h (child_of p n) }
    {
        let owner = self.last_seen_at_begin(setup.pairs.at(p.0 as usize).view);
        child_by(
            is_lost(owner, self.pairs.state(p).ended),
            is_pair(owner.view, p),
        )
    }
}

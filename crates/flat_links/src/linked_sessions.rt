ghost use Rattle.std.specs.Prelude.{◌≡◌, ◌+◌, ◌<◌, ℕ, All, false, IfOk, None, is_some, length, replicate};
ghost use Rattle.std.specs.Prelude.{slice_index_or, slice_set};
ghost use Rattle.flat_topology.specs.Fit.{FitsSetup};
ghost use Rattle.flat_topology.specs.Join.{is_joined};
ghost use Rattle.flat_links.specs.SessionLinks.{KeptSessionLinks, new_session_links};
ghost use Rattle.flat_links.specs.Hearing.{IsCalm};

use crate::session_links::{SeenAtBegin, SessionLinks};
use flat_base::NoMemory;
use flat_join::{ShownStates, pair_of_display};
use flat_scene::Setup;
use std::alloc::Global;
use std::marker::Model;

/// What a history without a frame says of a session.
pub const NOTHING: SeenAtBegin = SeenAtBegin {
    closed: false,
    taken: 0,
    view: None,
    connected: false,
};

const NEW_SESSION_LINKS: SessionLinks = SessionLinks {
    contents: 0,
    losing: None,
    begun: NOTHING,
    finished: NOTHING,
};

/// What is kept of all sessions, the first of them session 1, with room to find those
/// that are connected.
#[derive(Drop)]
pub struct LinkedSessions {
    each: Vec<SessionLinks>,
    /// As it was found last: through how many others each session is connected to the
    /// display; None where it isn't.
    distances: Vec<Option<usize>>,
}

impl Model for LinkedSessions {
    ghost use Rattle.std.specs.Prelude.{◌≡◌, length};
    ghost use Rattle.flat_links.specs.SessionLinks.{KeptSessionLinks};

    ghost Value = { KeptSessionLinks };

    ghost view = { λ f. record { items = f.each.items; distances = f.distances.items } };

    ghost invariant = { λ f. length f.distances.items ≡ length f.each.items };
}

impl LinkedSessions {
    /// So many sessions, to which nothing happened. The room is taken here.
    pub fn new(alloc: Global, sessions: u32) -> Result<LinkedSessions, NoMemory>
        ensures { IfOk result (λ linked_sessions. linked_sessions.items
            ≡ replicate sessions new_session_links) }
    {
        let each = Vec::from_elem(alloc, NEW_SESSION_LINKS, sessions as usize)?;
        let distances = Vec::from_elem(alloc, None, sessions as usize)?;
        Ok(LinkedSessions { each, distances })
    }

    /// How many sessions there are.
    pub fn len(&self) -> usize
        ensures { result ≡ length self.now.items }
    {
        self.each.len()
    }

    /// What is kept of the session at a place.
    pub fn at(&self, place: usize) -> SessionLinks
        requires { place < length self.now.items }
        ensures { result ≡ slice_index_or self.now.items place result }
    {
        self.each[place]
    }

    /// Keeps this of the session at a place.
    pub fn set(&mut self, place: usize, session_links: SessionLinks)
        requires { place < length self.old.items }
        ensures items { self.new.items ≡ slice_set self.old.items place session_links }
        ensures distances { self.new.distances ≡ self.old.distances }
    {
        self.each[place] = session_links;
    }

    /// Finds the sessions that are connected to the display, by what is shown. It
    /// takes no memory.
    pub fn find_connected(&mut self, setup: &Setup, shown: &ShownStates)
        requires made { length shown.now ≡ setup.now.sessions }
        requires all { length self.old.items ≡ length shown.now }
        requires fit { FitsSetup setup.now shown.now }
        ensures items { self.new.items ≡ self.old.items }
        ensures connected { (i : ℕ) → is_some (slice_index_or self.new.distances i None)
            ≡ is_joined setup.now shown.now (i + 1) }
    {
        let display = pair_of_display(setup);
        shown.find_connected(setup, display, self.distances.as_mut_slice());
    }

    /// Whether what the begun frame saw of one of them tells others something anew.
    pub fn may_tell(&self) -> bool
        ensures { result ≡ false → All IsCalm self.now.items }
    {
        self.each.iter().any(|one| one.may_tell())
    }

    /// Whether the session at a place was found to be connected.
    pub fn is_connected(&self, place: usize) -> bool
        requires { place < length self.now.items }
        ensures { result ≡ is_some (slice_index_or self.now.distances place None) }
    {
        self.distances[place].is_some()
    }
}

ghost use Rattle.std.specs.Prelude.{◌≡◌, ◌==◌, ◌+◌, ◌-◌, ◌^◌, ◌<◌, ◌≤◌, ◌↔◌, ℕ, Some, None, IsTrue, length, is_some};
ghost use Rattle.std.specs.Prelude.{slice_index_or};
ghost use Rattle.std.specs.List.{list_any};
ghost use Rattle.flat_snap.specs.Flat.{flat_nodes};
ghost use Rattle.flat_topology.specs.Fit.{FitsSetup};
ghost use Rattle.flat_topology.specs.Pairs.{display_pair};
ghost use Rattle.flat_topology.specs.Join.{is_joined};
ghost use Rattle.flat_join.specs.Distances.{AreDistances, IsFinding, NotesViews, leads_to};
ghost use Rattle.flat_topology.specs.Shown.{is_shown_by};

use crate::join_walk::shows;
use crate::shown_states::ShownStates;
use flat_base::SessionNo;
use flat_scene::{Content, Setup};
use flat_snap::Snapshot;
use flat_topology::links_make_a_tree;

/// Notes this distance of the session that shows the view of a pair.
fn note_view(
    shown: &ShownStates,
    setup: &Setup,
    pair: usize,
    distance: usize,
    distances: &mut [Option<usize>],
)
    requires all { length distances.old ≡ length shown.now }
    requires fit { FitsSetup setup.now shown.now }
    ensures { NotesViews shown.now (λ p. pair == p) distance distances.old distances.new }
{
    let Some(declared) = setup.pairs.as_slice().get(pair) else {
        return;
    };
    let session = declared.view;
    if session.0 == 0 || session.0 as usize > shown.sessions() {
        return;
    }
    if shows(shown, session, pair) {
        distances[session.0 as usize - 1] = Some(distance);
    }
}

/// Notes this distance of the session that hangs below a viewport; none does below
/// another content.
fn note_linked(
    shown: &ShownStates,
    setup: &Setup,
    content: Option<Content>,
    distance: usize,
    distances: &mut [Option<usize>],
)
    requires all { length distances.old ≡ length shown.now }
    requires fit { FitsSetup setup.now shown.now }
    ensures { NotesViews shown.now (λ p. leads_to p content) distance distances.old distances.new }
{
    if let Some(Content::Viewport { pair, .. }) = content {
        note_view(shown, setup, pair.0 as usize, distance, distances);
    }
}

/// Notes this distance of the sessions that hang below the viewports of a session,
/// whose state this is.
fn note_viewports(
    shown: &ShownStates,
    setup: &Setup,
    state: &Snapshot,
    distance: usize,
    distances: &mut [Option<usize>],
)
    requires all { length distances.old ≡ length shown.now }
    requires fit { FitsSetup setup.now shown.now }
    ensures { NotesViews shown.now (λ p. list_any (λ n. leads_to p n.content)
        (flat_nodes state.now)) distance distances.old distances.new }
{
    let places = state.viewport_nodes();
    for &i in places {
        note_linked(shown, setup, state.node(i).content, distance, distances);
    }
}

/// Notes this distance of the sessions that hang below a session.
fn note_below(
    shown: &ShownStates,
    setup: &Setup,
    session: SessionNo,
    distance: usize,
    distances: &mut [Option<usize>],
)
    requires some { 0 < session.0 }
    requires few { session.0 ≤ length shown.now }
    requires all { length distances.old ≡ length shown.now }
    requires fit { FitsSetup setup.now shown.now }
    ensures { NotesViews shown.now (λ p. is_shown_by shown.now p session.0) distance distances.old
        distances.new }
{
    match shown.state(session) {
        Some(state) => note_viewports(shown, setup, state, distance, distances),
        None => {}
    }
}

fn is_at(noted: Option<usize>, distance: usize) -> bool
    ensures { IsTrue result ↔ (noted ≡ Some distance) }
{
    noted == Some(distance)
}

/// Notes the sessions that hang below the session at a place, if it is at this
/// distance.
fn note_place(
    shown: &ShownStates,
    setup: &Setup,
    i: u32,
    distance: usize,
    distances: &mut [Option<usize>],
)
    requires made { length shown.now ≡ setup.now.sessions }
    requires within { i < setup.now.sessions }
    requires fits { i < 2 ^ 32 - 1 }
    requires far { distance < length shown.now }
    requires fit { FitsSetup setup.now shown.now }
    requires known { IsFinding setup.now shown.now distance i distances.old }
    ensures { IsFinding setup.now shown.now distance (i + 1) distances.new }
{
    if is_at(distances[i as usize], distance) {
        note_below(shown, setup, SessionNo(i + 1), distance + 1, distances);
    }
}

/// Notes the sessions that hang below those at this distance, which are known.
fn note_round(shown: &ShownStates, setup: &Setup, distance: usize, distances: &mut [Option<usize>])
    requires made { length shown.now ≡ setup.now.sessions }
    requires far { distance < length shown.now }
    requires fit { FitsSetup setup.now shown.now }
    requires known { IsFinding setup.now shown.now distance 0 distances.old }
    ensures { IsFinding setup.now shown.now (distance + 1) 0 distances.new }
{
    for i in 0..setup.sessions {
        note_place(shown, setup, i, distance, distances);
    }
}

/// Notes the session whose view is the display's, and none else.
fn note_top(
    shown: &ShownStates,
    setup: &Setup,
    display: Option<usize>,
    distances: &mut [Option<usize>],
)
    requires display { display ≡ display_pair setup.now }
    requires all { length distances.old ≡ length shown.now }
    requires fit { FitsSetup setup.now shown.now }
    ensures { IsFinding setup.now shown.now 0 0 distances.new }
{
    for distance in distances.iter_mut() {
        *distance = None;
    }
    if let Some(pair) = display {
        note_view(shown, setup, pair, 0, distances);
    }
}

impl ShownStates {
    /// Finds the sessions that are connected to the display, from the display down:
    /// the viewports of each of them are looked at once. Of each session it notes
    /// through how many others it is connected; None where it isn't. It takes no
    /// memory.
    pub fn find_connected(
        &self,
        setup: &Setup,
        display: Option<usize>,
        distances: &mut [Option<usize>],
    )
        requires display { display ≡ display_pair setup.now }
        requires made { length self.now ≡ setup.now.sessions }
        requires all { length distances.old ≡ length self.now }
        requires fit { FitsSetup setup.now self.now }
        ensures all { length distances.new ≡ length distances.old }
        ensures distances { AreDistances setup.now self.now distances.new }
        ensures connected { (s : ℕ) → is_some (slice_index_or distances.new s None)
            ≡ is_joined setup.now self.now (s + 1) }
    {
        links_make_a_tree();
        note_top(self, setup, display, distances);
        for distance in 0..self.sessions() {
            note_round(self, setup, distance, distances);
        }
    }
}

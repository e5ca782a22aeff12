//! What an entry of a session does to what is kept of its viewports, and to links.
ghost use Rattle.std.specs.Prelude.{◌≡◌, ◌<◌, ◌≤◌, ◌==◌, not, All, false, length};
ghost use Rattle.std.specs.Prelude.{true, vec_capacity, IfOk};
ghost use Rattle.std.specs.List.{list_any};
ghost use Rattle.flat_states.specs.declared.state.SessionState.{SessionState};
ghost use Rattle.flat_rules.specs.Legal.{all_but_last};
ghost use Rattle.flat_facts.specs.Lives.{uses_last};
ghost use Rattle.flat_scene.specs.History.{closes};
ghost use Rattle.flat_states.specs.Presents.{entered_in, IsPlaced};
ghost use Rattle.flat_links.specs.AllEnds.{IsHeard, IsUsed, EndsEntered};
ghost use Rattle.flat_links.specs.AllEnds.{LinksNoted, LinksUsed, HasNone};
ghost use Rattle.flat_facts.specs.Lives.{is_new_viewport};

use crate::link_table::LinkTable;
use crate::viewports::{Viewports, is_out};
use flat_base::{Actor, NoMemory, PairNo, SessionNo};
use flat_scene::{Call, Entry, ViewportProps};
use flat_states::replies::{closes, note_entry};
use flat_states::state::SessionState;
use std::alloc::Global;

/// A viewport that an entry makes.
#[derive(Clone, Copy)]
pub struct NewViewport {
    /// The pair whose viewport end it uses.
    pub pair: PairNo,
    pub props: ViewportProps,
}

/// What is kept of sessions' viewports before any entry.
pub fn new_ends(alloc: Global, n: u32) -> Result<Vec<Viewports>, NoMemory>
    ensures count { IfOk result (λ ends. length ends.items ≡ n) }
    ensures none { IfOk result (λ ends. All HasNone ends.items) }
{
    let mut ends = Vec::with_capacity(alloc, n as usize)?;
    for _ in 0..n {
        ends.push_reserved(Viewports::new(alloc));
    }
    Ok(ends)
}

/// Notes the calls of an entry by the links of its session, where that is open.
fn note_links(
    state: &SessionState,
    ends: &Viewports,
    links: &mut LinkTable,
    s: SessionNo,
    calls: &[Call],
)
    requires some { 0 < s.0 }
    requires few { s.0 ≤ length links.old.linked_sessions.items }
    ensures { LinksNoted s calls.now state.now ends.now links.old links.new }
{
    if state.closed {
        return;
    }
    links.note(s, calls, state.account, ends.live.as_slice());
}

/// Notes the calls of an entry by its session's viewports, unless it closes the session.
/// None of them makes one.
fn note_viewports(ends: &mut Viewports, entry: &Entry, presents: u32)
    requires { closes entry.now.reply ≡ false → list_any is_new_viewport entry.now.calls ≡ false }
    ensures { IsHeard entry.now presents ends.old ends.new }
{
    if closes(entry.reply) {
        return;
    }
    ends.note_calls(entry.calls.as_slice(), presents);
}

/// Notes an entry that uses no viewport end, of a session in this state before.
fn note_ends(
    state: &SessionState,
    ends: &mut Viewports,
    links: &mut LinkTable,
    s: SessionNo,
    entry: &Entry,
)
    requires some { 0 < s.0 }
    requires few { s.0 ≤ length links.old.linked_sessions.items }
    requires none { closes entry.now.reply ≡ false →
        list_any is_new_viewport entry.now.calls ≡ false }
    ensures ends { IsHeard entry.now state.now.account.presents ends.old ends.new }
    ensures links { LinksNoted s entry.now.calls state.now ends.old links.old links.new }
{
    note_links(state, ends, links, s, entry.calls.as_slice());
    note_viewports(ends, entry, state.account.presents);
}

/// Notes the calls of an open session's entry. The last call uses the viewport end of a
/// pair if the session holds its token. Answers whether it does.
pub fn use_ends(
    state: &SessionState,
    ends: &mut Viewports,
    links: &mut LinkTable,
    s: SessionNo,
    calls: &[Call],
    viewport: NewViewport,
) -> bool
    requires some { 0 < s.0 }
    requires few { s.0 ≤ length links.old.linked_sessions.items }
    requires others { list_any is_new_viewport (all_but_last calls.now) ≡ false }
    requires last { uses_last viewport.pair calls.now ≡ true }
    requires room_live { length ends.old.live.items < vec_capacity ends.old.live }
    requires room_out { length ends.old.out.items < vec_capacity ends.old.out }
    ensures held { result
        ≡ not (list_any (λ one. one.pair.0 == viewport.pair.0) ends.old.out.items) }
    ensures used { IsUsed viewport.pair calls.now state.now.account.presents result ends.old
        ends.new }
    ensures links { LinksUsed s calls.now viewport.pair viewport.props result state.now ends.old
        links.old links.new }
{
    let account = state.account;
    let NewViewport { pair, props } = viewport;
    if is_out(ends.out.as_slice(), pair) {
        links.note(s, calls, account, ends.live.as_slice());
        return false;
    }
    links.use_viewport(s, calls, account, ends.live.as_slice(), pair, props);
    ends.use_end(calls, pair, account.presents);
    true
}

/// Notes an entry that uses no viewport end, where a session made it: the calls that it
/// carries, and what its reply decides. It takes no memory.
pub fn note_in(
    sessions: &mut Vec<SessionState>,
    ends: &mut Vec<Viewports>,
    links: &mut LinkTable,
    entry: &Entry,
)
    requires placed { IsPlaced (length sessions.old.items) entry.now.actor }
    requires all { length ends.old.items ≡ length sessions.old.items }
    requires tied { length links.old.linked_sessions.items ≡ length sessions.old.items }
    requires none { closes entry.now.reply ≡ false →
        list_any is_new_viewport entry.now.calls ≡ false }
    ensures sessions { sessions.new.items ≡ entered_in entry.now sessions.old.items }
    ensures ends { EndsEntered entry.now sessions.old.items ends.old.items ends.new.items links.old
        links.new }
{
    match entry.actor {
        Actor::Session(s) => {
            let place = s.0 as usize - 1;
            let state = &mut sessions[place];
            note_ends(state, &mut ends[place], links, s, entry);
            note_entry(state, entry);
        }
        _ => {}
    }
}

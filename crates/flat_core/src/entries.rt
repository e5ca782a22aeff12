//! How an entry is made.
ghost use Rattle.std.specs.Prelude.{◌≡◌, ◌+◌, ◌<◌, false, length};
ghost use Rattle.std.specs.List.{list_any};
ghost use Rattle.flat_scene.specs.History.{◌▹◌, closes};
ghost use Rattle.flat_facts.specs.Lives.{is_new_viewport};
ghost use Rattle.flat_links.specs.AllEnds.{EndsEntered};
ghost use Rattle.flat_states.specs.Presents.{IsPlaced, entered_in};

use flat_links::entries::note_in;
use flat_links::link_table::LinkTable;
use flat_links::viewports::Viewports;
use flat_scene::Entry;
use flat_states::roomy_journal::RoomyJournal;
use flat_states::state::SessionState;

/// Makes an entry that uses no viewport end: what it carries and what its reply decides
/// is noted, and it is logged, within the room. It takes no memory.
pub fn enter(
    sessions: &mut Vec<SessionState>,
    ends: &mut Vec<Viewports>,
    links: &mut LinkTable,
    log: &mut RoomyJournal,
    entry: Entry,
)
    requires room { 0 < log.old.room }
    requires placed { IsPlaced (length sessions.old.items) entry.actor }
    requires all { length ends.old.items ≡ length sessions.old.items }
    requires tied { length links.old.linked_sessions.items ≡ length sessions.old.items }
    requires none { closes entry.reply ≡ false → list_any is_new_viewport entry.calls ≡ false }
    ensures sessions { sessions.new.items ≡ entered_in entry sessions.old.items }
    ensures ends { EndsEntered entry sessions.old.items ends.old.items ends.new.items links.old
        links.new }
    ensures history { log.new.history ≡ (log.old.history ▹ entry) }
    ensures posts { log.new.posts ≡ log.old.posts }
    ensures room { log.new.room + 1 ≡ log.old.room }
    ensures post_room { log.new.post_room ≡ log.old.post_room }
{
    note_in(sessions, ends, links, &entry);
    log.enter(entry);
}

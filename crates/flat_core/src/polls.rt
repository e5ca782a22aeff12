ghost use Rattle.std.specs.Prelude.{◌≡◌, ◌≤◌, ◌++◌, length, drop, take, OnOk, OnErr};
ghost use Rattle.flat_core.specs.Polls.{events_for};

use flat_base::{Items, NoMemory, SessionNo};
use flat_scene::{Event, PostedEvent};

/// Events, in the order in which they were posted.
pub type EventList = Items<Event>;

/// Appends a session's events of the posts from a place on, or nothing.
pub fn push_events_from(
    posts: &[PostedEvent],
    from: usize,
    s: SessionNo,
    into: &mut EventList,
) -> Result<(), NoMemory>
    requires { from ≤ length posts.now }
    ensures ok { OnOk result (into.new ≡ into.old ++ events_for s (drop from posts.now)) }
    ensures err { OnErr result (into.new ≡ into.old) }
{
    let before = into.len();
    match push_events(&posts[from..], s, into) {
        Ok(()) => Ok(()),
        Err(wanting) => {
            into.truncate(before);
            Err(wanting)
        }
    }
}

/// Appends a session's events of the posts, or some of them.
fn push_events(posts: &[PostedEvent], s: SessionNo, into: &mut EventList) -> Result<(), NoMemory>
    ensures ok { OnOk result (into.new ≡ into.old ++ events_for s posts.now) }
    ensures err { OnErr result (take (length into.old) into.new ≡ into.old) }
{
    for post in posts {
        if post.session.0 == s.0 {
            into.push(post.event)?;
        }
    }
    Ok(())
}

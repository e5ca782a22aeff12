ghost use Rattle.std.specs.Prelude.{◌≡◌, ◌++◌, IfOk, IfErr};
ghost use Rattle.flat_base.specs.declared.ids.Actor.TheVariants.{Session};
ghost use Rattle.flat_core.specs.Machines.{MayCall, entered};
ghost use Rattle.flat_rules.specs.Legal.{reply_to};

use flat_base::{Actor, ContentId, FenceNo, PairNo, Reason, SessionNo};
use flat_core::{Board, EventList};
use flat_scene::{CallList, PresentArgs, Reply, ViewportProps, WaitCondition, Watch};
use flat_snap::Snapshot;
use std::sync::Arc;

/// What a line of a session makes, where it makes an entry.
#[derive(Drop)]
pub enum RequestedEntry {
    View(PairNo),
    /// The content is the viewport's name, for the draft's own call.
    Viewport(ContentId, PairNo, ViewportProps),
    Present(PresentArgs, Arc<Snapshot>),
    /// The pair is the one whose watcher is meant.
    Get(Watch, PairNo),
    Signal(FenceNo),
    Poll,
    Wait(WaitCondition),
    Close(Option<Reason>),
}

impl RequestedEntry {
    ghost use Rattle.flat_session.specs.Made.{kind_of, handed_over, takes_memory, IsMeant};
    ghost use Rattle.std.specs.Prelude.{true};

    /// Makes the entry; events that it hands over are put behind those of the list.
    ///
    /// If memory runs out, the calls come back, and nothing changed. Only a viewport, a
    /// present, a get and a poll take memory.
    pub fn enter(
        self,
        board: &mut Board,
        s: SessionNo,
        number: u32,
        calls: CallList,
        into: &mut EventList,
    ) -> Result<Reply, CallList>
        requires may { MayCall board.old (Session s) calls (kind_of self) }
        requires meant { IsMeant board.old s calls self }
        ensures reply { IfOk result (λ reply. reply
            ≡ reply_to board.old.setup board.old.history (Session s) calls (kind_of self)) }
        ensures entry { IfOk result (λ reply. board.new
            ≡ entered board.old (Session s) number calls (kind_of self) reply) }
        ensures events { IfOk result (λ reply. into.new
            ≡ into.old ++ handed_over board.old.setup board.old.history s (kind_of self)) }
        ensures same { IfErr result (λ back. (board.new ≡ board.old) × (into.new ≡ into.old)) }
        ensures back { IfErr result (λ back. back ≡ calls) }
        ensures only { IfErr result (λ back. takes_memory self ≡ true) }
    {
        match self {
            RequestedEntry::View(pair) => Ok(board.view(s, number, calls, pair)),
            RequestedEntry::Viewport(_, pair, props) => {
                board.viewport(s, number, calls, pair, props)
            }
            RequestedEntry::Present(args, snapshot) => {
                board.present(s, number, calls, args, snapshot)
            }
            RequestedEntry::Get(get, pair) => board.get(s, number, calls, get, pair),
            RequestedEntry::Signal(f) => Ok(board.signal(Actor::Session(s), number, calls, f)),
            RequestedEntry::Poll => board.poll(s, number, calls, into),
            RequestedEntry::Wait(c) => Ok(board.wait(Actor::Session(s), number, calls, c)),
            RequestedEntry::Close(why) => Ok(board.close(s, number, calls, why)),
        }
    }
}

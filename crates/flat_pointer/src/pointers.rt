ghost use Rattle.std.specs.Prelude.{◌≡◌, ◌<◌, List, None};
ghost use Rattle.flat_scene.specs.declared.frames.Hit.{Hit};
ghost use Rattle.flat_scene.specs.ViewTrees.{is_node};
ghost use Rattle.flat_pointer.specs.Streams.{first_hit, down_answer, after_down, move_answer, up_answer, kept_in};
ghost use Rattle.flat_pointer.specs.Streams.{cancelled_in};
ghost use Rattle.flat_pointer.specs.Steps.{no_streams, stream_of, with_stream};

use flat_base::SessionNo;
use flat_scene::{HitList, ViewNode, ViewTree, is_node};
use std::marker::Model;

/// How many pointers there are. They are numbered from 0.
pub const POINTERS: u8 = 16;

/// The answer to a line of a pointer.
#[derive(Clone, Copy, PartialEq, Eq)]
pub enum PointerAnswer {
    /// The pointer went down, and its stream goes to that session.
    Down(SessionNo),
    /// It moved, in the stream of that session.
    Moved(SessionNo),
    /// It went up, which ends the stream of that session.
    Up(SessionNo),
    /// It has no stream, and nobody is hit.
    Nobody,
    /// It is down already.
    Busy,
}

/// Sixteen pointers, and to which session each one's stream goes. Contracts see
/// them as a list of these sessions.
///
/// No call takes memory.
#[derive(Drop)]
pub struct Pointers {
    streams: [Option<SessionNo>; 16],
}

impl Model for Pointers {
    ghost use Rattle.flat_pointer.specs.Steps.{Streams};

    ghost Value = { Streams };

    ghost view = { λ pointers. pointers.streams };
}

/// The session that is hit first.
fn first_hit(hits: &HitList) -> Option<SessionNo>
    ensures { result ≡ first_hit hits.now }
{
    match hits.as_slice() {
        [hit, ..] => Some(hit.session),
        [] => None,
    }
}

fn down_answer(stream: Option<SessionNo>, hit: Option<SessionNo>) -> PointerAnswer
    ensures { (hits : List Hit) → hit ≡ first_hit hits → result ≡ down_answer stream hits }
{
    match (stream, hit) {
        (Some(_), _) => PointerAnswer::Busy,
        (None, Some(session)) => PointerAnswer::Down(session),
        (None, None) => PointerAnswer::Nobody,
    }
}

impl Pointers {
    /// No pointer has a stream.
    pub fn new() -> Pointers
        ensures { result ≡ no_streams }
    {
        Pointers {
            streams: [None; 16],
        }
    }

    /// A pointer goes down where this is hit. Busy where it has a stream; else its
    /// stream goes to the session that is hit first, or to nobody where none is.
    pub fn down(&mut self, p: u8, hits: &HitList) -> PointerAnswer
        requires { p < POINTERS }
        ensures answer { result ≡ down_answer (stream_of self.old p) hits.now }
        ensures after { self.new ≡ with_stream self.old p (after_down (stream_of self.old p)
            hits.now) }
    {
        let stream = self.streams[p as usize];
        let hit = first_hit(hits);
        self.streams[p as usize] = stream.or(hit);
        down_answer(stream, hit)
    }

    /// A pointer moves: its stream's session is told, or nobody where it has none.
    pub fn moved(&mut self, p: u8) -> PointerAnswer
        requires { p < POINTERS }
        ensures answer { result ≡ move_answer (stream_of self.old p) }
        ensures same { self.new ≡ self.old }
    {
        match self.streams[p as usize] {
            Some(session) => PointerAnswer::Moved(session),
            None => PointerAnswer::Nobody,
        }
    }

    /// A pointer goes up, which ends its stream.
    pub fn up(&mut self, p: u8) -> PointerAnswer
        requires { p < POINTERS }
        ensures answer { result ≡ up_answer (stream_of self.old p) }
        ensures after { self.new ≡ with_stream self.old p None }
    {
        let stream = self.streams[p as usize];
        self.streams[p as usize] = None;
        match stream {
            Some(session) => PointerAnswer::Up(session),
            None => PointerAnswer::Nobody,
        }
    }

    /// A frame was finished with this view tree: Some exactly where the pointer has
    /// a stream whose session is no node, which ends then.
    pub fn cancel(&mut self, p: u8, tree: &ViewTree) -> Option<SessionNo>
        requires { p < POINTERS }
        ensures answer { result ≡ cancelled_in tree.now.nodes (stream_of self.old p) }
        ensures after { self.new ≡ with_stream self.old p
            (kept_in tree.now.nodes (stream_of self.old p)) }
    {
        let stream = self.streams[p as usize];
        let cancelled = cancelled_in(tree.nodes.as_slice(), stream);
        self.streams[p as usize] = kept_in(tree.nodes.as_slice(), stream);
        cancelled
    }
}

fn cancelled_in(nodes: &[ViewNode], stream: Option<SessionNo>) -> Option<SessionNo>
    ensures { result ≡ cancelled_in nodes.now stream }
{
    stream.filter(|session| !is_node(nodes, *session))
}

fn kept_in(nodes: &[ViewNode], stream: Option<SessionNo>) -> Option<SessionNo>
    ensures { result ≡ kept_in nodes.now stream }
{
    stream.filter(|session| is_node(nodes, *session))
}

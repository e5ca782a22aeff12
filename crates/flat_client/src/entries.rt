//! The calls that make an entry, and what a client says at its end.
ghost use Rattle.std.specs.Prelude.{◌≡◌};
ghost use Rattle.flat_scene.specs.declared.calls.Call.TheVariants as calls;
ghost use Rattle.flat_scene.specs.declared.calls.Watch.TheVariants as watch;
ghost use Rattle.flat_scene.specs.declared.journal.Reply.TheVariants as reply;
ghost use Rattle.flat_scene.specs.declared.script.SessionLine.TheVariants as line;
ghost use Rattle.flat_client.specs.Clients.{Disconnects, Ends, Enters, Polls, Stays, is_answer, replied, reply_told};
ghost use Rattle.flat_client.specs.Clients.{Cause};

use crate::client::Client;
use crate::error::CallError;
use crate::present::AcceptedPresent;
use flat_base::{ContentId, FenceNo, PairNo};
use flat_core::EventList;
use flat_scene::{Call, PresentArgs, Reply, SessionLine, ViewportProps, Watch, WatcherValue};
use flat_stage::SessionSeat;
use std::sync::Wait;

impl Client {
    /// Makes the session's view, at the view end of a pair: Fuchsia's `CreateView2`.
    pub fn create_view<R: Wait>(&mut self, rt: &R, pair: PairNo) -> Result<(), CallError>
        ensures enters { Enters (line.Call (calls.CreateView pair)) self.old self.new
            (replied (λ _. reply.Done) result) }
        ensures stays { Stays self.old self.new }
    {
        match self.enter(rt, SessionLine::Call(Call::CreateView { pair }))? {
            Reply::Done => Ok(()),
            _ => unreachable!(),
        }
    }

    /// Makes a viewport, at the viewport end of a pair: Fuchsia's `CreateViewport`.
    pub fn create_viewport<R: Wait>(
        &mut self,
        rt: &R,
        c: ContentId,
        pair: PairNo,
        props: ViewportProps,
    ) -> Result<(), CallError>
        ensures enters { Enters
            (line.Call (calls.CreateViewport c pair props.w props.h props.inset)) self.old self.new
            (replied (λ _. reply.Done) result) }
        ensures stays { Stays self.old self.new }
    {
        let ViewportProps { w, h, inset } = props;
        let call = Call::CreateViewport {
            c,
            pair,
            w,
            h,
            inset,
        };
        match self.enter(rt, SessionLine::Call(call))? {
            Reply::Done => Ok(()),
            _ => unreachable!(),
        }
    }

    /// Presents all that the session's calls made so far: Fuchsia's `Present`. It answers
    /// the present's number, and how many credits are left.
    pub fn present<R: Wait>(
        &mut self,
        rt: &R,
        args: PresentArgs,
    ) -> Result<AcceptedPresent, CallError>
        ensures enters { Enters (line.Present args) self.old self.new
            (replied (λ p. reply.Presented p.number p.credits) result) }
        ensures stays { Stays self.old self.new }
    {
        match self.enter(rt, SessionLine::Present(args))? {
            Reply::Presented { number, credits } => Ok(AcceptedPresent { number, credits }),
            _ => unreachable!(),
        }
    }

    /// Asks for the layout of the session's view: Fuchsia's `GetLayout`. At None the answer
    /// comes by [`Client::poll`], once there is news.
    pub fn get_layout<R: Wait>(&mut self, rt: &R) -> Result<Option<WatcherValue>, CallError>
        ensures enters { Enters (line.Get watch.Layout) self.old self.new
            (replied reply_told result) }
        ensures stays { Stays self.old self.new }
    {
        self.get(rt, Watch::Layout)
    }

    /// Asks whether the session's view is connected to the display: Fuchsia's `GetStatus`
    /// of the parent. At None the answer comes by [`Client::poll`], once there is news.
    pub fn get_status<R: Wait>(&mut self, rt: &R) -> Result<Option<WatcherValue>, CallError>
        ensures enters { Enters (line.Get watch.Status) self.old self.new
            (replied reply_told result) }
        ensures stays { Stays self.old self.new }
    {
        self.get(rt, Watch::Status)
    }

    /// Asks whether the child behind a viewport has presented: Fuchsia's `GetStatus` of a
    /// child. At None the answer comes by [`Client::poll`], once there is news.
    pub fn get_child<R: Wait>(
        &mut self,
        rt: &R,
        c: ContentId,
    ) -> Result<Option<WatcherValue>, CallError>
        ensures enters { Enters (line.Get (watch.Child c)) self.old self.new
            (replied reply_told result) }
        ensures stays { Stays self.old self.new }
    {
        self.get(rt, Watch::Child(c))
    }

    fn get<R: Wait>(&mut self, rt: &R, watch: Watch) -> Result<Option<WatcherValue>, CallError>
        ensures enters { Enters (line.Get watch) self.old self.new (replied reply_told result) }
        ensures stays { Stays self.old self.new }
    {
        match self.enter(rt, SessionLine::Get(watch))? {
            Reply::Held => Ok(None),
            Reply::Now(told) => Ok(Some(told)),
            _ => unreachable!(),
        }
    }

    /// Signals a fence that the session owns.
    pub fn signal<R: Wait>(&mut self, rt: &R, f: FenceNo) -> Result<(), CallError>
        ensures enters { Enters (line.Signal f) self.old self.new
            (replied (λ _. reply.Done) result) }
        ensures stays { Stays self.old self.new }
    {
        match self.enter(rt, SessionLine::Signal(f))? {
            Reply::Done => Ok(()),
            _ => unreachable!(),
        }
    }

    /// Hands over the events that the service has for the session since the last poll, in
    /// order.
    pub fn poll<R: Wait>(&mut self, rt: &R) -> Result<EventList, CallError>
        ensures polls { Polls self.old self.new result }
        ensures stays { Stays self.old self.new }
    {
        match self.enter(rt, SessionLine::Poll)? {
            Reply::Polled(_) => Ok(self.seat.events()),
            _ => unreachable!(),
        }
    }

    /// Closes the session of its own wish, without an error.
    pub fn disconnect<R: Wait>(&mut self, rt: &R) -> Result<(), CallError>
        ensures disconnects { Disconnects self.old self.new result }
        ensures stays { Stays self.old self.new }
    {
        let is_free = self.is_free();
        match self.enter(rt, SessionLine::Disconnect) {
            Err(CallError::Closed(None, None)) if is_free => Ok(()),
            Err(why) => Err(why),
            Ok(_) => unreachable!(),
        }
    }

    /// Ends the session: says what is owed, and then its End. The seat comes back, which
    /// its stage needs to be closed.
    pub fn end<R: Wait>(mut self, rt: &R) -> SessionSeat
        ensures { Ends self result }
    {
        let _ = self.settle(rt);
        let Client {
            stage,
            setup,
            mut seat,
            // proof: the share fits 32 bits, and so does the number
            share: _share,
            made,
            owed,
            ..
        } = self;
        drop(setup);
        drop(owed);
        let _ = seat.end(rt, &stage, made + 1);
        seat
    }
}

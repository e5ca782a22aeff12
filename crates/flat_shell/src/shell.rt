ghost use Rattle.std.specs.Prelude.{◌≡◌, false, length, replicate, IfOk, IfSome, OnErr, OnOk};
ghost use Rattle.flat_shell.specs.Closing.{Closes};
ghost use Rattle.flat_shell.specs.Shells.{IsOpened, TakesBack, all_home, client_of, hands_out, is_waiting};

use crate::compositor::DisplayCompositor;
use crate::compositor_parts::CompositorParts;
use crate::fault::CloseFault;
use flat_base::{NoMemory, SessionNo, ShareList, TryCopy};
use flat_client::Client;
use flat_core::Board;
use flat_play::LastFrame;
use flat_scene::Setup;
use flat_setup::BuiltSetup;
use flat_stage::{SessionSeats, Stage};
use std::alloc::Global;
use std::marker::Model;
use std::sync::{Arc, Wait};

/// A live stage: it hands out a client for each session, once, and takes it back.
#[derive(Drop)]
pub struct Shell {
    alloc: Global,
    stage: Arc<Stage>,
    setup: Arc<Setup>,
    shares: ShareList,
    seats: SessionSeats,
    /// By sessions, from the first: whether its client was handed out.
    handed: Vec<bool>,
}

impl Model for Shell {
    ghost use Rattle.std.specs.Arc.{arc_value};
    ghost use Rattle.flat_shell.specs.Shells.{IsShell, ShellView};

    ghost Value = { ShellView };

    ghost view = { λ s. record {
      stage = s.seats.stage;
      home = s.seats.seats;
      handed = s.handed.items;
    } };

    ghost invariant = { λ s. IsShell (arc_value s.stage) (arc_value s.setup) s.shares (record {
      stage = s.seats.stage;
      home = s.seats.seats;
      handed = s.handed.items;
    }) };
}

/// That no client was handed out, of so many sessions.
fn none_handed(alloc: Global, sessions: u32) -> Result<Vec<bool>, NoMemory>
    ensures none { IfOk result (λ handed. handed.items ≡ replicate sessions false) }
    ensures many { IfOk result (λ handed. length handed.items ≡ sessions) }
{
    Ok(vec![in alloc; false; sessions as usize]?)
}

impl Shell {
    /// Opens a stage of a setup: all its sessions are to be handed out, and no frame has begun.
    pub fn open(alloc: Global, setup: BuiltSetup) -> Result<(Shell, DisplayCompositor), NoMemory>
        ensures opened { IfOk result (λ r. IsOpened setup r.0 r.1) }
        ensures own { IfOk result (λ r. r.1.stage ≡ r.0.stage) }
    {
        let (setup, shares) = setup.into_parts();
        let kept = setup.copy(alloc)?;
        let kept_shares = shares.copy(alloc)?;
        let last = LastFrame::none(alloc, &kept)?;
        let handed = none_handed(alloc, kept.sessions)?;
        let share = *kept_shares.at(0);
        let board = Board::open(alloc, setup, shares)?;
        let (stage, compositor, seats) = Stage::new(alloc, board)?;
        let stage = Arc::new(alloc, stage)?;
        let setup = Arc::new(alloc, kept)?;
        let keeper = CompositorParts::new(alloc, &stage, &setup, share)?;
        let shell = Shell {
            alloc,
            stage,
            setup,
            shares: kept_shares,
            seats,
            handed,
        };
        Ok((
            shell,
            DisplayCompositor {
                keeper,
                compositor,
                last,
            },
        ))
    }

    /// The client of a session; None if there is no such session, or its client was handed out
    /// before. It may go to any thread.
    pub fn client(&mut self, s: SessionNo) -> Result<Option<Client>, NoMemory>
        ensures client { IfOk result (λ client. client ≡ client_of self.old s) }
        ensures own { IfOk result (λ client. IfSome client (λ c. c.seat.stage ≡ self.old.stage)) }
        ensures handed { OnOk result (self.new ≡ hands_out self.old s) }
        ensures same { OnErr result (self.new ≡ self.old) }
        ensures stays { self.new.stage ≡ self.old.stage }
    {
        if !self.is_waiting(s) {
            return Ok(None);
        }
        let stage = Arc::try_clone(&self.stage)?;
        let setup = Arc::try_clone(&self.setup)?;
        let Some(seat) = self.seats.take(s) else {
            unreachable!()
        };
        self.handed[s.0 as usize - 1] = true;
        let share = *self.shares.at(s.0 as usize);
        Ok(Some(Client::new(self.alloc, stage, setup, seat, share)))
    }

    /// Whether a session's client wasn't handed out yet.
    fn is_waiting(&self, s: SessionNo) -> bool
        ensures { result ≡ is_waiting self.now s }
    {
        match self.handed.get((s.0 as usize).wrapping_sub(1)) {
            Some(handed) => !*handed,
            None => false,
        }
    }

    /// Takes a client of this shell back, and ends its session. It may wait, and takes no memory.
    pub fn take_back<R: Wait>(&mut self, rt: &R, client: Client)
        requires own { client.seat.stage ≡ self.old.stage }
        ensures takes { TakesBack client self.old self.new }
        ensures stays { self.new.stage ≡ self.old.stage }
    {
        let seat = client.end(rt);
        self.handed[seat.session().0 as usize - 1] = true;
        self.seats.put(seat);
    }

    /// Whether no client is out: each was taken back, or never handed out.
    pub fn all_home(&self) -> bool
        ensures { result ≡ all_home self.now }
    {
        self.seats.all_home()
    }

    /// Ends the stage, and hands out its board, whose journal is one legal history of all that
    /// the clients and the compositor entered. While a client is out, both come back as they
    /// were: see [`CloseFault`].
    pub fn close(self, compositor: DisplayCompositor) -> Result<Board, CloseFault>
        requires own { compositor.stage ≡ self.stage }
        ensures { Closes self compositor result }
    {
        if !self.all_home() {
            return Err(CloseFault::ClientsOut(self, compositor));
        }
        let Shell { stage, seats, .. } = self;
        let DisplayCompositor {
            keeper,
            compositor,
            ..
        } = compositor;
        drop(keeper);
        match Arc::into_inner(stage) {
            Some(stage) => Ok(stage.close(compositor, seats)),
            None => Err(CloseFault::StillHeld),
        }
    }
}

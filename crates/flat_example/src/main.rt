//! A shell with one application: two clients on threads of their own, a display that keeps its
//! picture by damage, ten frames, and a click that moves the focus. Copy it to begin your own.
//!
//! Read `main`, and then cast.rt (who there is), clients.rt (what they draw) and director.rt
//! (frames and input).
//! The waits fix who comes before whom, so it prints the same whatever the threads do.
#![tactic(auto)]

mod cast;
mod clients;
mod director;

ghost use Rattle.std.specs.Prelude.{◌≡◌, IfOk};

use crate::cast::{Cast, new_cast};
use crate::clients::{run_app, run_home};
use crate::director::{Output, direct};
use anyhow::bail;
use flat_client::Client;
use flat_core::Board;
use flat_shell::{DisplayCompositor, Shell};
use std::alloc::Global;
use std::string::String;
use std::sync::Wait;
use std::thread;
use std::thread::Threads;
use std::time::Clock;

fn main(rt: HostRuntime) -> Result<(), anyhow::Error> {
    let alloc = rt.alloc();
    let out = Output::new(&rt, alloc)?;
    let (setup, cast) = new_cast(alloc)?;
    let (mut stage, compositor) = Shell::open(alloc, setup)?;
    let ran = run(&rt, alloc, &mut stage, compositor, out, cast);
    let (compositor, text) = ran?;
    let board = stage.close(compositor)?;
    let entries = entries_in(board);
    print!(rt; "{text}{entries} entries of one legal history\n")?;
    Ok(())
}

/// The clients of both sessions.
fn take_clients(stage: &mut Shell, cast: Cast) -> Result<(Client, Client), anyhow::Error>
    ensures stays { stage.new.stage ≡ stage.old.stage }
    ensures home { IfOk result (λ r. r.0.seat.stage ≡ stage.old.stage) }
    ensures app { IfOk result (λ r. r.1.seat.stage ≡ stage.old.stage) }
{
    let Some(home) = stage.client(cast.home)? else {
        bail!("the home session is out");
    };
    let Some(app) = stage.client(cast.app)? else {
        bail!("the application is out");
    };
    Ok((home, app))
}

/// Runs the compositor and both clients, each on a thread, and takes the clients back. Answers
/// the compositor, and what was written.
fn run<R: Threads + Wait + Sync + Clock>(
    rt: &R,
    alloc: Global,
    stage: &mut Shell,
    compositor: DisplayCompositor,
    out: Output,
    cast: Cast,
) -> Result<(DisplayCompositor, String), anyhow::Error>
    ensures stays { stage.new.stage ≡ stage.old.stage }
    ensures own { IfOk result (λ r. r.0.stage ≡ compositor.stage) }
{
    let (home, app) = take_clients(stage, cast)?;
    let (directed, (home, app)) = thread::join(
        rt,
        move || direct(rt, compositor, out, cast),
        move || {
            thread::join(
                rt,
                move || run_home(rt, alloc, home, cast),
                move || run_app(rt, alloc, app, cast),
            )
        },
    );
    let (home, home_ran) = home;
    let (app, app_ran) = app;
    stage.take_back(rt, home);
    stage.take_back(rt, app);
    home_ran?;
    app_ran?;
    let (compositor, text) = directed?;
    Ok((compositor, text))
}

/// How many entries the journal of a board has.
fn entries_in(board: Board) -> usize {
    board.journal().entries.len()
}

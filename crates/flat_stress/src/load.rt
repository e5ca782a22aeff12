ghost use Rattle.std.specs.Prelude.{◌≡◌, ℕ, ◌+◌, ◌*◌, ◌%◌, ◌≤◌, ◌++◌, ◌∷◌, [], map, OnOk, IfOk, codes};
ghost use Rattle.std.specs.List.{flat_map};
ghost use Rattle.flat_stress.specs.Words.{session, pair, from_to};
ghost use Rattle.flat_page.specs.Words.{number, text_of};
ghost use Rattle.flat_stress.specs.Load.{head, opening, node, move, fill, viewport, present, host, guest, frame, later};
ghost use Rattle.flat_stress.specs.Load.{load, load_text};

use crate::words::{LoadWord, push_lines};
use LoadWord::{Number, Pair, Session, Text};
use flat_base::{LOAD_FRAMES_MAX, NoMemory};
use flat_page::Page;
use std::alloc::Global;

// What the load's text takes at most: before its second frame, and for each frame.
const START_BYTES: usize = 34_000;

const FRAME_BYTES: usize = 600;

/// The load of so many frames, as a script.
pub fn script(alloc: Global, n: u32) -> Result<Vec<u8>, NoMemory>
    requires first { 1 ≤ n }
    requires last { n ≤ LOAD_FRAMES_MAX }
    ensures { IfOk result (λ text. text.items ≡ load_text n) }
{
    let room = START_BYTES + n as usize * FRAME_BYTES;
    let mut page = Page::with_capacity(alloc, room)?;
    push_load(&mut page, n)?;
    Ok(page.into_text())
}

fn push_load(page: &mut Page, n: u32) -> Result<(), NoMemory>
    requires first { 1 ≤ n }
    requires last { n ≤ LOAD_FRAMES_MAX }
    ensures { OnOk result (page.new ≡ page.old ++ load_text n) }
{
    push_head(page)?;
    push_host(page)?;
    push_guests(page)?;
    push_frame(page, 1)?;
    push_later_frames(page, n)?;
    Ok(())
}

fn push_head(page: &mut Page) -> Result<(), NoMemory>
    ensures { OnOk result (page.new ≡ page.old ++ text_of head) }
{
    push_start(page)?;
    push_sessions(page)?;
    push_first_pair(page)?;
    push_pairs(page)?;
    push_run(page)?;
    Ok(())
}

// The version and the display.
fn push_start(page: &mut Page) -> Result<(), NoMemory>
    ensures { OnOk result (page.new
        ≡ page.old ++ text_of ((codes "flatland" ∷ number 1 ∷ [])
        ∷ (codes "display" ∷ number 1000 ∷ number 1000 ∷ []) ∷ [])) }
{
    let version = [Text("flatland"), Number(1)];
    let display = [Text("display"), Number(1000), Number(1000)];
    push_lines(page, &[&version, &display])
}

// The pair whose viewport end is the display's.
fn push_first_pair(page: &mut Page) -> Result<(), NoMemory>
    ensures { OnOk result (page.new
        ≡ page.old ++ text_of ((codes "pair" ∷ pair 1 ∷ codes "display" ∷ session 1 ∷ [])
        ∷ [])) }
{
    push_lines(
        page,
        &[&[Text("pair"), Pair(1), Text("display"), Session(1)]],
    )
}

fn push_run(page: &mut Page) -> Result<(), NoMemory>
    ensures { OnOk result (page.new
        ≡ page.old ++ text_of ((codes "run" ∷ []) ∷ [])) }
{
    push_lines(page, &[&[Text("run")]])
}

fn push_sessions(page: &mut Page) -> Result<(), NoMemory>
    ensures { OnOk result (page.new
        ≡ page.old ++ text_of (map (λ i. codes "session" ∷ session i ∷ []) (from_to 1 8))) }
{
    for i in 1..9 {
        push_lines(page, &[&[Text("session"), Session(i)]])?;
    }
    Ok(())
}

fn push_pairs(page: &mut Page) -> Result<(), NoMemory>
    ensures { OnOk result (page.new
        ≡ page.old ++ text_of (map (λ i. codes "pair" ∷ pair i ∷ session 1 ∷ session i
        ∷ []) (from_to 2 8))) }
{
    for i in 2..9 {
        push_lines(page, &[&[Text("pair"), Pair(i), Session(1), Session(i)]])?;
    }
    Ok(())
}

// What each session does first.
fn push_opening(page: &mut Page, i: u32) -> Result<(), NoMemory>
    ensures { OnOk result (page.new ≡ page.old ++ text_of (opening i)) }
{
    let view = [Session(i), Text("CreateView"), Pair(i)];
    let transform = [Session(i), Text("CreateTransform"), Number(1)];
    let root = [Session(i), Text("SetRootTransform"), Number(1)];
    push_lines(page, &[&view, &transform, &root])
}

// A node below the root.
fn push_node(page: &mut Page, i: u32, j: u32) -> Result<(), NoMemory>
    ensures { OnOk result (page.new ≡ page.old ++ text_of (node i j)) }
{
    let transform = [Session(i), Text("CreateTransform"), Number(j)];
    let child = [Session(i), Text("AddChild"), Number(1), Number(j)];
    push_lines(page, &[&transform, &child])
}

fn push_move(page: &mut Page, i: u32, j: u32, x: u32, y: u32) -> Result<(), NoMemory>
    ensures { OnOk result (page.new ≡ page.old ++ text_of (move i j x y ∷ [])) }
{
    push_lines(
        page,
        &[&[
            Session(i),
            Text("SetTranslation"),
            Number(j),
            Number(x),
            Number(y),
        ]],
    )
}

fn push_fill(page: &mut Page, i: u32, j: u32) -> Result<(), NoMemory>
    ensures { OnOk result (page.new ≡ page.old ++ text_of (fill i j)) }
{
    let made = [Session(i), Text("CreateFilledRect"), Number(j)];
    let painted = [
        Session(i),
        Text("SetSolidFill"),
        Number(j),
        Number(j),
        Number(0),
        Number(0),
        Number(255),
        Number(4),
        Number(4),
    ];
    let shown = [Session(i), Text("SetContent"), Number(j), Number(j)];
    push_lines(page, &[&made, &painted, &shown])
}

// A viewport of the host.
fn push_viewport(page: &mut Page, i: u32) -> Result<(), NoMemory>
    ensures { OnOk result (page.new ≡ page.old ++ text_of (viewport i)) }
{
    let made = [
        Session(1),
        Text("CreateViewport"),
        Number(i),
        Pair(i),
        Number(100),
        Number(100),
    ];
    let shown = [Session(1), Text("SetContent"), Number(i), Number(i)];
    push_lines(page, &[&made, &shown])
}

fn push_present(page: &mut Page, i: u32, time: u32) -> Result<(), NoMemory>
    ensures { OnOk result (page.new ≡ page.old ++ text_of (present i time ∷ [])) }
{
    push_lines(page, &[&[Session(i), Text("Present"), Number(time)]])
}

fn push_host(page: &mut Page) -> Result<(), NoMemory>
    ensures { OnOk result (page.new ≡ page.old ++ text_of host) }
{
    push_opening(page, 1)?;
    push_viewports(page)?;
    push_present(page, 1, 0)?;
    Ok(())
}

fn push_viewports(page: &mut Page) -> Result<(), NoMemory>
    ensures { OnOk result (page.new
        ≡ page.old ++ text_of (flat_map (λ i. node 1 i ++ viewport i) (from_to 2 8))) }
{
    for i in 2..9 {
        push_node(page, 1, i)?;
        push_viewport(page, i)?;
    }
    Ok(())
}

fn push_guests(page: &mut Page) -> Result<(), NoMemory>
    ensures { OnOk result (page.new
        ≡ page.old ++ text_of (flat_map guest (from_to 2 8))) }
{
    for i in 2..9 {
        push_guest(page, i)?;
    }
    Ok(())
}

fn push_guest(page: &mut Page, i: u32) -> Result<(), NoMemory>
    ensures { OnOk result (page.new ≡ page.old ++ text_of (guest i)) }
{
    push_opening(page, i)?;
    push_fills(page, i)?;
    push_present(page, i, 0)?;
    Ok(())
}

fn push_fills(page: &mut Page, i: u32) -> Result<(), NoMemory>
    ensures { OnOk result (page.new
        ≡ page.old ++ text_of (flat_map (λ j. node i j ++ move i j (3 * j) (2 * j) ∷ fill i j)
        (from_to 2 33))) }
{
    for j in 2..34 {
        push_node(page, i, j)?;
        push_move(page, i, j, 3 * j, 2 * j)?;
        push_fill(page, i, j)?;
    }
    Ok(())
}

fn push_frame(page: &mut Page, k: u32) -> Result<(), NoMemory>
    ensures { OnOk result (page.new ≡ page.old ++ text_of (frame k)) }
{
    let begin = [Text("display"), Text("begin"), Number(k)];
    let done = [Text("display"), Text("done")];
    push_lines(page, &[&begin, &done])
}

// The frames after the first one.
fn push_later_frames(page: &mut Page, n: u32) -> Result<(), NoMemory>
    requires first { 1 ≤ n }
    requires last { n ≤ LOAD_FRAMES_MAX }
    ensures { OnOk result (page.new
        ≡ page.old ++ text_of (flat_map later (from_to 2 n))) }
{
    for k in 2..n + 1 {
        push_later(page, k)?;
    }
    Ok(())
}

fn push_later(page: &mut Page, k: u32) -> Result<(), NoMemory>
    requires { k ≤ LOAD_FRAMES_MAX }
    ensures { OnOk result (page.new ≡ page.old ++ text_of (later k)) }
{
    push_host_moves(page, k)?;
    push_present(page, 1, k)?;
    push_guest_moves(page, k)?;
    push_frame(page, k)?;
    Ok(())
}

fn push_host_moves(page: &mut Page, k: u32) -> Result<(), NoMemory>
    requires { k ≤ LOAD_FRAMES_MAX }
    ensures { OnOk result (page.new
        ≡ page.old ++ text_of (map (λ i. move 1 i ((100 * i + k) % 900) ((50 * i + k) % 900))
        (from_to 2 8))) }
{
    for i in 2..9 {
        push_move(page, 1, i, (100 * i + k) % 900, (50 * i + k) % 900)?;
    }
    Ok(())
}

fn push_guest_moves(page: &mut Page, k: u32) -> Result<(), NoMemory>
    ensures { OnOk result (page.new
        ≡ page.old ++ text_of (flat_map (λ i. move i 2 (k % 90) 0 ∷ present i k
        ∷ []) (from_to 2 8))) }
{
    for i in 2..9 {
        push_move(page, i, 2, k % 90, 0)?;
        push_present(page, i, k)?;
    }
    Ok(())
}

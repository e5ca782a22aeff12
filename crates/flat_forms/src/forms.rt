ghost use Rattle.std.specs.Prelude.{◌≡◌, ◌≤◌, [], ◌∷◌, ℕ, false, length, nat_lt, not, codes, IsTrue, IfOk};
ghost use Rattle.std.specs.Str.{bytes_eq};
ghost use Rattle.flat_text.specs.Pieces.{is_space, words_of};
ghost use Rattle.flat_text.specs.Left.{pieces_left};
ghost use Rattle.flat_places.specs.declared.kinds.FaultKind.TheVariants.{BadHead, Limit, BadOrder};
ghost use Rattle.flat_places.specs.Forms.{whole, give, unless_kind, mapped};
ghost use Rattle.flat_forms.specs.Head as head;
ghost use Rattle.flat_forms.specs.Head.{size, buffers, pair, run_line, first_line};
ghost use Rattle.flat_places.specs.Places.{new_name, has_display_pair, fence, point, time, version};
ghost use Rattle.flat_forms.specs.Body.{begin_place, begin_times, dones, greatest, display_line, in_order, probe_line};
ghost use Rattle.flat_forms.specs.Body.{ratio_line};
ghost use Rattle.flat_places.specs.Index.{IsIndexed};
ghost use Rattle.flat_places.specs.Reads.{Reads};
ghost use Rattle.flat_forms.specs.Steps.{ReachesBy};
ghost use Rattle.flat_scene.specs.declared.script.DisplayLine.TheVariants.{Done};
ghost use Rattle.flat_scene.specs.declared.script.DisplayLine.TheVariants as display;
ghost use Rattle.flat_scene.specs.declared.script.ProbeLine.TheVariants as probe;

use crate::conditions::{count, display_condition};
use crate::lines::LineError;
use flat_base::{
    Actor, BUFFERS_PER_COLLECTION_MAX, FRAMES_MAX, FenceNo, SIDE_MAX, SessionNo, TIME_MAX,
};
use flat_places::{FaultKind, IndexedScript, WordCursor, is_word, knows};
use flat_scene::{
    BufferDecl, DisplayLine, FenceDecl, PairDecl, PresentArgs, ProbeLine, SessionLine, Watch,
};
use flat_text::{next_piece, read_natural};
use std::alloc::Global;

/// `flatland`, and the version behind it.
pub fn first_line(words: &[u8]) -> Result<u32, FaultKind>
    ensures { result ≡ first_line (words_of words.now) }
{
    let (word, rest) = next_piece(words, b' ');
    if is_word(word, "flatland") {
        return version(rest);
    }
    Err(FaultKind::BadHead)
}

fn version(words: Option<&[u8]>) -> Result<u32, FaultKind>
    ensures { result ≡ whole version (pieces_left is_space words.entry) }
{
    let mut places = WordCursor::new(words);
    let version = places.version();
    places.finish(version)
}

/// The size of the display and its first pixel ratio, in scripts of that version, where
/// `fresh` says whether it is the first.
pub fn size(fresh: bool, version: u32, words: Option<&[u8]>) -> Result<(u32, u32, u32), FaultKind>
    ensures { result ≡ unless_kind BadHead fresh
        (whole (size version) (pieces_left is_space words.entry)) }
{
    let mut places = WordCursor::new(words);
    places.note_unless(FaultKind::BadHead, fresh);
    let w = places.number_from(1, SIDE_MAX);
    let h = places.number_from(1, SIDE_MAX);
    let ratio = places.first_ratio(version);
    places.finish((w, h, ratio))
}

/// The name of a session or a probe, where `room` says whether there may be one more.
pub fn lone_name<'a>(
    script: &IndexedScript,
    room: bool,
    words: Option<&'a [u8]>,
) -> Result<&'a [u8], FaultKind>
    requires { IsIndexed script.now }
    ensures { mapped (λ w. w.now) result
        ≡ unless_kind Limit room (whole (new_name script.now.script)
        (pieces_left is_space words.entry)) }
{
    let mut places = WordCursor::new(words);
    places.note_unless(FaultKind::Limit, room);
    let name = places.new_name(script);
    places.finish(name)
}

/// A buffer collection, where `room` says whether there may be one more.
pub fn buffers<'a>(
    script: &IndexedScript,
    room: bool,
    words: Option<&'a [u8]>,
) -> Result<(&'a [u8], BufferDecl), FaultKind>
    requires { IsIndexed script.now }
    ensures { mapped (λ d. (d.0.now, d.1)) result
        ≡ unless_kind Limit room (whole (buffers script.now.script)
        (pieces_left is_space words.entry)) }
{
    let mut places = WordCursor::new(words);
    places.note_unless(FaultKind::Limit, room);
    let name = places.new_name(script);
    let owner = places.session(script);
    let count = places.number_from(1, BUFFERS_PER_COLLECTION_MAX);
    let w = places.number_from(1, SIDE_MAX);
    let h = places.number_from(1, SIDE_MAX);
    places.finish((name, BufferDecl { owner, count, w, h }))
}

/// A pair, where `room` says whether there may be one more, and `paired` whether
/// the display has one.
pub fn pair<'a>(
    script: &IndexedScript,
    room: bool,
    paired: bool,
    words: Option<&'a [u8]>,
) -> Result<(&'a [u8], PairDecl), FaultKind>
    requires indexed { IsIndexed script.now }
    requires paired { paired ≡ has_display_pair script.now.script }
    ensures { mapped (λ d. (d.0.now, d.1)) result
        ≡ unless_kind Limit room (whole (pair script.now.script)
        (pieces_left is_space words.entry)) }
{
    let mut places = WordCursor::new(words);
    places.note_unless(FaultKind::Limit, room);
    let name = places.new_name(script);
    let viewport = places.pair_owner(script, paired);
    let view = places.session(script);
    places.finish((name, PairDecl { viewport, view }))
}

/// A fence, where `room` says whether there may be one more.
pub fn fence<'a>(
    alloc: Global,
    script: &IndexedScript,
    room: bool,
    words: Option<&'a [u8]>,
) -> Result<(&'a [u8], FenceDecl), LineError>
    requires { IsIndexed script.now }
    ensures { ReachesBy (λ d. (d.0.now, d.1)) result
        (unless_kind Limit room (whole (head.fence script.now.script)
        (pieces_left is_space words.entry))) }
{
    let mut places = WordCursor::new(words);
    places.note_unless(FaultKind::Limit, room);
    let name = places.new_name(script);
    let owners = places.owners(alloc, script)?;
    match places.finish((name, FenceDecl { owners })) {
        Ok(found) => Ok(found),
        Err(k) => Err(LineError::Kind(k)),
    }
}

/// The end of the head, where `ready` says whether all is there.
pub fn run(ready: bool, words: Option<&[u8]>) -> Result<(), FaultKind>
    ensures { result ≡ unless_kind BadHead ready
        (whole (give tt) (pieces_left is_space words.entry)) }
{
    let mut places = WordCursor::new(words);
    places.note_unless(FaultKind::BadHead, ready);
    places.finish(())
}

/// A fence of the actor, and nothing behind it.
pub fn owned_fence(
    script: &IndexedScript,
    owner: Actor,
    words: Option<&[u8]>,
) -> Result<FenceNo, FaultKind>
    requires { IsIndexed script.now }
    ensures { result ≡ whole (fence script.now.script owner) (pieces_left is_space words.entry) }
{
    let mut places = WordCursor::new(words);
    let found = places.fence(script, owner);
    places.finish(found)
}

/// The time of a begin, where `begins` counts the earlier ones, `in_frame` says
/// whether a frame is open, and `last` is the greatest earlier time.
fn begin(
    script: &IndexedScript,
    begins: u32,
    in_frame: bool,
    last: u64,
    words: Option<&[u8]>,
) -> Result<u64, FaultKind>
    requires { last ≡ greatest (begin_times script.now.script) }
    ensures { result ≡ unless_kind Limit (nat_lt begins FRAMES_MAX)
        (unless_kind BadOrder (not in_frame) (whole (begin_place script.now.script)
        (pieces_left is_space words.entry))) }
{
    let mut places = WordCursor::new(words);
    places.note_unless(FaultKind::Limit, begins < FRAMES_MAX);
    places.note_unless(FaultKind::BadOrder, !in_frame);
    let time = begin_time(&mut places, script, last);
    places.finish(time)
}

/// A time that isn't before `last`, the greatest of the earlier begins.
fn begin_time(places: &mut WordCursor, script: &IndexedScript, last: u64) -> u64
    requires { last ≡ greatest (begin_times script.now.script) }
    ensures { Reads (begin_place script.now.script) places.old places.new result }
{
    let Some(word) = places.next() else {
        places.note(FaultKind::WrongCount);
        return 0;
    };
    match time_from(word, last) {
        Ok(time) => time,
        Err(kind) => {
            places.note(kind);
            0
        }
    }
}

/// The time that the word is, where it isn't before `least`.
fn time_from(word: &[u8], least: u64) -> Result<u64, FaultKind>
    ensures { result ≡ in_order least (whole time (word.now ∷ [])) }
{
    let Some(number) = read_natural(word) else {
        return Err(FaultKind::BadNumber);
    };
    if number > TIME_MAX as u128 {
        return Err(FaultKind::BadNumber);
    }
    if number < least as u128 {
        return Err(FaultKind::BadOrder);
    }
    Ok(number as u64)
}

fn done(in_frame: bool, words: Option<&[u8]>) -> Result<DisplayLine, FaultKind>
    ensures { result ≡ unless_kind BadOrder in_frame
        (whole (give Done) (pieces_left is_space words.entry)) }
{
    let mut places = WordCursor::new(words);
    places.note_unless(FaultKind::BadOrder, in_frame);
    places.finish(DisplayLine::Done)
}

/// What a line of the display writes, where `begins` and `dones` count the
/// earlier ones and `last` is the greatest earlier time.
pub fn display_line(
    script: &IndexedScript,
    begins: u32,
    ended: u32,
    last: u64,
    words: Option<&[u8]>,
) -> Result<DisplayLine, FaultKind>
    requires indexed { IsIndexed script.now }
    requires begun { begins ≡ length (begin_times script.now.script) }
    requires all_ended { ended ≡ dones script.now.script }
    requires latest { last ≡ greatest (begin_times script.now.script) }
    ensures { result ≡ display_line script.now.script
        (pieces_left is_space words.entry) }
{
    let Some(words) = words else {
        return Err(FaultKind::UnknownCall);
    };
    let (word, rest) = next_piece(words, b' ');
    if is_word(word, "begin") {
        return match begin(script, begins, ended < begins, last, rest) {
            Ok(time) => Ok(DisplayLine::Begin(time)),
            Err(k) => Err(k),
        };
    }
    if is_word(word, "done") {
        return done(ended < begins, rest);
    }
    timeless_line(script, word, rest)
}

/// What a line of the display that is neither a begin nor a done writes, behind its
/// first word.
fn timeless_line(
    script: &IndexedScript,
    word: &[u8],
    words: Option<&[u8]>,
) -> Result<DisplayLine, FaultKind>
    requires { IsIndexed script.now }
    ensures { bytes_eq word.now (codes "begin") ≡ false → bytes_eq word.now (codes "done") ≡ false →
        result ≡ display_line script.now.script (word.now ∷ pieces_left is_space
        words.entry) }
{
    if is_word(word, "Signal") {
        return match owned_fence(script, Actor::Display, words) {
            Ok(f) => Ok(DisplayLine::Signal(f)),
            Err(k) => Err(k),
        };
    }
    if is_word(word, "Wait") {
        return match display_condition(script, words) {
            Ok(c) => Ok(DisplayLine::Wait(c)),
            Err(k) => Err(k),
        };
    }
    if is_word(word, "hit") {
        return hit(words);
    }
    if is_word(word, "dpr") && knows(script.script.version, word) {
        return dpr(words);
    }
    Err(FaultKind::UnknownCall)
}

/// A pixel ratio of the display.
fn dpr(words: Option<&[u8]>) -> Result<DisplayLine, FaultKind>
    ensures { result ≡ whole ratio_line (pieces_left is_space words.entry) }
{
    let mut places = WordCursor::new(words);
    let ratio = places.ratio();
    places.finish(DisplayLine::Dpr(ratio))
}

/// What a line of a probe writes, whatever the script's version.
pub fn probe_line(words: Option<&[u8]>) -> Result<ProbeLine, FaultKind>
    ensures { (version : ℕ) → result ≡ probe_line version (pieces_left is_space words.entry) }
{
    let Some(words) = words else {
        return Err(FaultKind::UnknownCall);
    };
    let (word, rest) = next_piece(words, b' ');
    if is_word(word, "hit") {
        return probe_hit(rest);
    }
    if is_word(word, "await") {
        return match count(rest) {
            Ok(n) => Ok(ProbeLine::Await(n)),
            Err(k) => Err(k),
        };
    }
    Err(FaultKind::UnknownCall)
}

/// A question of the display, who is hit at a point.
fn hit(words: Option<&[u8]>) -> Result<DisplayLine, FaultKind>
    ensures { result ≡ whole (point (λ x y. display.Hit x y)) (pieces_left is_space words.entry) }
{
    let mut places = WordCursor::new(words);
    let x = places.i32();
    let y = places.i32();
    places.finish(DisplayLine::Hit(x, y))
}

/// The same question of a probe.
fn probe_hit(words: Option<&[u8]>) -> Result<ProbeLine, FaultKind>
    ensures { result ≡ whole (point (λ x y. probe.Hit x y)) (pieces_left is_space words.entry) }
{
    let mut places = WordCursor::new(words);
    let x = places.i32();
    let y = places.i32();
    places.finish(ProbeLine::Hit(x, y))
}

//! A session that reads its lines when it is its turn.
ghost use Rattle.std.specs.Prelude.{◌≡◌, ◌+◌, ◌<◌, ◌^◌, true, false, length, nat_lt, IfOk, OnOk};
ghost use Rattle.std.specs.Option.{option_copied};
ghost use Rattle.flat_base.specs.declared.ids.Actor.TheVariants.{Session};
ghost use Rattle.flat_scene.specs.declared.journal.Reply.{Reply};
ghost use Rattle.flat_scene.specs.History.{own};
ghost use Rattle.flat_scene.specs.Setups.{is_declared};
ghost use Rattle.flat_core.specs.Machines.{HasShare};
ghost use Rattle.flat_rules.specs.Owned.{is_played_line};
ghost use Rattle.flat_playable.specs.Playable.{is_playable};
ghost use Rattle.flat_play.specs.Playing.{shares_of};
ghost use Rattle.flat_session.specs.Reads.{Reads, Stands};
ghost use Rattle.flat_judge.specs.GuidedRuns.{Goes, IsAt, Sits, own_text};

use flat_base::{Actor, NoMemory, SessionNo, TryCopy};
use flat_core::Board;
use flat_places::Script;
use flat_scene::{LineBody, ScriptLine, SessionLine};
use flat_session::{SessionReader, lines_are_read};
use std::alloc::Global;

/// A session at its place of the script.
#[derive(Drop)]
pub struct SessionCursor {
    pub reader: SessionReader,
    /// The place up to which its lines are read.
    pub place: usize,
    pub has_ended: bool,
}

/// The line of a session that a line is.
fn own_text(s: SessionNo, line: &ScriptLine) -> Option<&SessionLine>
    ensures { option_copied result ≡ own_text s line.now.actor line.now.body }
{
    match (line.actor, &line.body) {
        (Actor::Session(t), LineBody::Session(text)) => {
            if t.0 == s.0 { Some(text) } else { None }
        }
        _ => None,
    }
}

/// Reads a line of a session, and says whether it made an entry.
fn hear(
    alloc: Global,
    board: &mut Board,
    reader: &mut SessionReader,
    number: u32,
    text: &SessionLine,
) -> Result<bool, NoMemory>
    requires owned { is_played_line board.old.setup reader.old.session text.now ≡ true }
    requires share { HasShare board.old (Session reader.old.session) }
    requires few { reader.old.refused + 1 < 2 ^ 32 }
    requires stands { Stands board.old.setup (own reader.old.session board.old.history) reader.old }
    ensures reads { OnOk result ((reply : Reply) × Reads number text.now reply board.old board.new
        reader.old reader.new reader.old.closed) }
    ensures stands { OnOk result (Stands board.new.setup (own reader.old.session board.new.history)
        reader.new) }
    ensures made { IfOk result (λ made. made
        ≡ nat_lt (length board.old.history) (length board.new.history)) }
{
    let before = board.journal().entries.len();
    let text = text.copy(alloc)?;
    let _reply = reader.call(board, number, text)?;
    Ok(before < board.journal().entries.len())
}

impl SessionCursor {
    /// Goes behind the line at its place, which it reads where it is the session's, and says
    /// whether it made an entry.
    fn step(
        &mut self,
        alloc: Global,
        script: &Script,
        board: &mut Board,
        s: SessionNo,
    ) -> Result<bool, NoMemory>
        requires playable { is_playable script.now ≡ true }
        requires setup { board.old.setup ≡ script.now.setup }
        requires shares { board.old.shares ≡ shares_of script.now }
        requires within { self.old.place < length script.now.lines }
        requires sits { IsAt script.now s board.old.history self.old }
        ensures sits { OnOk result (IsAt script.now s board.new.history self.new) }
        ensures place { OnOk result (self.new.place ≡ self.old.place + 1) }
        ensures same { self.new.has_ended ≡ self.old.has_ended }
        ensures goes { IfOk result (λ made. Goes (Session s) board.old board.new made) }
    {
        lines_are_read();
        let line = script.lines.at(self.place);
        match own_text(s, line) {
            Some(text) => {
                let made = hear(alloc, board, &mut self.reader, line.number, text)?;
                self.place += 1;
                Ok(made)
            }
            None => {
                self.place += 1;
                Ok(false)
            }
        }
    }

    /// Makes the session's End, behind all its lines.
    fn end(&mut self, script: &Script, board: &mut Board, s: SessionNo)
        requires playable { is_playable script.now ≡ true }
        requires declared { is_declared script.now.setup s ≡ true }
        requires setup { board.old.setup ≡ script.now.setup }
        requires shares { board.old.shares ≡ shares_of script.now }
        requires place { self.old.place ≡ length script.now.lines }
        requires sits { IsAt script.now s board.old.history self.old }
        ensures sits { Sits script.now s board.new.history self.new }
        ensures ended { self.new.has_ended ≡ true }
        ensures goes { Goes (Session s) board.old board.new true }
    {
        lines_are_read();
        let _reply = self.reader.end(board, script.count + 1);
        self.has_ended = true;
    }

    /// Makes the next entry of a session that hasn't ended: that of the first line from its
    /// place on that makes one, or its End.
    pub(crate) fn turn(
        &mut self,
        alloc: Global,
        script: &Script,
        board: &mut Board,
        s: SessionNo,
    ) -> Result<(), NoMemory>
        requires playable { is_playable script.now ≡ true }
        requires declared { is_declared script.now.setup s ≡ true }
        requires setup { board.old.setup ≡ script.now.setup }
        requires shares { board.old.shares ≡ shares_of script.now }
        requires open { self.old.has_ended ≡ false }
        requires sits { IsAt script.now s board.old.history self.old }
        ensures sits { OnOk result (Sits script.now s board.new.history self.new) }
        ensures goes { OnOk result (Goes (Session s) board.old board.new true) }
        ensures later { OnOk result (self.new.has_ended ≡ false → self.old.place < self.new.place) }
    {
        for _ in self.place..script.lines.len() {
            if self.step(alloc, script, board, s)? {
                return Ok(());
            }
        }
        self.end(script, board, s);
        Ok(())
    }
}

ghost use Rattle.std.specs.Prelude.{◌≡◌, ◌<◌, ◌≤◌, ◌+◌, ◌^◌, OnOk, OnErr, Ok, Err, nat_lt};
ghost use Rattle.flat_text.specs.Pieces.{is_space, words_of};
ghost use Rattle.flat_text.specs.Left.{pieces_left};
ghost use Rattle.flat_forms.specs.declared.lines.LineError.TheVariants.{Memory};
ghost use Rattle.flat_forms.specs.declared.lines.TextPart.TheVariants.{Start};
ghost use Rattle.flat_places.specs.Forms.{Reading, mapped};
ghost use Rattle.flat_forms.specs.Head.{has_display, display_line, session_line, probe_line, buffers_line, pair_line};
ghost use Rattle.flat_forms.specs.Head.{fence_line, head_line, is_ready, empty};
ghost use Rattle.flat_forms.specs.Body.{with_line, counted_line, body_line, actor_line, lines_of_actor};
ghost use Rattle.flat_forms.specs.Lines.{words_read};
ghost use Rattle.flat_places.specs.Slots.{IsCounted};
ghost use Rattle.flat_forms.specs.Steps.{Steps, Reaches};
ghost use Rattle.flat_forms.specs.Progress.{Kept, sofar_of, SameFrames};

use crate::counts::{
    ACTORS_MAX, ends_frame, last_after, limited, one_if, or_display, slot, time_begun,
};
use crate::declared::{add_name, empty};
use crate::lines::{LineError, TextPart};
use crate::{forms, session_forms};
use flat_base::{
    Actor, BUFFER_COLLECTIONS_MAX, FENCES_MAX, LINES_PER_ACTOR_MAX, PAIRS_MAX, PROBES_MAX,
    SESSIONS_MAX,
};
use flat_places::{FaultKind, IndexedScript, NameMeaning, Names, is_word};
use flat_scene::{LineBody, ScriptLine};
use flat_text::next_piece;
use std::alloc::Global;

/// The script so far, and counts over it, which are those of the script (`Kept`).
#[derive(Drop)]
pub struct Parser {
    /// The part of the text that the next line is in.
    pub part: TextPart,
    /// The script so far, with its names.
    pub text: IndexedScript,
    /// Whether the display has a pair.
    pub paired: bool,
    /// The begins of frames.
    pub begins: u32,
    /// The ends of frames.
    pub dones: u32,
    /// The greatest time of a begin.
    pub last: u64,
    /// The lines of each actor, at its place of `slot`.
    pub counts: [u32; ACTORS_MAX],
}

impl Parser {
    /// Nothing read yet. It takes no memory.
    pub fn new(alloc: Global) -> Parser
        ensures kept { Kept result }
        ensures start { sofar_of result ≡ (Start, empty) }
        ensures none { (result.begins ≡ 0) × (result.dones ≡ 0) }
    {
        Parser {
            part: TextPart::Start,
            text: IndexedScript {
                script: empty(alloc),
                names: Names::new(alloc),
            },
            paired: false,
            begins: 0,
            dones: 0,
            last: 0,
            counts: [0; ACTORS_MAX],
        }
    }

    fn has_display(&self) -> bool
        ensures { result ≡ has_display self.now.text.script }
    {
        self.text.script.setup.width > 0
    }

    fn display(&mut self, words: Option<&[u8]>) -> Result<(), LineError>
        requires { Kept self.old }
        ensures steps { Steps result (display_line self.old.text.script
            (pieces_left is_space words.entry)) self.new.text.script }
        ensures kept { OnOk result (Kept self.new) }
        ensures same { SameFrames self.old self.new }
    {
        let version = self.text.script.version;
        let (width, height, ratio) = forms::size(!self.has_display(), version, words)?;
        self.text.script.setup.width = width;
        self.text.script.setup.height = height;
        self.text.script.setup.ratio = ratio;
        Ok(())
    }

    fn session(&mut self, words: Option<&[u8]>) -> Result<(), LineError>
        requires { Kept self.old }
        ensures steps { Steps result (session_line self.old.text.script
            (pieces_left is_space words.entry)) self.new.text.script }
        ensures kept { OnOk result (Kept self.new) }
        ensures same { SameFrames self.old self.new }
    {
        let number = self.text.script.sessions.len() as u32;
        let name = forms::lone_name(&self.text, number < SESSIONS_MAX, words)?;
        self.text.script.setup.sessions += 1;
        add_name(
            &mut self.text.script.sessions,
            &mut self.text.names,
            name,
            NameMeaning::Session(number),
        )?;
        Ok(())
    }

    fn probe(&mut self, words: Option<&[u8]>) -> Result<(), LineError>
        requires { Kept self.old }
        ensures steps { Steps result (probe_line self.old.text.script
            (pieces_left is_space words.entry)) self.new.text.script }
        ensures kept { OnOk result (Kept self.new) }
        ensures same { SameFrames self.old self.new }
    {
        let number = self.text.script.probes.len() as u32;
        let name = forms::lone_name(&self.text, number < PROBES_MAX, words)?;
        self.text.script.setup.probes += 1;
        add_name(
            &mut self.text.script.probes,
            &mut self.text.names,
            name,
            NameMeaning::Probe(number),
        )?;
        Ok(())
    }

    fn buffers(&mut self, words: Option<&[u8]>) -> Result<(), LineError>
        requires { Kept self.old }
        ensures steps { Steps result (buffers_line self.old.text.script
            (pieces_left is_space words.entry)) self.new.text.script }
        ensures kept { OnOk result (Kept self.new) }
        ensures same { SameFrames self.old self.new }
    {
        let number = self.text.script.buffers.len() as u32;
        let (name, decl) = forms::buffers(&self.text, number < BUFFER_COLLECTIONS_MAX, words)?;
        self.text.script.setup.buffers.push(decl)?;
        add_name(
            &mut self.text.script.buffers,
            &mut self.text.names,
            name,
            NameMeaning::Buffers(number),
        )?;
        Ok(())
    }

    fn pair(&mut self, words: Option<&[u8]>) -> Result<(), LineError>
        requires { Kept self.old }
        ensures steps { Steps result (pair_line self.old.text.script
            (pieces_left is_space words.entry)) self.new.text.script }
        ensures kept { OnOk result (Kept self.new) }
        ensures same { SameFrames self.old self.new }
    {
        let number = self.text.script.pairs.len() as u32;
        let (name, decl) = forms::pair(&self.text, number < PAIRS_MAX, self.paired, words)?;
        self.paired = or_display(self.paired, decl.viewport);
        self.text.script.setup.pairs.push(decl)?;
        add_name(
            &mut self.text.script.pairs,
            &mut self.text.names,
            name,
            NameMeaning::Pair(number),
        )?;
        Ok(())
    }

    fn fence(&mut self, alloc: Global, words: Option<&[u8]>) -> Result<(), LineError>
        requires { Kept self.old }
        ensures steps { Steps result (fence_line self.old.text.script
            (pieces_left is_space words.entry)) self.new.text.script }
        ensures kept { OnOk result (Kept self.new) }
        ensures same { SameFrames self.old self.new }
    {
        let number = self.text.script.fences.len() as u32;
        let (name, decl) = forms::fence(alloc, &self.text, number < FENCES_MAX, words)?;
        self.text.script.setup.fences.push(decl)?;
        add_name(
            &mut self.text.script.fences,
            &mut self.text.names,
            name,
            NameMeaning::Fence(number),
        )?;
        Ok(())
    }

    fn head(&mut self, alloc: Global, words: &[u8]) -> Result<(), LineError>
        requires { Kept self.old }
        ensures steps { Steps result (head_line self.old.text.script
            (words_of words.now)) self.new.text.script }
        ensures kept { OnOk result (Kept self.new) }
        ensures same { SameFrames self.old self.new }
    {
        let (word, rest) = next_piece(words, b' ');
        if is_word(word, "display") {
            return self.display(rest);
        }
        if is_word(word, "session") {
            return self.session(rest);
        }
        if is_word(word, "probe") {
            return self.probe(rest);
        }
        if is_word(word, "buffers") {
            return self.buffers(rest);
        }
        if is_word(word, "pair") {
            return self.pair(rest);
        }
        if is_word(word, "fence") {
            return self.fence(alloc, rest);
        }
        Err(LineError::Kind(FaultKind::BadHead))
    }

    fn actor_line(
        &self,
        alloc: Global,
        actor: Actor,
        words: Option<&[u8]>,
    ) -> Result<LineBody, LineError>
        requires { Kept self.now }
        ensures { Reaches result (actor_line self.now.text.script actor
            (pieces_left is_space words.entry)) }
    {
        match actor {
            Actor::Display => match forms::display_line(
                &self.text,
                self.begins,
                self.dones,
                self.last,
                words,
            ) {
                Ok(found) => Ok(LineBody::Display(found)),
                Err(k) => Err(LineError::Kind(k)),
            },
            Actor::Session(session) => match session_forms::session_line(
                alloc, &self.text, session, words,
            ) {
                Ok(found) => Ok(LineBody::Session(found)),
                Err(e) => Err(e),
            },
            Actor::Probe(_) => match forms::probe_line(words) {
                Ok(found) => Ok(LineBody::Probe(found)),
                Err(k) => Err(LineError::Kind(k)),
            },
        }
    }

    /// Whether the actor may have one more line.
    pub(crate) fn has_room(&self, actor: Actor) -> bool
        requires kept { Kept self.now }
        requires counted { IsCounted actor }
        ensures { result ≡ nat_lt (lines_of_actor self.now.text.script actor) LINES_PER_ACTOR_MAX }
    {
        self.counts[slot(actor)] < LINES_PER_ACTOR_MAX
    }

    /// Puts the line at the script's end.
    pub(crate) fn take(
        &mut self,
        number: u32,
        actor: Actor,
        body: LineBody,
    ) -> Result<(), LineError>
        requires kept { Kept self.old }
        requires counted { IsCounted actor }
        requires room { lines_of_actor self.old.text.script actor < LINES_PER_ACTOR_MAX }
        requires begins { self.old.begins + 1 < 2 ^ 32 }
        requires dones { self.old.dones + 1 < 2 ^ 32 }
        ensures script { OnOk result (self.new.text.script
            ≡ with_line self.old.text.script number actor body) }
        ensures kept { OnOk result (Kept self.new) }
        ensures part { self.new.part ≡ self.old.part }
        ensures memory { OnErr result (result ≡ Err Memory) }
        ensures few { (self.new.begins ≤ self.old.begins + 1)
            × (self.new.dones ≤ self.old.dones + 1) }
    {
        let begun = time_begun(&body);
        self.begins += one_if(begun.is_some());
        self.last = last_after(self.last, begun);
        self.dones += one_if(ends_frame(&body));
        self.counts[slot(actor)] += 1;
        self.text.script.lines.push(ScriptLine {
            number,
            actor,
            body,
        })?;
        Ok(())
    }

    fn counted(
        &mut self,
        alloc: Global,
        number: u32,
        actor: Actor,
        words: Option<&[u8]>,
    ) -> Result<(), LineError>
        requires kept { Kept self.old }
        requires counted { IsCounted actor }
        requires begins { self.old.begins + 1 < 2 ^ 32 }
        requires dones { self.old.dones + 1 < 2 ^ 32 }
        ensures steps { Steps result (counted_line self.old.text.script number actor
            (pieces_left is_space words.entry)) self.new.text.script }
        ensures kept { OnOk result (Kept self.new) }
        ensures part { self.new.part ≡ self.old.part }
        ensures few { (self.new.begins ≤ self.old.begins + 1)
            × (self.new.dones ≤ self.old.dones + 1) }
    {
        let room = self.has_room(actor);
        match self.actor_line(alloc, actor, words) {
            Ok(body) => {
                if room {
                    self.take(number, actor, body)
                } else {
                    Err(LineError::Kind(FaultKind::Limit))
                }
            }
            Err(LineError::Kind(k)) => Err(LineError::Kind(limited(room, k))),
            Err(LineError::Memory) => Err(LineError::Memory),
        }
    }

    fn body(&mut self, alloc: Global, number: u32, words: &[u8]) -> Result<(), LineError>
        requires kept { Kept self.old }
        requires begins { self.old.begins + 1 < 2 ^ 32 }
        requires dones { self.old.dones + 1 < 2 ^ 32 }
        ensures steps { Steps result (body_line self.old.text.script number
            (words_of words.now)) self.new.text.script }
        ensures kept { OnOk result (Kept self.new) }
        ensures part { self.new.part ≡ self.old.part }
        ensures few { (self.new.begins ≤ self.old.begins + 1)
            × (self.new.dones ≤ self.old.dones + 1) }
    {
        let (word, rest) = next_piece(words, b' ');
        let Some(actor) = self.text.actor(word) else {
            return Err(LineError::Kind(FaultKind::UnknownActor));
        };
        self.counted(alloc, number, actor, rest)
    }

    fn is_ready(&self) -> bool
        requires { Kept self.now }
        ensures { result ≡ is_ready self.now.text.script }
    {
        if !self.has_display() {
            return false;
        }
        if self.text.script.sessions.len() == 0 {
            return false;
        }
        self.paired
    }

    /// Reads the words of the line of that number. A line at fault, or no memory,
    /// ends the reading: nothing is said of the parser then.
    pub fn words(&mut self, alloc: Global, number: u32, words: &[u8]) -> Result<(), LineError>
        requires kept { Kept self.old }
        requires begins { self.old.begins + 1 < 2 ^ 32 }
        requires dones { self.old.dones + 1 < 2 ^ 32 }
        ensures steps { Steps result (words_read number (sofar_of self.old)
            (words_of words.now)) (sofar_of self.new) }
        ensures kept { OnOk result (Kept self.new) }
        ensures few { (self.new.begins ≤ self.old.begins + 1)
            × (self.new.dones ≤ self.old.dones + 1) }
    {
        match self.part {
            TextPart::Start => {
                self.text.script.version = forms::first_line(words)?;
                self.part = TextPart::Head;
                Ok(())
            }
            TextPart::Head => {
                let (word, rest) = next_piece(words, b' ');
                if is_word(word, "run") {
                    forms::run(self.is_ready(), rest)?;
                    self.part = TextPart::Body;
                    return Ok(());
                }
                self.head(alloc, words)
            }
            TextPart::Body => self.body(alloc, number, words),
        }
    }
}

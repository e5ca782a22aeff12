ghost use Rattle.std.specs.Prelude.{◌≡◌, ◌<◌, ◌≤◌, ◌^◌, ℕ, length, [], Ok, Err, IfSome, IfOk, IfErr, OnErr, FitsSigned};
ghost use Rattle.std.specs.Prelude.{◌+◌};
ghost use Rattle.std.specs.Int.{w32};
ghost use Rattle.flat_text.specs.Number.{signed};
ghost use Rattle.flat_text.specs.Pieces.{is_space};
ghost use Rattle.flat_text.specs.Left.{pieces_left};
ghost use Rattle.flat_places.specs.Forms.{passes, optional};
ghost use Rattle.flat_places.specs.Places.{number_below, number_from, transform, content, time, u32, colour, i32};
ghost use Rattle.flat_places.specs.Places.{int_rect, inset, orientation, blend, choice, flip, interaction, region};
ghost use Rattle.flat_places.specs.Places.{regions, transforms, unsquashable, version, ratio, first_ratio};
ghost use Rattle.flat_places.specs.Reads.{Reads, TakesWord, left, sofar, lower, giving, finished, reading_of};

use crate::kinds::FaultKind;
use crate::known::knows;
use crate::names::is_word;
use crate::numbers::{chosen, number_in, version_in};
use flat_base::{
    COLOUR_MAX, ContentId, INSET_MAX, IntRect, Items, NoMemory, ONE, Orientation, RATIO_MAX,
    RATIO_MIN, RATIO_SINCE, TIME_MAX, TransformId,
};
use flat_scene::{BlendMode, HitRegion, ImageFlip, Inset, Interaction, RegionList, TransformList};
use flat_text::{next_piece, read_natural, read_number};
use std::alloc::Global;

/// The words of a line that are left, and the lowest kind of fault so far.
///
/// Each method takes the words of its places and gives their value. Where a word is
/// missing or at fault, it notes the kind, and the value says nothing; at the end
/// `finish` gives the kind in place of the line's value.
#[derive(Drop)]
pub struct WordCursor<'a> {
    /// The words that are left, None where there is none.
    pub words: Option<&'a [u8]>,
    /// The lowest kind of fault so far.
    pub fault: Option<FaultKind>,
}

impl<'a> WordCursor<'a> {
    /// All these words, and no fault yet; None for no words.
    pub fn new(words: Option<&'a [u8]>) -> WordCursor<'a>
        ensures words { left result ≡ pieces_left is_space words.entry }
        ensures sofar { sofar result ≡ Ok tt }
    {
        WordCursor { words, fault: None }
    }

    /// Takes the next word, None where none is left.
    pub fn next(&mut self) -> Option<&'a [u8]>
        ensures taken { TakesWord (left self.old) result (left self.new) }
        ensures same { self.new.fault ≡ self.old.fault }
    {
        let words = self.words?;
        let (word, rest) = next_piece(words, b' ');
        self.words = rest;
        Some(word)
    }

    /// Keeps the kind, unless a lower one was noted.
    pub fn note(&mut self, kind: FaultKind)
        ensures words { self.new.words ≡ self.old.words }
        ensures lower { sofar self.new ≡ lower (sofar self.old) (Err kind) }
    {
        self.fault = Some(lowest(self.fault, kind));
    }

    /// The same, unless the test passes.
    pub fn note_unless(&mut self, kind: FaultKind, test: bool)
        ensures words { self.new.words ≡ self.old.words }
        ensures lower { sofar self.new ≡ lower (sofar self.old) (passes kind test) }
    {
        if !test {
            self.note(kind);
        }
    }

    /// The value that was read, or the other one where there was a fault, which is kept.
    pub(crate) fn kept<T: Copy>(&mut self, read: Result<T, FaultKind>, other: T) -> T
        ensures words { self.new.words ≡ self.old.words }
        ensures lower { lower (sofar self.old) read ≡ giving result (sofar self.new) }
    {
        match read {
            Ok(value) => value,
            Err(kind) => {
                self.note(kind);
                other
            }
        }
    }

    /// One of the values, which are numbered from `first` on.
    fn choice<T: Copy>(&mut self, first: u128, values: &[T]) -> T
        requires { 0 < length values.now }
        ensures { Reads (choice first values.now) self.old self.new result }
    {
        let Some(word) = self.next() else {
            return self.kept(Err(FaultKind::WrongCount), values[0]);
        };
        self.kept(chosen(word, first, values), values[0])
    }

    /// A number from 0 to that one.
    fn number_to(&mut self, most: u64) -> u64
        ensures reads { Reads (number_below (most + 1)) self.old self.new result }
        ensures small { result ≤ most }
    {
        let Some(word) = self.next() else {
            self.note(FaultKind::WrongCount);
            return 0;
        };
        match read_natural(word) {
            Some(n) if n <= most as u128 => n as u64,
            _ => {
                self.note(FaultKind::BadNumber);
                0
            }
        }
    }

    /// The id of a transform.
    pub fn transform(&mut self) -> TransformId
        ensures { Reads transform self.old self.new result }
    {
        TransformId(self.number_to(u64::MAX))
    }

    /// Ids of transforms to the end of the line. Fails only if memory runs out.
    pub fn transforms(&mut self, alloc: Global) -> Result<TransformList, NoMemory>
        ensures { IfOk result (λ v. Reads (λ words. (transforms words, [])) self.old self.new v) }
    {
        let mut found = Items::new(alloc);
        while self.words.is_some() {
            let one = self.transform();
            found.push(one)?;
        }
        Ok(found)
    }

    /// The id of a content.
    pub fn content(&mut self) -> ContentId
        ensures { Reads content self.old self.new result }
    {
        ContentId(self.number_to(u64::MAX))
    }

    /// A time.
    pub fn time(&mut self) -> u64
        ensures { Reads time self.old self.new result }
    {
        self.number_to(TIME_MAX)
    }

    /// A number of 32 bits.
    pub fn u32(&mut self) -> u32
        ensures { Reads u32 self.old self.new result }
    {
        self.number_to(u32::MAX as u64) as u32
    }

    /// A channel of a colour.
    pub fn colour(&mut self) -> u8
        ensures { Reads colour self.old self.new result }
    {
        self.number_to(COLOUR_MAX as u64) as u8
    }

    /// A number of the range, both ends in it.
    pub fn number_from(&mut self, least: u32, most: u32) -> u32
        ensures { Reads (number_from least most) self.old self.new result }
    {
        let Some(word) = self.next() else {
            return self.kept(Err(FaultKind::WrongCount), 0);
        };
        self.kept(number_in(word, least, most), 0)
    }

    /// A number of 32 bits with a sign.
    pub fn i32(&mut self) -> i32
        ensures reads { Reads i32 self.old self.new result }
        ensures fits { FitsSigned w32 result }
    {
        let Some(word) = self.next() else {
            self.note(FaultKind::WrongCount);
            return 0;
        };
        match signed_in(word) {
            Some(n) if i32::MIN as i128 <= n && n <= i32::MAX as i128 => n as i32,
            _ => {
                self.note(FaultKind::BadNumber);
                0
            }
        }
    }

    /// A rectangle: x, y, width and height.
    pub fn int_rect(&mut self) -> IntRect
        ensures { Reads int_rect self.old self.new result }
    {
        let x = self.i32();
        let y = self.i32();
        let w = self.i32();
        let h = self.i32();
        IntRect { x, y, w, h }
    }

    /// A rectangle, or None where no word is left.
    pub fn clip(&mut self) -> Option<IntRect>
        ensures { Reads (optional int_rect) self.old self.new result }
    {
        if self.words.is_none() {
            return None;
        }
        Some(self.int_rect())
    }

    fn inset(&mut self) -> Inset
        ensures { Reads inset self.old self.new result }
    {
        let top = self.number_to(INSET_MAX as u64) as u32;
        let right = self.number_to(INSET_MAX as u64) as u32;
        let bottom = self.number_to(INSET_MAX as u64) as u32;
        let left = self.number_to(INSET_MAX as u64) as u32;
        Inset {
            top,
            right,
            bottom,
            left,
        }
    }

    /// An inset, or None where no word is left.
    pub fn inset_if_any(&mut self) -> Option<Inset>
        ensures { Reads (optional inset) self.old self.new result }
    {
        if self.words.is_none() {
            return None;
        }
        Some(self.inset())
    }

    /// An orientation, written 1 to 4.
    pub fn orientation(&mut self) -> Orientation
        ensures { Reads orientation self.old self.new result }
    {
        self.choice(
            1,
            &[
                Orientation::Ccw0,
                Orientation::Ccw90,
                Orientation::Ccw180,
                Orientation::Ccw270,
            ],
        )
    }

    /// A blend mode, written 1 or 2.
    pub fn blend(&mut self) -> BlendMode
        ensures { Reads blend self.old self.new result }
    {
        self.choice(1, &[BlendMode::Src, BlendMode::SrcOver])
    }

    /// How an image is flipped, written 1 to 3.
    pub fn flip(&mut self) -> ImageFlip
        ensures { Reads flip self.old self.new result }
    {
        self.choice(
            1,
            &[ImageFlip::Plain, ImageFlip::LeftRight, ImageFlip::UpDown],
        )
    }

    /// How a hit region answers, written 0 or 1.
    pub fn interaction(&mut self) -> Interaction
        ensures { Reads interaction self.old self.new result }
    {
        self.choice(
            0,
            &[Interaction::Default, Interaction::SemanticallyInvisible],
        )
    }

    fn region(&mut self) -> HitRegion
        ensures { Reads region self.old self.new result }
    {
        let area = self.int_rect();
        let interaction = self.interaction();
        HitRegion {
            area: Some(area),
            interaction,
        }
    }

    /// Hit regions to the end of the line. Fails only if memory runs out.
    pub fn regions(&mut self, alloc: Global) -> Result<RegionList, NoMemory>
        ensures { IfOk result (λ v. Reads (λ words. (regions words, [])) self.old self.new v) }
    {
        let mut found = Items::new(alloc);
        while self.words.is_some() {
            let one = self.region();
            found.push(one)?;
        }
        Ok(found)
    }

    /// Whether `unsquashable` comes next, where scripts of that version may use it; it
    /// is taken then.
    pub fn unsquashable(&mut self, version: u32) -> bool
        ensures { Reads (unsquashable version) self.old self.new result }
    {
        let Some(words) = self.words else {
            return false;
        };
        let (word, rest) = next_piece(words, b' ');
        if is_word(word, "unsquashable") && knows(version, word) {
            self.words = rest;
            return true;
        }
        false
    }

    /// A pixel ratio of the display.
    pub fn ratio(&mut self) -> u32
        ensures { Reads ratio self.old self.new result }
    {
        self.number_from(RATIO_MIN, RATIO_MAX)
    }

    /// The display's first pixel ratio: one where no word is left, and where scripts of
    /// that version give none.
    pub fn first_ratio(&mut self, version: u32) -> u32
        ensures { Reads (first_ratio version) self.old self.new result }
    {
        if self.words.is_none() {
            return ONE;
        }
        if version < RATIO_SINCE {
            return ONE;
        }
        self.ratio()
    }

    /// The version of scripts.
    pub fn version(&mut self) -> u32
        ensures { Reads version self.old self.new result }
    {
        let Some(word) = self.next() else {
            return self.kept(Err(FaultKind::WrongCount), 0);
        };
        self.kept(version_in(word), 0)
    }

    /// The value, where all words are taken and none had a fault; else the lowest
    /// kind.
    pub fn finish<T: Drop>(self, value: T) -> Result<T, FaultKind>
        ensures reads { result ≡ finished value self.entry }
        ensures same { IfOk result (λ found. found ≡ value) }
    {
        match self.words {
            None => match self.fault {
                None => Ok(value),
                Some(k) => Err(k),
            },
            Some(_) => Err(lowest(self.fault, FaultKind::WrongCount)),
        }
    }
}

fn signed_in(word: &[u8]) -> Option<i128>
    ensures { result ≡ signed word.now }
{
    read_number(word)
}

fn lowest(fault: Option<FaultKind>, kind: FaultKind) -> FaultKind
    ensures { lower {A = Unit {0}} (reading_of fault) (Err kind) ≡ Err result }
{
    match fault {
        Some(k) => k.lower(kind),
        None => kind,
    }
}

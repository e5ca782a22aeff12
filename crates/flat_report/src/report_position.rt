//! Where a report stands: before which entry, and what is left there of what is handed in.
ghost use Rattle.std.specs.Prelude.{◌≡◌, ◌+◌, ◌<◌, ◌^◌, ◌-◌, cond, drop, take};
ghost use Rattle.flat_scene.specs.History.{is_finish};
ghost use Rattle.flat_report.specs.Handed.{after_entries, after_entry, answers_after};
ghost use Rattle.flat_report.specs.Handed.{first_posts, texts_after};
ghost use Rattle.flat_report.specs.Sections.{Fits, rest_of};

use crate::report::HitAnswer;
use crate::text_pieces::TextPieces;
use flat_scene::{Entry, EntryKind, PostedEvent};

/// Where a report stands before an entry.
#[derive(Clone, Copy)]
pub(crate) struct ReportPosition<'a> {
    /// The entry's place in the journal, from 0.
    pub(crate) place: usize,
    /// How many frames were finished before it.
    pub(crate) finished: u64,
    /// The texts of the frames that are finished from it on.
    pub(crate) texts: &'a [TextPieces],
    /// The answers to the points that are asked from it on.
    pub(crate) answers: &'a [HitAnswer],
    /// The events that are posted from it on.
    pub(crate) posts: &'a [PostedEvent],
}

/// How many of the posts, from the first, are of the entry at that place.
fn posts_of(posts: &[PostedEvent], place: usize) -> usize
    ensures { result ≡ first_posts place posts.now }
{
    posts
        .iter()
        .take_while(|post| post.entry as usize == place)
        .count()
}

/// The texts of frames after an entry of this kind.
fn texts_after<'a>(texts: &'a [TextPieces], kind: &EntryKind) -> &'a [TextPieces]
    ensures { result.now ≡ texts_after kind.now texts.now }
{
    match (kind, texts) {
        (EntryKind::Finish, [_, later @ ..]) => later,
        _ => texts,
    }
}

/// The answers after an entry of this kind.
fn answers_after<'a>(answers: &'a [HitAnswer], kind: &EntryKind) -> &'a [HitAnswer]
    ensures { result.now ≡ answers_after kind.now answers.now }
{
    match (kind, answers) {
        (EntryKind::Hit(_, _), [_, later @ ..]) => later,
        _ => answers,
    }
}

/// How many frames are finished after an entry of this kind.
fn finished_after(finished: u64, kind: &EntryKind) -> u64
    requires { finished < 2 ^ 64 - 1 }
    ensures { result ≡ finished + cond (is_finish kind.now) 1 0 }
{
    match kind {
        EntryKind::Finish => finished + 1,
        _ => finished,
    }
}

impl<'a> ReportPosition<'a> {
    /// Before the first entry, with all that is handed in.
    pub(crate) fn first(
        texts: &'a [TextPieces],
        answers: &'a [HitAnswer],
        posts: &'a [PostedEvent],
    ) -> ReportPosition<'a>
        ensures { rest_of result ≡ record {
          place = 0;
          finished = 0;
          texts = texts.now;
          answers = answers.now;
          posts = posts.now;
        } }
    {
        ReportPosition {
            place: 0,
            finished: 0,
            texts,
            answers,
            posts,
        }
    }

    /// The events that the entry posts, and those of later ones.
    pub(crate) fn split_posts(&self) -> (&'a [PostedEvent], &'a [PostedEvent])
        ensures own { result.0.now ≡
            take (first_posts self.now.place self.now.posts.now) self.now.posts.now }
        ensures later { result.1.now ≡
            drop (first_posts self.now.place self.now.posts.now) self.now.posts.now }
    {
        self.posts.split_at(posts_of(self.posts, self.place))
    }

    /// After the entry, where these are the events of later ones.
    pub(crate) fn after(&self, entry: &Entry, later: &'a [PostedEvent]) -> ReportPosition<'a>
        requires place { self.now.place < 2 ^ 63 }
        requires few { self.now.finished < 2 ^ 63 }
        requires later { later.now ≡
            drop (first_posts self.now.place self.now.posts.now) self.now.posts.now }
        ensures { rest_of result ≡ after_entry (rest_of self.now) entry.now }
    {
        ReportPosition {
            place: self.place + 1,
            finished: finished_after(self.finished, &entry.kind),
            texts: texts_after(self.texts, &entry.kind),
            answers: answers_after(self.answers, &entry.kind),
            posts: later,
        }
    }

    /// After some entries, of which nothing is written.
    pub(crate) fn skip(&self, entries: &[Entry]) -> ReportPosition<'a>
        requires { Fits self.now entries.now }
        ensures { rest_of result ≡ after_entries (rest_of self.now) entries.now }
    {
        let mut cursor = *self;
        for entry in entries {
            let (_, later) = cursor.split_posts();
            cursor = cursor.after(entry, later);
        }
        cursor
    }
}

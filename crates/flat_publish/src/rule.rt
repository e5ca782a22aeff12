//! The rule over the two copies: what each seat knows of their home. Nothing else says of a
//! reader that has read that it is of its writer's table.
use crate::latest_frame::LatestFrame;
use atomic_table::{Join, Split};
use crossbeam_utils::rule::{Outcome, Protocol};
use left_right::reader::Reader;
use left_right::writer::Writer;
use std::marker::Model;

/// Which book. No value of it is made.
pub struct BookIdentity {
    marker: (),
}

impl Model for BookIdentity {
    ghost use Rattle.logbook.specs.Pages.{Book};

    ghost Value = { Book };

    ghost view = { λ _. record { number = 0; log_name = 0; cells_name = 0 } };
}

pub struct SameBook;

impl Protocol<LatestFrame, Option<BookIdentity>> for SameBook {
    ghost use Rattle.std.specs.Prelude.{None};
    ghost use Rattle.flat_publish.specs.Told.{KnowsHome};

    ghost holds = { KnowsHome };

    ghost first = { None };
}

pub struct Looked;

impl Outcome<LatestFrame, Option<BookIdentity>> for Looked {
    ghost use Rattle.flat_publish.specs.Told.{Looks};

    ghost then = { Looks };
}

pub struct NextShown;

impl Outcome<LatestFrame, Option<BookIdentity>> for NextShown {
    ghost use Rattle.flat_publish.specs.Told.{Shows};

    ghost then = { Shows };
}

/// The writer tells its home, and a reader takes it over.
pub struct BookIdentityTold;

impl Split<Option<BookIdentity>> for BookIdentityTold {
    ghost left = { λ v. v };

    ghost right = { λ v. v };
}

impl Join<Option<BookIdentity>> for BookIdentityTold {
    ghost use Rattle.std.specs.Prelude.{None};

    ghost both = { λ _ w. w };

    ghost spent = { None };
}

pub type LatestReader = Reader<LatestFrame, Option<BookIdentity>, SameBook>;

pub type LatestWriter = Writer<LatestFrame, LatestFrame, Option<BookIdentity>, SameBook>;

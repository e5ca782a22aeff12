//! Which scripts are played: every one that the reader accepts.
#![tactic(auto)]

ghost use Rattle.flat_playable.specs.Laws.{SetupsAreGiven, CountsAreWithin, LinesRise};
ghost use Rattle.flat_playable.specs.Laws.{LinesAreCounted, FramesClose, LinesArePlayed};
ghost use Rattle.flat_playable.specs.Laws.{SessionsAreFew, ScriptsArePlayable};
ghost use Rattle.flat_playable.specs.Laws.{FirstVersionIsKept, EarlierVersionsHaveNoRatio};
ghost use Rattle.flat_playable.specs.Laws.{VersionsAreKnown, TextsSayVersions};

/// Every script that the reader accepts is playable: each clause is one part of
/// that test, and `playable` the whole of it; and it names few sessions. The call
/// does nothing. Its contract is a law about the definitions.
pub fn scripts_are_playable()
    ensures played { LinesArePlayed }
    ensures frames { FramesClose }
    ensures rise { LinesRise }
    ensures counted { LinesAreCounted }
    ensures count { CountsAreWithin }
    ensures setup { SetupsAreGiven }
    ensures sessions { SessionsAreFew }
    ensures playable { ScriptsArePlayable }
    // What came with the second version is read in scripts of that version alone.
    ensures early { FirstVersionIsKept }
    // What came with the third is read in scripts of that version alone.
    ensures ratio { EarlierVersionsHaveNoRatio }
    ensures known { VersionsAreKnown }
    ensures version { TextsSayVersions }
{}

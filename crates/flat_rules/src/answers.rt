ghost use Rattle.flat_rules.specs.FirstNews.{FirstNewsAnswers, SecondGetIsRefused, UnaskedStays};
ghost use Rattle.flat_rules.specs.FirstNews.{NothingIsAnsweredAtFirst, AnswersArePosted};

// The call here does nothing. Its contract is laws about the definitions: when a
// get is answered.

/// A get of a watcher is answered by the first value told from the get on that is
/// there and differs from the watcher's last answer, while its session is open: by
/// its reply where there is one at once, and else by one event, which is posted. A get of a watcher
/// that still holds one is refused. A watcher that isn't asked answers nothing.
///
/// The call does nothing. Its contract is a law about the definitions.
pub fn first_news_answers()
    ensures answered { FirstNewsAnswers }
    ensures posted { AnswersArePosted }
    ensures refused { SecondGetIsRefused }
    ensures unasked { UnaskedStays }
    ensures first { NothingIsAnsweredAtFirst }
{}

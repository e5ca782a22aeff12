ghost use Rattle.std.specs.Prelude.{◌≡◌, ◌<◌, ◌≤◌, ◌∷◌, [], length, find};
ghost use Rattle.std.specs.Str.{bytes_eq};
ghost use Rattle.flat_forms.specs.Calls.{call_named, call_written, text};

use flat_places::{is_word, knows};

// The names of calls are found in two parts, by their bytes.
const LONG_NAME: usize = 14;

/// The words that name a call of a session.
#[derive(Clone, Copy)]
pub enum CallName {
    CreateView,
    ReleaseView,
    CreateTransform,
    ReleaseTransform,
    SetTranslation,
    SetOrientation,
    SetScale,
    SetOpacity,
    SetClipBoundary,
    AddChild,
    RemoveChild,
    ReplaceChildren,
    SetRootTransform,
    CreateViewport,
    SetViewportProperties,
    ReleaseViewport,
    CreateImage,
    SetImageSampleRegion,
    SetImageDestinationSize,
    SetImageBlendingFunction,
    SetImageFlip,
    SetImageOpacity,
    ReleaseImage,
    CreateFilledRect,
    SetSolidFill,
    ReleaseFilledRect,
    SetHitRegions,
    SetInfiniteHitRegion,
    SetContent,
    Clear,
}

impl CallName {
    /// How the call is written.
    pub fn text(self) -> &'static str
        ensures { result.now ≡ text self }
    {
        match self {
            CallName::CreateView => "CreateView",
            CallName::ReleaseView => "ReleaseView",
            CallName::CreateTransform => "CreateTransform",
            CallName::ReleaseTransform => "ReleaseTransform",
            CallName::SetTranslation => "SetTranslation",
            CallName::SetOrientation => "SetOrientation",
            CallName::SetScale => "SetScale",
            CallName::SetOpacity => "SetOpacity",
            CallName::SetClipBoundary => "SetClipBoundary",
            CallName::AddChild => "AddChild",
            CallName::RemoveChild => "RemoveChild",
            CallName::ReplaceChildren => "ReplaceChildren",
            CallName::SetRootTransform => "SetRootTransform",
            CallName::CreateViewport => "CreateViewport",
            CallName::SetViewportProperties => "SetViewportProperties",
            CallName::ReleaseViewport => "ReleaseViewport",
            CallName::CreateImage => "CreateImage",
            CallName::SetImageSampleRegion => "SetImageSampleRegion",
            CallName::SetImageDestinationSize => "SetImageDestinationSize",
            CallName::SetImageBlendingFunction => "SetImageBlendingFunction",
            CallName::SetImageFlip => "SetImageFlip",
            CallName::SetImageOpacity => "SetImageOpacity",
            CallName::ReleaseImage => "ReleaseImage",
            CallName::CreateFilledRect => "CreateFilledRect",
            CallName::SetSolidFill => "SetSolidFill",
            CallName::ReleaseFilledRect => "ReleaseFilledRect",
            CallName::SetHitRegions => "SetHitRegions",
            CallName::SetInfiniteHitRegion => "SetInfiniteHitRegion",
            CallName::SetContent => "SetContent",
            CallName::Clear => "Clear",
        }
    }
}

/// The call that the word names, where scripts of that version may use the word. Its
/// length leaves few calls to compare it with.
pub fn call_named(version: u32, word: &[u8]) -> Option<CallName>
    ensures { result ≡ call_named version word.now }
{
    if !knows(version, word) {
        return None;
    }
    if word.len() < LONG_NAME {
        short_call_named(word)
    } else {
        long_call_named(word)
    }
}

/// The call that a short word names.
fn short_call_named(word: &[u8]) -> Option<CallName>
    requires { length word.now < LONG_NAME }
    ensures { result ≡ call_written word.now }
{
    match word.len() {
        5 => lone(word, CallName::Clear),
        8 => of_two(word, CallName::SetScale, CallName::AddChild),
        10 => of_three(
            word,
            CallName::CreateView,
            CallName::SetOpacity,
            CallName::SetContent,
        ),
        11 => of_three(
            word,
            CallName::ReleaseView,
            CallName::RemoveChild,
            CallName::CreateImage,
        ),
        12 => of_three(
            word,
            CallName::SetImageFlip,
            CallName::ReleaseImage,
            CallName::SetSolidFill,
        ),
        13 => lone(word, CallName::SetHitRegions),
        _ => None,
    }
}

/// The call that a long word names.
fn long_call_named(word: &[u8]) -> Option<CallName>
    requires { LONG_NAME ≤ length word.now }
    ensures { result ≡ call_written word.now }
{
    match word.len() {
        14 => of_three(
            word,
            CallName::SetTranslation,
            CallName::SetOrientation,
            CallName::CreateViewport,
        ),
        15 => one_of(
            word,
            &[
                CallName::CreateTransform,
                CallName::SetClipBoundary,
                CallName::ReplaceChildren,
                CallName::ReleaseViewport,
                CallName::SetImageOpacity,
            ],
        ),
        16 => of_three(
            word,
            CallName::ReleaseTransform,
            CallName::SetRootTransform,
            CallName::CreateFilledRect,
        ),
        17 => lone(word, CallName::ReleaseFilledRect),
        20 => of_two(
            word,
            CallName::SetImageSampleRegion,
            CallName::SetInfiniteHitRegion,
        ),
        21 => lone(word, CallName::SetViewportProperties),
        23 => lone(word, CallName::SetImageDestinationSize),
        24 => lone(word, CallName::SetImageBlendingFunction),
        _ => None,
    }
}

/// The call, where the word names it.
fn lone(word: &[u8], name: CallName) -> Option<CallName>
    ensures { result ≡ find (λ n. bytes_eq word.now (text n)) (name ∷ []) }
{
    if is_word(word, name.text()) {
        Some(name)
    } else {
        None
    }
}

/// The one of two calls that the word names.
fn of_two(word: &[u8], first: CallName, other: CallName) -> Option<CallName>
    ensures { result ≡ find (λ n. bytes_eq word.now (text n)) (first ∷ other ∷ []) }
{
    if is_word(word, first.text()) {
        return Some(first);
    }
    lone(word, other)
}

/// The one of three calls that the word names.
fn of_three(word: &[u8], first: CallName, second: CallName, third: CallName) -> Option<CallName>
    ensures { result ≡ find (λ n. bytes_eq word.now (text n)) (first ∷ second ∷ third ∷ []) }
{
    if is_word(word, first.text()) {
        return Some(first);
    }
    of_two(word, second, third)
}

/// The one of these calls that the word names.
fn one_of(word: &[u8], names: &[CallName]) -> Option<CallName>
    ensures { result ≡ find (λ n. bytes_eq word.now (text n)) names.now }
{
    names
        .iter()
        .copied()
        .find(|name| is_word(word, name.text()))
}

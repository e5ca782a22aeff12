//! Which live viewports the calls of an entry clear.
ghost use Rattle.std.specs.Prelude.{◌≡◌};
ghost use Rattle.std.specs.List.{list_any};
ghost use Rattle.flat_base.specs.declared.ids.ContentId.{ContentId};
ghost use Rattle.flat_facts.specs.Clears.{decides, is_clear, is_cleared};

use flat_base::ContentId;
use flat_scene::Call;

fn is_clear(call: &Call) -> bool
    ensures { result ≡ is_clear call.now }
{
    match call {
        Call::Clear => true,
        _ => false,
    }
}

/// Whether calls clear the viewports.
pub fn has_clear(calls: &[Call]) -> bool
    ensures { result ≡ list_any is_clear calls.now }
{
    calls.iter().any(|call| is_clear(call))
}

/// Whether calls clear the viewport of that name, which lives before them.
pub fn is_cleared(name: ContentId, calls: &[Call]) -> bool
    ensures { result ≡ is_cleared name calls.now }
{
    for call in calls {
        match call {
            Call::ReleaseViewport { c } => {
                if name.0 == c.0 {
                    return false;
                }
            }
            Call::Clear => return true,
            _ => {}
        }
    }
    false
}

/// Whether a call may release a viewport or clears them.
fn decides(call: &Call) -> bool
    ensures { result ≡ decides call.now }
{
    match call {
        Call::ReleaseViewport { .. } => true,
        Call::Clear => true,
        _ => false,
    }
}

/// The calls from the first on that decides what is cleared.
pub fn from_first(calls: &[Call]) -> &[Call]
    ensures { (name : ContentId) → is_cleared name result.now ≡ is_cleared name calls.now }
{
    for (i, call) in calls.iter().enumerate() {
        if decides(call) {
            return &calls[i..];
        }
    }
    &calls[calls.len()..]
}

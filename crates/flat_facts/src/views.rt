//! The view that calls leave a session, and whether they may lose an end.
ghost use Rattle.std.specs.Prelude.{◌≡◌};
ghost use Rattle.std.specs.List.{list_any};
ghost use Rattle.flat_facts.specs.Views.{is_loss, view_then};

use flat_base::PairNo;
use flat_scene::Call;

/// The pair of the view after a call, where there was this one before, or none.
pub fn view_then(view: Option<PairNo>, call: &Call) -> Option<PairNo>
    ensures { result ≡ view_then view call.now }
{
    match call {
        Call::CreateView { pair } => Some(*pair),
        Call::ReleaseView => None,
        Call::Clear => None,
        _ => view,
    }
}

/// Whether a call may lose an end that its session owns.
fn is_loss(call: &Call) -> bool
    ensures { result ≡ is_loss call.now }
{
    match call {
        Call::ReleaseView => true,
        Call::Clear => true,
        _ => false,
    }
}

/// Whether one of these calls may lose an end that their session owns.
pub fn may_lose(calls: &[Call]) -> bool
    ensures { result ≡ list_any is_loss calls.now }
{
    calls.iter().any(|call| is_loss(call))
}

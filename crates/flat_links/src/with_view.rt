//! Which sessions have a view.
ghost use Rattle.std.specs.Prelude.{◌≡◌, ℕ, ◌<◌, ◌≤◌, All, false, length};
ghost use Rattle.std.specs.Prelude.{slice_index_or, true};
ghost use Rattle.flat_base.specs.declared.limits.TheConstants.{SESSIONS_MAX};
ghost use Rattle.flat_states.specs.declared.state.SessionState.{SessionState};
ghost use Rattle.flat_links.specs.Views.{has_view_in};

use crate::noted::PairStates;
use flat_facts::stamps::is_seen;
use flat_scene::SessionSet;
use flat_states::state::SessionState;

/// Whether a session has a view whose end isn't lost.
fn has_view(state: &SessionState, pairs: &PairStates) -> bool
    requires { length state.now.going.items ≤ 5 }
    ensures { result ≡ has_view_in pairs.now.items state.now }
{
    if state.closed {
        return false;
    }
    match state.account.view {
        Some(p) => !is_seen(pairs.end_stamp(p), state.taken()),
        None => false,
    }
}

/// Those of the sessions that have a view whose end isn't lost.
pub fn with_view(states: &[SessionState], pairs: &PairStates) -> SessionSet
    requires few { length states.now ≤ SESSIONS_MAX }
    requires goes { All (λ state. length state.going.items ≤ 5) states.now }
    ensures each { (i : ℕ) (d : SessionState) → i < length states.now →
        slice_index_or result.has i false
        ≡ has_view_in pairs.now.items (slice_index_or states.now i d) }
    ensures others { (i : ℕ) → length states.now ≤ i → slice_index_or result.has i false ≡ false }
{
    let mut has = [false; 16];
    for (i, state) in states.iter().enumerate() {
        has[i] = has_view(state, pairs);
    }
    SessionSet { has }
}

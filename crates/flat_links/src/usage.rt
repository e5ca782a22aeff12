ghost use Rattle.std.specs.Prelude.{◌≡◌, ℕ, ◌+◌, Some, [], ◌∷◌, length, false};
ghost use Rattle.flat_links.specs.Noted.{AreNoted, KeepsOthers};
ghost use Rattle.flat_links.specs.Usage.{SettlesOne, SettlesPairs, UsesPair, SeesUses};

use crate::pairs::PairState;
use flat_base::PairNo;
use flat_scene::{ViewportProps, ViewportUse};

/// The viewport end of a pair is used; the viewport has that serial.
pub fn use_pair(pairs: &mut Vec<PairState>, p: PairNo, serial: u64, props: ViewportProps)
    ensures { UsesPair p serial props pairs.old.items pairs.new.items }
{
    let place = p.0 as usize;
    if place < pairs.len() {
        let state = pairs[place];
        pairs[place] = PairState {
            ended: state.ended,
            cleared: state.cleared,
            serial,
            given: Some(props),
            seen: None,
            pending: None,
        };
    }
}

/// A frame that begins has this viewport.
pub fn see_use(pairs: &mut Vec<PairState>, one: &ViewportUse)
    ensures sees { SeesUses (one.now ∷ []) pairs.old.items pairs.new.items }
    ensures others { KeepsOthers one.now.pair pairs.old.items pairs.new.items }
{
    let place = one.pair.0 as usize;
    if place < pairs.len() {
        let serial = one.serial as u64;
        if pairs[place].serial == serial {
            pairs[place].pending = Some(one.props);
        }
    }
}

/// The frame begun last ends: what was pending is seen.
fn settle_all(pairs: &mut Vec<PairState>)
    ensures { SettlesPairs pairs.old.items pairs.new.items }
{
    for place in 0..pairs.len() {
        let state = &mut pairs[place];
        state.seen = state.pending;
    }
}

/// The same for one pair.
fn settle_one(pairs: &mut Vec<PairState>, p: PairNo)
    ensures { SettlesOne p pairs.old.items pairs.new.items }
{
    let place = p.0 as usize;
    if place < pairs.len() {
        let pending = pairs[place].pending;
        pairs[place].seen = pending;
    }
}

/// The same for the pairs of a list, where in all others what is pending is seen.
fn settle_noted(pairs: &mut Vec<PairState>, noted: &[PairNo])
    requires { AreNoted false noted.now pairs.old.items }
    ensures { SettlesPairs pairs.old.items pairs.new.items }
{
    for p in noted {
        settle_one(pairs, *p);
    }
}

/// The same. Only where more pairs were noted than the list has room for, it looks
/// at others.
pub fn settle_pairs(pairs: &mut Vec<PairState>, overflows: bool, noted: &[PairNo])
    requires { AreNoted overflows noted.now pairs.old.items }
    ensures { SettlesPairs pairs.old.items pairs.new.items }
{
    if overflows {
        settle_all(pairs);
    } else {
        settle_noted(pairs, noted);
    }
}

// One touch of a pass over the references: what it adds, what it decides, and the excess since the last modifying touch of its segment.
ghost use Rattle.std.specs.Prelude.{◌≡◌, ◌<◌, ◌^◌};
ghost use Rattle.store_plan.specs.inner.Touches.{SinceBelow, since_plus, since_after, store_by, joins_by, kept_by, excess_by, touch_by};

use model::{Amount, Kind, PriceRow, Priced};

// What is found of a touch: whether it is a kept reuse, and whether, modifying, it belongs to the stay of the modifying touch before.
#[derive(Clone, Copy)]
pub struct Decision {
    pub kept: bool,
    pub joined: bool,
}

// What a touch gives: the excess since the last modifying touch of its segment, if there was one; what it adds to opttotal; and what is
// found of it.
#[derive(Clone, Copy)]
pub struct Touched {
    pub since: Option<Priced>,
    pub added: Priced,
    pub decision: Decision,
}

// What holding a segment of size z, with that mark in the table of last touches, for a touch after so many steps costs beyond a load.
fn excess(kind: Kind, a: u8, row: PriceRow, z: u16, mark: u16, steps: u16) -> Priced
    ensures { result.0 ≡ excess_by kind a row z mark steps }
{
    if mark <= steps {
        let held = model::retention_cost(kind, z, steps - mark).priced(row.d);
        let load = model::swap_cost(a, z).priced(row.h);
        return Priced(held.0.saturating_sub(load.0));
    }
    Priced(0)
}

// The excess with x more, where there is one.
fn plus(since: Option<Priced>, x: Priced) -> Option<Priced>
    requires since_small { SinceBelow (2 ^ 62) since }
    requires more_small { x.0 < 2 ^ 62 }
    ensures { result ≡ since_plus since x.0 }
{
    match since {
        Some(e) => Some(Priced(e.0 + x.0)),
        None => None,
    }
}

// The excess after a touch.
fn after(marked: bool, since: Option<Priced>) -> Option<Priced>
    ensures { result ≡ since_after marked since }
{
    if marked { Some(Priced(0)) } else { since }
}

// What a touch adds to opttotal, where a store costs so much. It is multiplied by 0 or 1 and not chosen by a branch, which would be guessed
// wrong for half of the touches where they modify at random.
fn added(marked: bool, store: Priced, since: Option<Priced>) -> Priced
    ensures { result.0 ≡ store_by marked store.0 since }
{
    let least = match since {
        Some(e) => e.0.min(store.0),
        None => store.0,
    };
    Priced(least * u64::from(marked))
}

// Whether a modifying touch belongs to the stay of the one before.
fn joins(store: Priced, since: Option<Priced>) -> bool
    ensures { result ≡ joins_by store.0 since }
{
    match since {
        Some(e) => model::kept(e, store),
        None => false,
    }
}

// Whether a touch after so many steps, of a segment with that mark in the table of last touches, is a kept reuse: it has no excess.
fn kept(mark: u16, steps: u16, x: Priced) -> bool
    ensures { result ≡ kept_by mark steps x.0 }
{
    mark <= steps && x.0 == 0
}

// A touch, after so many steps, of a segment of size z with that mark in the table of last touches and that excess.
pub(crate) fn touch(
    kind: Kind,
    a: u8,
    row: PriceRow,
    z: u16,
    mark: u16,
    since: Option<Priced>,
    steps: u16,
    marked: bool,
) -> Touched
    requires { SinceBelow (2 ^ 62) since }
    ensures { result ≡ touch_by kind a row z mark since steps marked }
{
    let x = excess(kind, a, row, z, mark, steps);
    let store = model::swap_cost(a, z).priced(row.h);
    let s = plus(since, x);
    Touched {
        since: after(marked, s),
        added: added(marked, store, s),
        decision: Decision {
            kept: kept(mark, steps, x),
            joined: joins(store, s),
        },
    }
}

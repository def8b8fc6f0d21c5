// The meeting of two envelopes that are kept in tables: the search of docs/REQUIREMENTS.md, 6 (its source [1], section 4), by two walks that carry a
// stack each. Every function takes any words. Left is false, right is true; toward is the way to the other envelope, away the way to the outer end.
#![tactic(auto)]

ghost use Rattle.std.specs.Prelude.{◌≡◌, ◌&&◌, leb};
ghost use Rattle.table.specs.Fields.{most_slots};
ghost use Rattle.walks.specs.CodeMoves.{top_in};
ghost use Rattle.search.specs.SearchSteps.{Stepped};
ghost use Rattle.search.specs.Choices.{Recedes, Chooses};
ghost use Rattle.search.specs.Runs.{started, Meets};

use table::Part;
use walks::{Action, Move, STACK, act, pair, point, top};

// The state of a search: u and v with their stacks, and whether it is finished. docs/REQUIREMENTS.md, 17, names this form. `done` is a flag beside them,
// since u and v stand when it is set as well: `Stepped` and `Meets` speak of both.
#[derive(Drop)]
struct Search {
    u: u32,
    v: u32,
    us: [u32; STACK],
    ud: usize,
    vs: [u32; STACK],
    vd: usize,
    done: bool,
}

// What a search finds: the slots of u and v, and its steps, the last included. On words that are no envelopes it may end unfinished.
#[derive(Drop)]
pub struct Met {
    pub u: u32,
    pub v: u32,
    pub steps: u32,
    pub done: bool,
}

// Case 1 of the left side, and its mirror image, case 2, of the right: our point is on or above the other's local envelope.
// We stand at `x` and pushed `t` last; the other stands at `y`, and slot `p` keeps its point.
fn recede(ours: &Part<'_>, other: &Part<'_>, side: bool, x: u32, t: u32, y: u32, p: u32) -> Move
    ensures { Recedes ours.now other.now side x t y p result }
{
    if t < 1 {
        return pair(side, Action::Retreat, Action::Stay);
    }
    if x <= table::MOST_SLOTS {
        return pair(side, Action::Pop, Action::Stay);
    }
    if prices::above(ours, table::inner_slot(t), other, y) {
        return pair(side, Action::Pop, Action::Stay);
    }
    if prices::above(other, p, ours, t) {
        return pair(side, Action::Retreat, Action::Retreat);
    }
    pair(side, Action::Retreat, Action::Advance)
}

fn both_leaves(u: u32, v: u32) -> bool
    ensures { result ≡ leb u most_slots && leb v most_slots }
{
    u <= table::MOST_SLOTS && v <= table::MOST_SLOTS
}

// What a step does at u and v, each with its stack; nothing at the end of the search.
fn choose(
    left: &Part<'_>,
    right: &Part<'_>,
    u: u32,
    us: &[u32; STACK],
    ud: usize,
    v: u32,
    vs: &[u32; STACK],
    vd: usize,
) -> Option<Move>
    ensures { Chooses left.now right.now u (top_in us.now ud) v (top_in vs.now vd) result }
{
    let p = point(u, us, ud);
    let q = point(v, vs, vd);
    if prices::above(left, p, right, v) {
        return Some(recede(left, right, false, u, top(us, ud), v, q));
    }
    if prices::above(right, q, left, u) {
        return Some(recede(right, left, true, v, top(vs, vd), u, p));
    }
    if both_leaves(u, v) {
        return None;
    }
    Some(Move {
        u: Action::Advance,
        v: Action::Advance,
    })
}

// One step of the search. Whatever the walks do, u and v are noted above their stacks' tops, where an advance finds them pushed:
// so the stacks are written before the comparisons, and copied once.
fn step(left: &Part<'_>, right: &Part<'_>, s: Search) -> Search
    ensures { Stepped left.now right.now s result }
{
    let ud = s.ud;
    let vd = s.vd;
    let mut us = s.us;
    let mut vs = s.vs;
    if ud < STACK {
        us[ud] = s.u;
    }
    if vd < STACK {
        vs[vd] = s.v;
    }
    let Some(m) = choose(left, right, s.u, &us, ud, s.v, &vs, vd) else {
        return Search {
            us,
            vs,
            done: true,
            ..s
        };
    };
    let a = act(left, false, m.u, s.u, &us, ud);
    let b = act(right, true, m.v, s.v, &vs, vd);
    Search {
        u: a.at,
        v: b.at,
        us,
        ud: a.depth,
        vs,
        vd: b.depth,
        done: false,
    }
}

fn start(l: u32, r: u32) -> Search
    ensures { result ≡ started l r }
{
    Search {
        u: l,
        v: r,
        us: [0; STACK],
        ud: 0,
        vs: [0; STACK],
        vd: 0,
        done: false,
    }
}

// Three for each level of the two trees and one: on two trees of envelopes that face each other they suffice.
const MOST_STEPS: u32 = 3 * (24 + 24) + 1;

// The search from the roots `l` and `r`.
pub fn meet(left: &Part<'_>, right: &Part<'_>, l: u32, r: u32) -> Met
    ensures { Meets left.now right.now l r result }
{
    let mut s = start(l, r);
    for before in 0..MOST_STEPS {
        s = step(left, right, s);
        if s.done {
            return Met {
                u: s.u,
                v: s.v,
                steps: before + 1,
                done: true,
            };
        }
    }
    Met {
        u: s.u,
        v: s.v,
        steps: MOST_STEPS,
        done: false,
    }
}

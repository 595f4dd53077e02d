//! The offsets of a window, one after the other.
ghost use Rattle.std.specs.Prelude.{◌≡◌, ℕ, ◌+◌, ◌-◌, ◌*◌, ◌^◌, ◌<◌, ◌≤◌, length, map, if◌then◌else◌, nat_lt};
ghost use Rattle.analysis.specs.Best.{Best};
ghost use Rattle.theory.specs.LeastSolution.{LeastSolution};
ghost use Rattle.analysis.specs.Lanes.{limited, lanes_work};
ghost use Rattle.analysis.specs.Own.{own_work, response_in, window_work, LaneResponse};

use super::Own;
use crate::lanes::Lane;
use crate::lanes::all::{blocking, climb, set_limits};
use table::Mode;

// The work that the window at offset a begins with.
fn own_work(own: Own, lanes: &[Lane], a: u32) -> u64
    ensures value { result ≡ own_work own lanes.now a }
    ensures light { result ≤ 2 ^ 45 }
{
    let earlier = u64::from(a / own.period);
    let cost = u64::from(own.cost);
    match own.mode {
        Mode::Preemptive => (1 + earlier) * cost,
        Mode::NonPreemptive => 1 + (u64::from(blocking(lanes, a)) + earlier * cost),
    }
}

// The response at offset a, where t is the least solution of its window.
fn response(own: Own, t: u32, a: u32) -> u32
    requires { t ≤ 60000 }
    ensures { result ≡ response_in own.mode own.cost a t }
{
    match own.mode {
        Mode::Preemptive => own.cost.max(t.saturating_sub(a)),
        Mode::NonPreemptive => own
            .cost
            .max((t.saturating_sub(1) + own.cost).saturating_sub(a)),
    }
}

// The least solution of the window at an offset, with the own work that led to it.
#[derive(Clone, Copy)]
struct Solved {
    work: u64,
    at: u32,
}

// Where to begin climbing: at the last solution, unless the own work has fallen.
fn restart(work: u64, last_work: u64, last: u32) -> u32
    ensures { result ≡ (if nat_lt work last_work then 1 else last) }
{
    if work < last_work { 1 } else { last }
}

// The longer of the best so far and the response at a; a tie keeps the earlier offset.
// A pair of response and offset: the form in which an analysis answers.
fn better(best: (u32, u32), response: u32, a: u32) -> (u32, u32)
    ensures longer { result.0 ≡ (if nat_lt best.0 response then response else best.0) }
    ensures first { result.1 ≡ (if nat_lt best.0 response then a else best.1) }
{
    if best.0 < response {
        (response, a)
    } else {
        best
    }
}

// The least solution of the window at offset a, from the solution of an earlier one.
fn solve(own: Own, lanes: &mut [Lane], busy: u32, a: u32, last: Solved) -> Solved
    requires few { length lanes.old ≤ 24 }
    requires short { busy ≤ 60000 }
    requires inside { a < busy }
    requires fits { window_work own lanes.old a busy ≤ busy }
    requires from { 1 ≤ last.at }
    requires low { (v : ℕ) → 1 ≤ v → last.work + lanes_work (map (limited a) lanes.old) v ≤ v → last.at ≤ v }
    ensures lanes { lanes.new ≡ map (limited a) lanes.old }
    ensures work { result.work ≡ own_work own lanes.old a }
    ensures solved { LeastSolution 1 (window_work own lanes.old a) result.at }
    ensures inside { result.at ≤ busy }
    ensures low { (v : ℕ) → 1 ≤ v → window_work own lanes.old a v ≤ v → result.at ≤ v }
{
    let work = own_work(own, lanes, a);
    set_limits(lanes, a);
    let start = restart(work, last.work, last.at);
    match climb(lanes, work, start, busy) {
        Some(at) => Solved { work, at },
        None => last,
    }
}

// The longest response over all offsets below the busy period, and the least offset that gives it.
pub(crate) fn worst_response(own: Own, lanes: &mut [Lane], busy: u32) -> (u32, u32)
    requires few { length lanes.old ≤ 24 }
    requires short { busy ≤ 60000 }
    requires some { 1 ≤ busy }
    requires fits { (a : ℕ) → a < busy → window_work own lanes.old a busy ≤ busy }
    ensures { Best (LaneResponse own lanes.old busy) busy result.0 result.1 }
{
    // A loop: each turn sets the lanes in place and climbs from the solution of the last one.
    let mut best = (0, 0);
    let mut last = Solved { work: 0, at: 1 };
    for a in 0..busy {
        last = solve(own, lanes, busy, a, last);
        best = better(best, response(own, last.at, a), a);
    }
    best
}

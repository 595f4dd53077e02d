//! All lanes of an analysis together.
// A slice with a clause `few`: it is lent by the one function that fills it, and a struct round it would be made for that call alone.
ghost use Rattle.std.specs.Prelude.{◌≡◌, ℕ, ◌+◌, ◌*◌, ◌^◌, ◌≤◌, map, length};
ghost use Rattle.analysis.specs.Climb.{Climbed};
ghost use Rattle.analysis.specs.Lanes.{lanes_work, limited, lanes_block};

use super::Lane;

// The own work and that of all lanes within t ticks.
fn work(lanes: &[Lane], own: u64, t: u32) -> u64
    requires few { length lanes.now ≤ 24 }
    requires light { own ≤ 2 ^ 45 }
    requires short { t ≤ 60000 }
    ensures { result ≡ own + lanes_work lanes.now t }
{
    own + lanes.iter().map(|lane| lane.share(t)).sum::<u64>()
}

// The least t from `start` to `cap` that covers its own work; none where there is none.
pub(crate) fn climb(lanes: &[Lane], own: u64, start: u32, cap: u32) -> Option<u32>
    requires few { length lanes.now ≤ 24 }
    requires light { own ≤ 2 ^ 45 }
    requires short { cap ≤ 60000 }
    ensures { Climbed (λ t. own + lanes_work lanes.now t) start cap result }
{
    // A loop: each turn jumps to the work of the last one, which no iterator over numbers does.
    let mut t = start;
    'up: while t <= cap {
        let next = work(lanes, own, t);
        if next <= u64::from(t) {
            return Some(t);
        }
        if next > u64::from(cap) {
            return None;
        }
        t = next as u32;
    }
    None
}

// Sets every lane to the offset a.
pub(crate) fn set_limits(lanes: &mut [Lane], a: u32)
    requires { a ≤ 60000 }
    ensures { lanes.new ≡ map (limited a) lanes.old }
{
    for lane in lanes.iter_mut() {
        lane.limit = lane.limit_at(a);
    }
}

// The longest blocking of all lanes.
pub(crate) fn blocking(lanes: &[Lane], a: u32) -> u32
    ensures value { result ≡ lanes_block lanes.now a }
    ensures bound { result ≤ 4096 }
{
    lanes.iter().map(|lane| lane.block_at(a)).max().unwrap_or(0)
}

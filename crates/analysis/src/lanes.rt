//! Lanes: what the analysis of one task has to know of each other task, read once.
ghost use Rattle.std.specs.Prelude.{◌≤◌};

/// Another task: its C (0 for the analysed task itself), its T, how far its releases come ahead, and how many of them do at the present offset.
#[derive(Clone, Copy)]
pub struct Lane {
    /// C; 0 for the analysed task itself.
    pub cost: u32,
    /// T.
    pub period: u32,
    /// The reach plus 100,000: 0 where it never comes ahead, 200,000 where it always does.
    // A number and no Reach: so no reach is negative, and each offset takes one sum and one comparison in place of a match.
    pub lead: u32,
    /// How many of its releases come ahead at the present offset.
    pub limit: u32,
    ghost cost_high: { cost ≤ 4096 },
    ghost period_low: { 1 ≤ period },
    ghost period_high: { period ≤ 65535 },
    ghost lead_high: { lead ≤ 200000 },
}

// A lane that has no work.
pub(crate) const IDLE: Lane = Lane {
    cost: 0,
    period: 1,
    lead: 0,
    limit: 0,
};

impl Lane {
    ghost use Rattle.std.specs.Prelude.{◌≡◌, ◌<◌, ◌+◌, ◌-◌, ◌*◌, ◌^◌, if◌then◌else◌, nat_lt};
    ghost use Rattle.analysis.specs.Lanes.{lane_jobs, lane_limit};

    // Jobs released before t that come ahead.
    fn jobs(self, t: u32) -> u32
        requires { t ≤ 60000 }
        ensures { result ≡ lane_jobs self t }
    {
        // The form with `last / period + 1` was measured at 1.13 times plain Rust, this one at 1.05.
        ((t + (self.period - 1)) / self.period).min(self.limit)
    }

    // The work within t ticks.
    pub(crate) fn share(self, t: u32) -> u64
        requires { t ≤ 60000 }
        ensures value { result ≡ lane_jobs self t * self.cost }
        ensures bound { result ≤ 2 ^ 44 }
    {
        u64::from(self.jobs(t)) * u64::from(self.cost)
    }

    // How many releases come ahead of the offset a.
    pub(crate) fn limit_at(self, a: u32) -> u32
        requires { a ≤ 60000 }
        ensures { result ≡ lane_limit self a }
    {
        // An `if` and no `checked_sub` with `map_or`, which takes three instructions more and misses the bar of speed.
        if a + self.lead < 100_000 {
            0
        } else {
            (a + self.lead - 100_000) / self.period + 1
        }
    }

    // What the lane blocks: C - 1 where its release at -1 is behind the offset a.
    pub(crate) fn block_at(self, a: u32) -> u32
        ensures value { result ≡ (if nat_lt (a + self.lead + 1) 100000 then self.cost - 1 else 0) }
        ensures bound { result ≤ 4096 }
    {
        // The sum of the offset and the lead could overflow.
        if a < 99_999u32.saturating_sub(self.lead) {
            self.cost.saturating_sub(1)
        } else {
            0
        }
    }
}

pub(crate) mod all;

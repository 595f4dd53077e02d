//! The line of one task: its waiting jobs and its counts.
ghost use Rattle.std.specs.Prelude.{◌≡◌, ◌+◌, ◌≤◌, length};

/// The first `len` of `releases` wait, the oldest first; only the oldest may have run.
/// `ran` stands last, so that a tick that finishes nothing writes it alone.
/// A fixed buffer with its length: there is no heap, a line is copied, and the kit's `ArrayVec` is not `Copy`.
#[derive(Clone, Copy)]
pub struct Line {
    releases: [u32; 8],
    len: usize,
    free: u32,
    finished: u32,
    missed: u32,
    longest: u32,
    ran: u32,
    ghost room: { length releases ≡ 8 },
    ghost few: { len ≤ 8 },
    ghost short: { ran ≤ 4096 },
    ghost fresh: { (len ≡ 0 → ran ≡ 0) },
    ghost early: { free ≤ 4000065535 },
    ghost apart: { finished + len ≤ free },
    ghost fewer: { missed ≤ finished },
}

pub mod queue;

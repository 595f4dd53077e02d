//! A station late on the clock: no test can tick as far.
use super::Station;
use table::Table;

impl Station {
    // Four ticks before the last time, with no jobs.
    pub(crate) fn late(table: &Table) -> Station {
        let mut station = Station::new(table);
        station.time = 3_999_999_996;
        station
    }
}

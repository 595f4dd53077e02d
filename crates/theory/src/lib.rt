//! Response-time analysis: what a busy period, a response and a worst response are, and what holds of them for every lawful order.
#![tactic(auto)]

ghost use Rattle.theory.specs.Guarantee.{NeverLonger};

pub mod classical;
pub mod facts;
pub mod guarantee;

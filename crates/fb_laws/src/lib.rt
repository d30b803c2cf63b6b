//! Laws for readers: the definitions that contracts cite, stated a second time in other words. Where the parts of a
//! tree are; which ports a unit has; where each fault is reported; how chains of flat nets are composed; what a plan has; when a key waits.
#![tactic(auto)]

pub mod chains;
pub mod charts;
pub mod declarations;
pub mod expressions;
pub mod machine;
pub mod nets;
pub mod networks;
pub mod plans;
pub mod ports;
pub mod spans;
pub mod units;

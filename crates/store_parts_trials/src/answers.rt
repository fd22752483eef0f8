//! Answers by the numbers under which refusals are known, which the trials hold fixed.

use faults::Fault;

/// The number and the block of a refusal, and 0 for a granted call.
pub fn refusal(r: Result<(), Fault>) -> (u32, u32) {
    r.map_or_else(|fault| (fault.ground.number(), fault.block), |()| (0, 0))
}

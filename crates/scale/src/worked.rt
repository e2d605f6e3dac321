// A few sums by number, as the definitions have them.
ghost use Rattle.scale.specs.WorkedSums.{WorkedSums};

use crate::{MOST_BYTES, MOST_POINTS};

pub fn worked_sums()
    ensures { WorkedSums MOST_POINTS MOST_BYTES }
{}

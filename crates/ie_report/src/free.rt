// The free order: every position is always in.
ghost use Rattle.ie_report.specs.Orders.{free};

use crate::ordered::Decision;
use ie_tally::positions::Positions;

#[derive(Clone, Copy)]
pub struct Free;

impl Decision for Free {
    ghost admits = { λ _. free };

    fn admits(&self, _admitted: Positions, _position: usize) -> bool {
        true
    }
}

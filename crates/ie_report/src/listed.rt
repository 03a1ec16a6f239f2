// The listed order: a position is in exactly if no admitted position is greater.
ghost use Rattle.ie_report.specs.Orders.{listed};

use crate::ordered::Decision;
use ie_tally::positions::Positions;

#[derive(Clone, Copy)]
pub struct Listed;

impl Decision for Listed {
    ghost admits = { λ _. listed };

    fn admits(&self, admitted: Positions, position: usize) -> bool {
        !admitted.has_above(position)
    }
}

// What became of a delivery that was read: its head, or why it is refused.
ghost use Rattle.deliveries.specs.Delivery.{delivery_fault};
ghost use Rattle.deliveries.specs.Head.{Bears};
ghost use Rattle.intake.specs.Outcome.{outcome};
ghost use Rattle.std.specs.Prelude.{◌≡◌, None, Some, MatchResult};

use crate::status::Status;
use deliveries::delivery::Delivery;
use deliveries::fault::DeliveryFault;
use deliveries::head::Head;
use std::fmt;

#[derive(Clone, Copy)]
pub struct Reading(Result<Head, DeliveryFault>);

// The head of a sound delivery, or the first fault of another.
fn head_of(bytes: &[u8]) -> Result<Head, DeliveryFault>
    ensures { MatchResult result (λ head. (delivery_fault bytes.now ≡ None) × Bears bytes.now head) (λ fault. delivery_fault bytes.now ≡ Some fault) }
{
    let mut delivery = Delivery::empty();
    delivery.read(bytes)?;
    Ok(delivery.head())
}

impl Reading {
    pub fn of(bytes: &[u8]) -> Reading
        ensures { MatchResult result.0 (λ head. (delivery_fault bytes.now ≡ None) × Bears bytes.now head) (λ fault. delivery_fault bytes.now ≡ Some fault) }
    {
        Reading(head_of(bytes))
    }

    pub fn status(&self) -> Status
        ensures { result ≡ outcome self.now.0 }
    {
        match self.0 {
            Ok(_) => Status::Done,
            Err(_) => Status::Failed,
        }
    }
}

impl fmt::Display for Reading {
    fn fmt<W: fmt::Write>(&self, f: &mut fmt::Formatter<W>) -> fmt::Result {
        match self.0 {
            Ok(head) => write!(f, "read {head}"),
            Err(fault) => write!(f, "refused {fault}"),
        }
    }
}

// A sound delivery: a buffer that was read, and is not written while the delivery is in use.
ghost use Rattle.deliveries.specs.Delivery.{Empty, RowsOf, Sound, delivery_fault, series_start, table_start};
ghost use Rattle.deliveries.specs.Head.{Bears};
ghost use Rattle.fields.specs.Bytes.{columns, value};
ghost use Rattle.std.specs.Prelude.{◌≡◌, false, is_some, is_ok, Some, None, Decides, MatchResult};

use crate::fault::DeliveryFault;
use crate::head::{Extent, Head};
use crate::reading::{Files, check, files_in};
use fields::date::Date;

// The buffer keeps every rule, and the head is the one that it bears.
#[derive(Drop)]
pub struct Delivery<'a> {
    bytes: &'a [u8],
    head: Head,
    ghost sound: { is_some (delivery_fault bytes.now) ≡ false },
    ghost bears: { ∥ Bears bytes.now head ∥₁ },
}

// A head of supplier 0000, first day 20000101, version 01 and the least row lengths, and no rows.
static EMPTY: [u8; 47] = *b"30000000000000000000000009207320700002000010101";

impl<'a> Delivery<'a> {
    pub fn empty() -> Delivery<'a>
        ensures { Empty result.head }
    {
        Delivery {
            bytes: &EMPTY,
            head: Head {
                stations: Extent {
                    rows: 0,
                    length: 92,
                },
                series: Extent {
                    rows: 0,
                    length: 73,
                },
                tables: Extent {
                    rows: 0,
                    length: 207,
                },
                supplier: 0,
                first_day: Date::new(2000, 1, 1).unwrap(),
                version: 1,
            },
        }
    }

    // Fills this place from a sound buffer; the first fault of another, and the place is as it was.
    #[tactic(auto, using(crate::proofs::Verdict::taken, crate::proofs::Verdict::refused))]
    pub fn read(&mut self, bytes: &'a [u8]) -> Result<(), DeliveryFault>
        ensures first { MatchResult result (λ _. (delivery_fault bytes.now ≡ None) × (self.new.bytes.now ≡ bytes.now) × Bears bytes.now self.new.head) (λ e. (delivery_fault bytes.now ≡ Some e) × (self.new ≡ self.old)) }
        ensures sound { Decides (is_ok result) (Sound bytes.now) }
    {
        self.head = check(bytes)?;
        self.bytes = bytes;
        Ok(())
    }

    // Its head, which its buffer bears.
    pub fn head(&self) -> Head
        ensures { (result ≡ self.now.head) × Bears self.now.bytes.now result }
    {
        self.head
    }

    // The rows of its three files; as many of each as the head says.
    #[tactic(auto, using(crate::proofs::Borne::bears, crate::proofs::Heads::whole, crate::proofs::Verdict::sound_when_read))]
    pub fn files(&self) -> Files<'a>
        ensures stations { RowsOf self.now.bytes.now 47 (value (columns 25 27 self.now.bytes.now)) result.stations }
        ensures series { RowsOf self.now.bytes.now (series_start self.now.bytes.now) (value (columns 28 30 self.now.bytes.now)) result.series }
        ensures tables { RowsOf self.now.bytes.now (table_start self.now.bytes.now) (value (columns 31 33 self.now.bytes.now)) result.tables }
        ensures sound { Sound self.now.bytes.now }
    {
        files_in(self.bytes, &self.head)
    }
}

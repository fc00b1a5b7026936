// Rows to damage, and what becomes of them.
use fields::fault::FieldFault;
use kinds::kind::Kind;
use std::process::Abort;
use trials::rows::overwrite;

// The fault of a row of supplier 0081.
pub fn fault_of<K: Kind + Drop>(row: &[u8]) -> Option<FieldFault> {
    let mut record = K::values(0, &[]);
    record.read(81, row).err()
}

// The record in a row, or a blank one where the row is at fault.
pub fn record_of<K: Kind + Drop>(row: &[u8]) -> K {
    let mut record = K::values(0, &[]);
    let _ = record.read(81, row);
    record
}

// A column and the text that is written from there on, and the fault of the row then.
pub type Damage = (usize, &'static [u8], Option<FieldFault>);

// Damages a row in each way in turn.
pub fn try_damaged<K: Kind + Drop, const N: usize>(
    rt: &impl Abort,
    row: &[u8; N],
    damaged: &[Damage],
) {
    for (column, text, fault) in damaged {
        let mut row = *row;
        overwrite(&mut row, *column, text);
        assert_eq!(rt; fault_of::<K>(&row), *fault);
    }
}

// Two edits of a newer row, and the first field at fault beside the older row.
pub type Comparison = (usize, &'static [u8], usize, &'static [u8], Option<u8>);

// Compares each newer row with the older one.
pub fn try_compared<K: Kind + Drop, const N: usize>(
    rt: &impl Abort,
    row: &[u8; N],
    compared: &[Comparison],
)
where
    K::Told: Drop,
{
    let older = record_of::<K>(row).told();
    for (column, text, other, more, fault) in compared {
        let mut row = *row;
        overwrite(&mut row, *column, text);
        overwrite(&mut row, *other, more);
        assert_eq!(rt; fault_of::<K>(&row), None);
        assert_eq!(rt; record_of::<K>(&row).compare(&older), *fault);
    }
}

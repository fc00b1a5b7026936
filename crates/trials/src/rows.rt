// Rows as tests write them.
ghost use Rattle.fields.specs.Bytes.{padded};
ghost use Rattle.std.specs.Prelude.{◌≡◌, ◌+◌, ◌-◌, ◌≤◌, ◌++◌, drop, length, take};

use std::alloc::AllocError;

// Writes a text from a column on, as far as there are columns.
pub fn overwrite(row: &mut [u8], column: usize, text: &[u8])
    ensures { row.new ≡ take (column - 1) row.old ++ take (length row.old - (column - 1)) text.now ++ drop (column - 1 + length text.now) row.old }
{
    let start = row.len().min(column.saturating_sub(1));
    let count = text.len().min(row.len() - start);
    row[start..start + count].copy_from_slice(&text[..count]);
}

// The last five digits of a number.
fn digits(value: u32) -> [u8; 5]
    ensures { result ≡ padded 5 value }
{
    let parts = [value / 10000, value / 1000, value / 100, value / 10, value];
    parts.map(|part| b'0' + (part % 10) as u8)
}

// Adds a row with digits in place of its signs: each run of one sign stands for as many digits of its number, and all else
// for itself.
pub fn add_row<F: Fn(u8) -> Option<u32>>(
    bytes: &mut Vec<u8>,
    row: &str,
    value: F,
) -> Result<(), AllocError>
    requires { F.IsAlwaysCallable value }
    ensures kept { take (length bytes.old.items) bytes.new.items ≡ bytes.old.items }
    ensures added { length bytes.new.items ≤ length bytes.old.items + length row.now }
{
    // Not by `chunk_by`: in this generic function the checker refuses what it writes itself for an invariant over that iterator.
    let mut rest = row.as_bytes();
    while let Some((sign, after)) = rest.split_first() {
        let count = 1 + after.iter().take_while(|next| *next == sign).count();
        match value(*sign) {
            Some(value) => bytes.extend_from_slice(&digits(value)[..count.min(5)])?,
            None => bytes.extend_from_slice(&rest[..count])?,
        }
        rest = &rest[count..];
    }
    Ok(())
}

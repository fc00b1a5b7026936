// The rows of a file, as parts of the buffer that holds them.
ghost use Rattle.files.specs.Files.{record_at};
ghost use Rattle.files.specs.Rows.{row_in};
ghost use Rattle.std.specs.Prelude.{◌≡◌};

use kinds::kind::Kind;

#[derive(Clone, Copy)]
pub struct Rows<'a> {
    pub bytes: &'a [u8],
    pub length: usize,
    // the head's supplier
    pub supplier: u32,
}

impl<'a> Rows<'a> {
    // Row i, counted from 0; what is left of it, where the bytes end before.
    pub fn row(&self, i: usize) -> &'a [u8]
        ensures { result.now ≡ row_in self.now i }
    {
        let start = self.bytes.len().min(i.saturating_mul(self.length));
        let end = self.bytes.len().min(start.saturating_add(self.length));
        &self.bytes[start..end]
    }

    // The record in row i.
    pub fn record<K: Kind>(&self, i: usize) -> K
        ensures { result ≡ record_at K.Kind.meaning self.now.supplier (row_in self.now) i }
    {
        K::values(self.supplier, self.row(i))
    }
}

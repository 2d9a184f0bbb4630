// The records in given bytes.
use records::Record;

// The record of that number; zeros where the bytes have none.
pub fn record(b: &[u8], number: usize) -> Record {
    records::read(b, number).unwrap_or(Record {
        b0: 0,
        b1: 0,
        b2: 0,
        b3: 0,
        word: 0,
    })
}

// Records of 8 bytes in a lent buffer, the scan of all of them, and the refusals.
#![tactic(auto)]

ghost use Rattle.std.specs.Prelude.{◌≡◌, ◌+◌, ◌*◌, ◌≤◌, length};
ghost use Rattle.std.proofs.Math.ListN.{get_elem?};
ghost use Rattle.std.proofs.lemmas.List.Edits.{sets};
ghost use Rattle.records.specs.Refusal.{number_of, fault};
ghost use Rattle.records.specs.Records.{word_at, record_from, records, found, bytes, replaced, is_whole};
ghost use Rattle.records.specs.Scan.{scanned};

// In the order of their numbers, from 1.
#[derive(Clone, Copy, PartialEq, Eq)]
pub enum Refusal {
    BadLength = 1,
    BadInstruction,
    BadCell,
    Unsound,
    BadSchedule,
    NoInstruction,
    Stalled,
    Full,
    BadTag,
    NoTemplate,
    OtherKind,
    NeedsTag,
    NotHeld,
    StillHeld,
    EarlierMemory,
    IsUndefined,
    Outside,
    OtherWay,
}

impl Refusal {
    pub fn number(self) -> u8
        ensures { result ≡ number_of self }
    {
        self as u8
    }
}

// A refusal, and the number of the record that it is about; 0 where it is about none.
#[derive(Clone, Copy, PartialEq, Eq)]
pub struct Fault {
    pub refusal: Refusal,
    pub number: usize,
}

impl From<Refusal> for Fault {
    ghost from_gives = { λ n f. f ≡ fault n 0 };

    fn from(refusal: Refusal) -> Fault {
        Fault { refusal, number: 0 }
    }
}

// Four bytes, and a 32-bit number behind them, its lowest byte first.
#[derive(Clone, Copy, PartialEq, Eq)]
pub struct Record {
    pub b0: u8,
    pub b1: u8,
    pub b2: u8,
    pub b3: u8,
    pub word: u32,
}

fn word_at(b: &[u8], at: usize) -> u32
    requires { at + 4 ≤ length b.now }
    ensures { result ≡ word_at b.now at }
{
    u32::from_le_bytes([b[at], b[at + 1], b[at + 2], b[at + 3]])
}

fn record_from(b: &[u8], at: usize) -> Record
    requires { at + 8 ≤ length b.now }
    ensures { result ≡ record_from b.now at }
{
    Record {
        b0: b[at],
        b1: b[at + 1],
        b2: b[at + 2],
        b3: b[at + 3],
        word: word_at(b, at + 4),
    }
}

pub fn read(b: &[u8], number: usize) -> Option<Record>
    ensures { result ≡ found (get_elem? (records b.now) number) }
{
    if number < b.len() / 8 {
        Some(record_from(b, 8 * number))
    } else {
        None
    }
}

fn put_record(out: &mut [u8], at: usize, r: Record)
    requires { at + 8 ≤ length out.old }
    ensures { out.new ≡ sets out.old at (bytes r) }
{
    let word = r.word.to_le_bytes();
    out[at..at + 8].copy_from_slice(&[r.b0, r.b1, r.b2, r.b3, word[0], word[1], word[2], word[3]]);
}

// A buffer that has no such record stays as it is.
pub fn write(out: &mut [u8], number: usize, r: Record)
    ensures { out.new ≡ replaced out.old number r }
{
    if number < out.len() / 8 {
        put_record(out, 8 * number, r);
    }
}

// Whole records, and no more than the limit.
pub fn is_whole(b: &[u8]) -> bool
    ensures { result ≡ is_whole b.now }
{
    (b.len() % 8 == 0) & (b.len() <= 8192)
}

// What the records of a buffer have to be, and the refusal of one that isn't.
pub trait Form {
    ghost use Rattle.std.specs.Prelude.{Bool};
    ghost use Rattle.records.specs.declared.Record.{Record};
    ghost use Rattle.records.specs.declared.Refusal.{Refusal};

    ghost right: { Record → Bool };

    ghost REFUSAL: { Refusal };

    const REFUSAL: Refusal;

    fn is_right(r: Record) -> bool
        ensures { result ≡ right r };
}

// The length first, then each record: the fault names the first that isn't right.
pub fn scan<F: Form>(b: &[u8]) -> Result<(), Fault>
    ensures { result ≡ scanned F.REFUSAL F.right b.now }
{
    if !is_whole(b) {
        return Err(Fault::from(Refusal::BadLength));
    }
    let count = b.len() / 8;
    for number in 0..count {
        if !F::is_right(record_from(b, 8 * number)) {
            return Err(Fault {
                refusal: F::REFUSAL,
                number,
            });
        }
    }
    Ok(())
}

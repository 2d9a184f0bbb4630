// Text, written into a lent buffer, each behind the one before.
#![tactic(auto)]

ghost use Rattle.std.specs.Prelude.{[], ◌∷◌, ◌%◌};
ghost use Rattle.text.specs.Page.{Adds};
ghost use Rattle.text.specs.Text.{digit, decimal};

// A lent buffer, and the place in it where the next text goes.
#[derive(Drop)]
pub struct Page<'a> {
    pub out: &'a mut [u8],
    pub at: usize,
}

impl<'a> Page<'a> {
    // Writes as much of the text as has room.
    pub fn put(&mut self, text: &[u8])
        ensures { Adds self.old text.now self.new }
    {
        if self.at >= self.out.len() {
            return;
        }
        let n = text.len().min(self.out.len() - self.at);
        self.out[self.at..self.at + n].copy_from_slice(&text[..n]);
        self.at += n;
    }

    fn put_digit(&mut self, n: u64)
        ensures { Adds self.old (digit (n % 10) ∷ []) self.new }
    {
        self.put(&[b'0' + (n % 10) as u8]);
    }

    // Writes a number in decimal, with no leading zero.
    pub fn put_decimal(&mut self, n: u64)
        ensures { Adds self.old (decimal n) self.new }
    {
        if n < 10 {
            return self.put_digit(n);
        }
        self.put_decimal(n / 10);
        self.put_digit(n);
    }
}

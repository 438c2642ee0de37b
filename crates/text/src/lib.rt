// Text put into a lent buffer: bytes, words and decimals. What no longer fits is left out, and the place then stays at the buffer's end,
// so that a text that ends before it is whole. By hand and not by `Display`, which says nothing of a text that is cut: `Lays` says every byte.
#![tactic(auto)]

ghost use Rattle.std.specs.Prelude.{◌≡◌, [], ◌∷◌, ◌+◌, ◌%◌};
ghost use Rattle.text.specs.Text.{decimal_in, decimal};
ghost use Rattle.text.specs.Page.{Puts};

// A lent buffer, and the place up to which text has been put into it.
#[derive(Drop)]
pub struct Page<'a> {
    pub out: &'a mut [u8],
    pub at: usize,
}

impl<'a> Page<'a> {
    // One byte, where there is room for it.
    #[tactic(auto, unfolding(crate::specs::Text::laid))]
    pub fn put_byte(&mut self, byte: u8)
        ensures { Puts self.old (byte ∷ []) self.new }
    {
        if self.at < self.out.len() {
            self.out[self.at] = byte;
            self.at += 1;
        }
    }

    // The bytes of a word.
    pub fn put_word(&mut self, word: &[u8])
        ensures { Puts self.old word.now self.new }
    {
        for byte in word {
            self.put_byte(*byte);
        }
    }

    // The last digits of a number, so many at the most.
    fn put_digits(&mut self, n: u64, most: usize)
        ensures { Puts self.old (decimal_in most n) self.new }
    {
        if most == 0 {
            return;
        }
        if 10 <= n {
            self.put_digits(n / 10, most - 1);
        }
        self.put_byte(digit(n));
    }

    // A number in decimal, with no zero in front.
    #[tactic(auto, unfolding(crate::specs::Text::decimal))]
    pub fn put_decimal(&mut self, n: u64)
        ensures { Puts self.old (decimal n) self.new }
    {
        self.put_digits(n, 20);
    }
}

// A digit's byte.
fn digit(n: u64) -> u8
    ensures { result ≡ 48 + n % 10 }
{
    b'0' + (n % 10) as u8
}

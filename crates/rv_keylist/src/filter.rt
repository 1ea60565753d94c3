//! A hashed filter of keys: it may take a key for an added one, and never denies an added key.
ghost use Rattle.std.specs.Prelude.{◌≡◌, ◌<◌, ℕ, length, slice_index_or, All, true, false};
ghost use Rattle.rv_keylist.specs.Bits.{bit_of, is_set, holds, SetsBit};

use std::marker::Model;

const GOLDEN: u64 = 0x9E37_79B9_7F4A_7C15;

/// A filter of 65,536 bits in 1,024 words, which contracts see. Bit `b` is bit `b mod 64` of word `b / 64`.
#[derive(Drop)]
pub struct Filter {
    words: Vec<u64>,
}

impl Model for Filter {
    ghost use Rattle.std.specs.Prelude.{◌≡◌, ℕ, List, length};

    ghost Value = { List ℕ };

    ghost view = { λ filter. filter.words.items };

    ghost invariant = { λ filter. length filter.words.items ≡ 1024 };
}

impl Filter {
    /// The filter over these words, which holds no key. It takes no memory.
    pub fn over(words: Vec<u64>) -> Filter
        requires count { length words.items ≡ 1024 }
        requires zero { All (λ word. word ≡ 0) words.items }
        ensures words { result ≡ words.items }
        ensures empty { (bit : ℕ) → is_set result bit ≡ false }
    {
        Filter { words }
    }

    /// Clears all bits, so that it holds no key. It takes no memory.
    pub fn clear(&mut self)
        ensures { (bit : ℕ) → is_set self.new bit ≡ false }
    {
        clear_words(&mut self.words);
    }

    /// Sets the key's bit.
    pub fn add(&mut self, key: u64)
        ensures set { SetsBit self.old self.new (bit_of key) }
        ensures held { holds self.new key ≡ true }
        ensures kept { (other : ℕ) → holds self.old other ≡ true → holds self.new other ≡ true }
    {
        let bit = bit_of(key);
        self.words[bit / 64] |= 1 << (bit % 64);
    }

    /// Whether the key's bit is set, as it is for each added key.
    pub fn may_hold(&self, key: u64) -> bool
        ensures { result ≡ holds self.now key }
    {
        let bit = bit_of(key);
        (self.words[bit / 64] >> (bit % 64)) & 1 == 1
    }
}

/// Makes each word 0.
fn clear_words(words: &mut Vec<u64>)
    ensures zero { (at : ℕ) → slice_index_or words.new.items at 0 ≡ 0 }
    ensures count { length words.new.items ≡ length words.old.items }
{
    let mut i = 0;
    'words: while i < words.len() {
        words[i] = 0;
        i += 1;
    }
}

fn bit_of(key: u64) -> usize
    ensures bit { result ≡ bit_of key }
    ensures fits { result < 65536 }
{
    (key.wrapping_mul(GOLDEN) >> 48) as usize
}

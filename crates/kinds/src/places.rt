// The places of a word, from the first to the last: sixteen of four bits each, the first of them highest.
ghost use Rattle.std.specs.Prelude.{◌≡◌, ℕ, ◌≤◌, List};
ghost use Rattle.std.specs.Iterator.{YieldsFirst, item_count};
ghost use Rattle.kinds.specs.DialRules.{places};

use std::marker::Model;

// What is seen of it are the codes of the places that are left.
#[derive(Drop)]
pub struct Places {
    word: u64,
    left: u32,
}

impl Model for Places {
    ghost Value = { List ℕ };

    ghost view = { λ p. places p.left p.word };

    ghost invariant = { λ p. p.left ≤ 16 };
}

impl Places {
    // All sixteen.
    pub fn of(word: u64) -> Places
        ensures { result ≡ places 16 word }
    {
        Places { word, left: 16 }
    }
}

impl Iterator for Places {
    type Item = u64;

    ghost next_gives = { YieldsFirst (λ codes. codes) };

    ghost remaining = { item_count (λ codes. codes) };

    fn next(&mut self) -> Option<u64> {
        if self.left == 0 {
            return None;
        }
        self.left -= 1;
        Some((self.word >> (4 * self.left)) % 16)
    }
}

ghost use Rattle.std.specs.Prelude.{◌≡◌, ◌+◌, ◌<◌, ◌^◌};
ghost use Rattle.pad_generator.specs.Words.{word};

use rand_chacha::ChaCha8Rng;
use rand_core::SeedableRng;
use rand_core::utils::NextWord;
use std::marker::Model;

/// The words of a number, in order. Contracts see the number and the place of the next word.
#[derive(Drop)]
pub(crate) struct Words {
    number: u64,
    stream: ChaCha8Rng,
}

impl Model for Words {
    ghost use Rattle.std.specs.Prelude.{◌≡◌, ℕ};
    ghost use Rattle.rand_chacha.specs.ChaCha.{key_of};
    ghost use Rattle.pad_generator.specs.Words.{key_bytes};

    ghost Value = { ℕ × ℕ };

    ghost view = { λ words. (words.number, words.stream.word_pos) };

    ghost invariant = { λ words. (words.stream.key ≡ key_of (key_bytes words.number)) × (words.stream.stream ≡ 0) };
}

impl Words {
    /// The words of a number, from the first one on.
    pub(crate) fn new(number: u64) -> Words
        ensures { result ≡ (number, 0) }
    {
        let mut key = [0; 32];
        key[..8].copy_from_slice(&number.to_le_bytes());
        Words {
            number,
            stream: ChaCha8Rng::from_seed(key),
        }
    }

    /// The next word.
    #[tactic(auto, unfolding(crate::specs::Words::word))]
    pub(crate) fn next(&mut self) -> u32
        requires { self.old.1 + 1 < 2 ^ 68 }
        ensures word { result ≡ word self.old.0 self.old.1 }
        ensures rest { self.new ≡ (self.old.0, self.old.1 + 1) }
    {
        self.stream.next_word()
    }
}

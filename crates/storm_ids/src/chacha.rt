ghost use Rattle.std.specs.Prelude.{◌≡◌, ℕ};

use crate::ids::{IdMaker, Ids};
use rand_chacha::ChaCha20Rng;
use rand_core::SeedableRng;
use rand_core::utils::NextWord;
use storm_values::Memory;

/// The ids of one stream of ChaCha20. The generator makes four blocks at a time, so of 32 ids one
/// computes and the others are read.
#[derive(Drop)]
pub struct ChaChaIds {
    rng: ChaCha20Rng,
}

impl Ids for ChaChaIds {
    ghost use Rattle.storm_ids.specs.ChaCha.{chacha_id, before_id};

    ghost tells = { λ s words given. ((k : ℕ) → words k ≡ chacha_id s.rng.key s.rng.stream k)
        × (s.rng ≡ before_id s.rng.key s.rng.stream given) };

    fn next(&mut self) -> u64 {
        let first = u64::from(self.rng.next_word());
        let second = u64::from(self.rng.next_word());
        (first << 32) | second
    }
}

/// Makes the streams of one key: the number of a source is the number of its stream.
#[derive(Clone, Copy)]
pub struct ChaChaMaker {
    pub key: [u8; 32],
}

impl IdMaker for ChaChaMaker {
    type I = ChaChaIds;

    ghost use Rattle.storm_ids.specs.ChaCha.{chacha_words};

    ghost tells = { λ s words. (source k : ℕ) → words source k ≡ chacha_words s.key source k };

    /// Takes no memory.
    fn make(&mut self, source: u32) -> Result<ChaChaIds, Memory> {
        let mut rng = ChaCha20Rng::from_seed(self.key);
        rng.set_stream(u64::from(source));
        Ok(ChaChaIds { rng })
    }
}

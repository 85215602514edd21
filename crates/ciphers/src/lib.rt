// The ciphers under keys of bytes: a block of eight bytes and a key come to the word that is written.
#![tactic(auto)]

ghost use Rattle.std.specs.Prelude.{◌≡◌, true, ◌+◌, ◌≤◌, length, reverse};
ghost use Rattle.fips46.specs.Fips46.{KS};
ghost use Rattle.ciphers.specs.Ciphers.{is_lab_key, key_at, des_word, triple_word, computed_once, computed_thrice};

#[derive(Clone, Copy)]
pub enum Way {
    Encipher,
    Decipher,
}

// Subkeys from the last to the first: one deciphers by the same computation.
fn reversed(ks: &[u64; 16]) -> [u64; 16]
    ensures { result ≡ reverse ks.now }
{
    let mut back = *ks;
    back.reverse();
    back
}

// DES by subkeys, either way.
fn once(way: Way, ks: &[u64; 16], w: u64) -> u64
    ensures { result ≡ computed_once way ks.now w }
{
    match way {
        Way::Encipher => des::computed_by(ks, w),
        Way::Decipher => des::computed_by(&reversed(ks), w),
    }
}

// DES under a key of eight bytes, either way.
pub fn des_word(way: Way, key: &[u8], block: &[u8]) -> u64
    requires { (length key.now ≡ 8) × (length block.now ≡ 8) }
    ensures { result ≡ des_word way key.now block.now }
{
    let ks = keyschedule::subkeys(words::word_of(key));
    once(way, &ks, words::word_of(block))
}

// Whether a key is one that triple DES takes.
pub fn is_lab_key(key: &[u8]) -> bool
    ensures { result ≡ is_lab_key key.now }
{
    matches!(key.len(), 16 | 24)
}

// The subkeys of the eight bytes of a key from a place on.
fn subkeys_at(key: &[u8], at: usize) -> [u64; 16]
    requires { (at ≤ 16) × (at + 8 ≤ length key.now) }
    ensures { result ≡ KS (key_at key.now at) }
{
    keyschedule::subkeys(words::word_of(&key[at..at + 8]))
}

// Triple DES by subkeys, either way.
fn thrice(way: Way, k1: &[u64; 16], k2: &[u64; 16], k3: &[u64; 16], w: u64) -> u64
    ensures { result ≡ computed_thrice way k1.now k2.now k3.now w }
{
    match way {
        Way::Encipher => tripledes::computed_by(k1, &reversed(k2), k3, w),
        Way::Decipher => tripledes::computed_by(&reversed(k3), k2, &reversed(k1), w),
    }
}

// Triple DES under a lab key, either way: where there is no third key it is the first.
pub fn triple_word(way: Way, key: &[u8], block: &[u8]) -> u64
    requires { (is_lab_key key.now ≡ true) × (length block.now ≡ 8) }
    ensures { result ≡ triple_word way key.now block.now }
{
    let w = words::word_of(block);
    let k1 = subkeys_at(key, 0);
    let k2 = subkeys_at(key, 8);
    if key.len() < 24 {
        return thrice(way, &k1, &k2, &k1, w);
    }
    let k3 = subkeys_at(key, 16);
    thrice(way, &k1, &k2, &k3, w)
}

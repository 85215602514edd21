// The permutations of whole words by exchanges of bits: IP, its inverse, and permuted choice 1.
#![tactic(auto)]

ghost use Rattle.std.specs.Prelude.{◌≡◌};
ghost use Rattle.bits.specs.Select.{select};
ghost use Rattle.fips46.specs.Fips46.{IP, IP⁻¹, PC1};
ghost use Rattle.permutations.specs.Exchanges.{flip};

// The initial permutation.
pub fn initial(w: u64) -> u64
    ensures { result ≡ select 64 IP w }
{
    let w1 = bits::exchange(w, 3, 0x0a0a_0a0a_0a0a_0a0a);
    let w2 = bits::exchange(w1, 6, 0x00cc_00cc_00cc_00cc);
    let w3 = bits::exchange(w2, 15, 0x0000_aaaa_0000_aaaa);
    let w4 = bits::exchange(w3, 3, 0x1111_1111_1111_1111);
    bits::exchange(w4, 36, 0x0f0f_0f0f)
}

// Its inverse: the same exchanges from the last to the first.
pub fn inverse(w: u64) -> u64
    ensures { result ≡ select 64 IP⁻¹ w }
{
    let w1 = bits::exchange(w, 36, 0x0f0f_0f0f);
    let w2 = bits::exchange(w1, 3, 0x1111_1111_1111_1111);
    let w3 = bits::exchange(w2, 15, 0x0000_aaaa_0000_aaaa);
    let w4 = bits::exchange(w3, 6, 0x00cc_00cc_00cc_00cc);
    bits::exchange(w4, 3, 0x0a0a_0a0a_0a0a_0a0a)
}

// Eight bytes as a square of bits, turned over the diagonal from the left below: what was the last column is the first row.
fn flipped(w: u64) -> u64
    ensures { result ≡ flip w }
{
    let w1 = bits::exchange(w, 9, 0x0055_0055_0055_0055);
    let w2 = bits::exchange(w1, 18, 0x0000_3333_0000_3333);
    bits::exchange(w2, 36, 0x0f0f_0f0f)
}

// Permuted choice 1: the columns of the key, from the bottom up. The last, the parity bits, is left out.
pub fn choice1(key: u64) -> u64
    ensures { result ≡ select 64 PC1 key }
{
    let x = flipped(key);
    ((x % 0x100) * 0x1_0000_0000_0000)
        ^ (((x >> 8) % 0x100) * 0x100_0000_0000)
        ^ (((x >> 16) % 0x100) * 0x1_0000_0000)
        ^ (((x >> 28) % 0x10) * 0x1000_0000)
        ^ (((x >> 32) % 0x100_0000) * 0x10)
        ^ ((x >> 24) % 0x10)
}

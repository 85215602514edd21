// The cipher function f of FIPS 46-3: E by windows on its input, the boxes joined with P.
#![tactic(auto)]

ghost use Rattle.std.specs.Prelude.{◌≡◌, ◌<◌, ◌≤◌};
ghost use Rattle.fips46.specs.Rows.{InRow};
ghost use Rattle.fips46.specs.Fips46.{f as f_of};
ghost use Rattle.sboxes.specs.Permuted.{permuted};
ghost use Rattle.cipherfunction.specs.Windows.{edged, window};

// R with its last bit before it and its first behind it.
fn edges(r: u32) -> u64
    ensures { result ≡ edged r }
{
    let x = r as u64;
    (x * 2) ^ (x >> 31) ^ ((x % 2) * 0x200000000)
}

// The six bits that box n is given.
fn six(n: usize, y: u64, k: u64) -> usize
    requires { (1 ≤ n) × (n ≤ 8) }
    ensures { (result ≡ window n y k) × (result < 64) }
{
    (((y >> (32 - 4 * n)) ^ (k >> (48 - 6 * n))) % 64) as usize
}

// What box n makes of them, permuted by P.
fn boxed(n: usize, y: u64, k: u64) -> u32
    requires { (1 ≤ n) × (n ≤ 8) }
    ensures { (result ≡ permuted n (window n y k)) × InRow n (window n y k) }
{
    sboxes::through(n, six(n, y, k))
}

// The cipher function, of R and a block of key bits.
pub fn f(r: u32, k: u64) -> u32
    ensures { result ≡ f_of r k }
{
    let y = edges(r);
    boxed(1, y, k)
        ^ boxed(2, y, k)
        ^ boxed(3, y, k)
        ^ boxed(4, y, k)
        ^ boxed(5, y, k)
        ^ boxed(6, y, k)
        ^ boxed(7, y, k)
        ^ boxed(8, y, k)
}

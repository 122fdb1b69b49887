// FIPS 180-4, sections 3.2 and 4.1.2: addition of words and SHA-256's six functions. Ch, σ₀ and σ₁ are in forms that take
// fewer instructions than the standard's, which their contracts state.
ghost use Rattle.std.specs.Prelude.{◌≡◌};
ghost use Rattle.sha256_block.specs.Functions.{◌⊞◌, ch, maj, Σ₀, Σ₁, σ₀, σ₁};

pub(crate) fn plus(x: u32, y: u32) -> u32
    ensures { result ≡ x ⊞ y }
{
    std::num::wrapping_add_u32(x, y)
}

// Where a bit of x is set, that of y; else that of z.
pub(crate) fn ch(x: u32, y: u32, z: u32) -> u32
    ensures { result ≡ ch x y z }
{
    z ^ (x & (y ^ z))
}

pub(crate) fn maj(x: u32, y: u32, z: u32) -> u32
    ensures { result ≡ maj x y z }
{
    (x & y) ^ (x & z) ^ (y & z)
}

pub(crate) fn large_sigma0(x: u32) -> u32
    ensures { result ≡ Σ₀ x }
{
    ((x >> 2) | (x << 30)) ^ ((x >> 13) | (x << 19)) ^ ((x >> 22) | (x << 10))
}

pub(crate) fn large_sigma1(x: u32) -> u32
    ensures { result ≡ Σ₁ x }
{
    ((x >> 6) | (x << 26)) ^ ((x >> 11) | (x << 21)) ^ ((x >> 25) | (x << 7))
}

// ROTR 18 is ROTR 7 of ROTR 11.
pub(crate) fn small_sigma0(x: u32) -> u32
    ensures { result ≡ σ₀ x }
{
    let y = x ^ ((x >> 11) | (x << 21));
    ((y >> 7) | (y << 25)) ^ (x >> 3)
}

// ROTR 19 is ROTR 17 of ROTR 2.
pub(crate) fn small_sigma1(x: u32) -> u32
    ensures { result ≡ σ₁ x }
{
    let y = x ^ ((x >> 2) | (x << 30));
    ((y >> 17) | (y << 15)) ^ (x >> 10)
}

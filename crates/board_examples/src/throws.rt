// Numbers that look as if thrown, for tests and benchmarks.
ghost use Rattle.std.specs.Prelude.{◌≡◌, ◌+◌, ◌*◌, ◌%◌, ◌^◌};

// The number that follows a number, by a linear congruence.
pub fn thrown(seed: u32) -> u32
    ensures { result ≡ (seed * 1664525 + 1013904223) % 2 ^ 32 }
{
    seed.wrapping_mul(1664525).wrapping_add(1013904223)
}

// The bytes of the lent area.
ghost use Rattle.std.specs.Prelude.{◌≡◌, ◌+◌, ◌≤◌, length, replicate};
ghost use Rattle.std.proofs.Math.Seq.{paste};

// The middle part of the area from `at`, n bytes, set to zero.
pub fn clear_at(area: &mut [u8], at: usize, n: usize)
    requires { at + n ≤ length area.old }
    ensures { area.new ≡ paste area.old at (replicate n 0) n }
{
    area[at..at + n].fill(0);
}

// The first n bytes of the payload, copied to the middle part of the area from `at`.
pub fn copy_at(area: &mut [u8], at: usize, payload: &[u8], n: usize)
    requires { (at + n ≤ length area.old) × (n ≤ length payload.now) }
    ensures { area.new ≡ paste area.old at payload.now n }
{
    area[at..at + n].copy_from_slice(&payload[..n]);
}

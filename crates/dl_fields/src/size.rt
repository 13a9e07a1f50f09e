ghost use Rattle.std.specs.Prelude.{◌≡◌, ◌<◌, ◌+◌, length};
ghost use Rattle.std.specs.Int.{w16, w32};
ghost use Rattle.dl_fields.specs.Fields.{counted_field};

/// How many bytes a run has with its length of 16 bits.
#[tactic(auto, using(crate::proofs::SizeLemmas::sizes))]
pub fn size_of_run_u16(run: &[u8]) -> u64
    requires { length run.now < 65536 }
    ensures exact { result ≡ length (counted_field w16 run.now) }
    ensures parts { result ≡ 2 + length run.now }
{
    run.len() as u64 + 2
}

/// How many bytes a run has with its length of 32 bits.
#[tactic(auto, using(crate::proofs::SizeLemmas::sizes))]
pub fn size_of_run_u32(run: &[u8]) -> u64
    requires { length run.now < 4294967296 }
    ensures exact { result ≡ length (counted_field w32 run.now) }
    ensures parts { result ≡ 4 + length run.now }
{
    run.len() as u64 + 4
}

// The bytes at the front of a slice, as many as one asks for.
ghost use Rattle.std.specs.Prelude.{◌≡◌};
ghost use Rattle.wire.specs.Bytes.{front, part, placed};

// The first N bytes. Where the slice has fewer, each is 0.
#[tactic(auto, using(crate::proofs::Fronts::padded_whole, crate::proofs::Fronts::padded_short))]
pub(crate) fn first<const N: usize>(bytes: &[u8]) -> [u8; N]
    ensures { result ≡ part (front N bytes.now) 0 N }
{
    bytes.first_chunk().copied().unwrap_or([0; N])
}

// N bytes in place of the first; the others stay as they were. Where the slice has fewer, all of it
// stays as it was.
#[tactic(auto, unfolding(crate::specs::Bytes::placed))]
pub(crate) fn place<const N: usize>(out: &mut [u8], bytes: [u8; N])
    ensures { out.new ≡ placed bytes.entry out.old }
{
    if let Some(first) = out.first_chunk_mut() {
        *first = bytes;
    }
}

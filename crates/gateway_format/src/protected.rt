// Outer reading: where the protected part of a message is.
ghost use Rattle.std.specs.Prelude.{◌≡◌, [], ◌∷◌};
ghost use Rattle.message.specs.Answers.{number_in};
ghost use Rattle.outer.specs.Outer.{outer_of};
ghost use Rattle.places.specs.Answers.{offset_after};
ghost use Rattle.gateway_format.specs.Messages.{part_after};

use places::PART_PLACES;

// Puts the start and the length of a part into its places. A `usize` has no `From` to `u64`.
fn store_part(start: usize, len: usize, part: &mut [u64; PART_PLACES])
    ensures { part.new ≡ start ∷ len ∷ [] }
{
    part[places::PART_START] = start as u64;
    part[places::PART_LENGTH] = len as u64;
}

// Where the protected part of a message starts and how long it is. Refusals 1 to 9, with the byte at fault
// in `offset`, which otherwise stays as it was.
pub fn kabizarle_read_outer(bytes: &[u8], part: &mut [u64; PART_PLACES], offset: &mut u64) -> u32
    ensures result { result ≡ number_in (outer_of bytes.now) }
    ensures part { part.new ≡ part_after (outer_of bytes.now) part.old }
    ensures offset { offset.new ≡ offset_after (outer_of bytes.now) offset.old }
{
    match outer::read_outer(bytes) {
        Ok((start, len)) => {
            store_part(start, len, part);
            places::NO_REFUSAL
        }
        Err(refusal) => places::refused(refusal, offset),
    }
}

// A number at the front of a slice.
#![tactic(auto, using(crate::proofs::Library::got_low, crate::proofs::Library::got_turned))]

ghost use Rattle.std.specs.Prelude.{◌≡◌, ℕ, List, length};
ghost use Rattle.wire.specs.Bytes.{front, placed};

mod u16;
mod u32;
mod u64;
mod u8;

// A number as a message has it, in so many bytes. What an impl says is which conversion of the library's it is: each
// type has its own.
pub trait Number: Copy {
    // How many bytes it has, the number that bytes stand for, and the bytes of a number.
    ghost SIZE: { ℕ };

    ghost read: { List ℕ → Self };

    ghost written: { ℕ → Self → List ℕ };

    const SIZE: usize;

    // The number in the first bytes. Where the slice has fewer bytes than the number, it is that of none.
    fn get(bytes: &[u8]) -> Self
        ensures { result ≡ read (front SIZE bytes.now) };

    // The number into the first bytes; the others stay as they were. Where the slice has fewer bytes
    // than the number, all of it stays as it was.
    fn put(self, out: &mut [u8])
        ensures { out.new ≡ placed (written SIZE self) out.old };

    // It has as many bytes as one asks for.
    ghost length_written: { (w : ℕ) (x : Self) → length (written w x) ≡ w };
}

//! Ranges of bytes of an image.
ghost use Rattle.std.specs.Prelude.{◌≡◌, IfOk, length};
ghost use Rattle.ar_space.specs.Outcome.{Answers, seen};
ghost use Rattle.ar_tables.specs.Headers.{summed};
ghost use Rattle.ar_tables.specs.ImageBytes.{bytes_at};

use ar_space::{ByteMap, Refusal, Result, TableFault};
use std::alloc::Global;
use std::marker::Model;

/// The bytes of an image at a range of addresses.
#[derive(Debug, Drop)]
pub(crate) struct ImageBytes {
    bytes: Vec<u8>,
}

impl Model for ImageBytes {
    ghost use Rattle.std.specs.Prelude.{List, ℕ};

    ghost Value = { List ℕ };

    ghost view = { λ b. b.bytes.items };
}

impl ImageBytes {
    /// The bytes at `count` addresses from `address` on, or `NotInImage` where one of them is not in the image or lies
    /// past the last address.
    #[tactic(auto, using(ar_space::proofs::Outcomes::answering))]
    pub(crate) fn read(
        alloc: Global,
        image: &ByteMap,
        address: u64,
        count: usize,
    ) -> Result<ImageBytes>
        ensures value { Answers result (bytes_at image.now address count) }
        ensures len { IfOk result (λ bytes. length bytes ≡ count) }
    {
        let bytes = bytes_at(alloc, image, address, count)?;
        Ok(ImageBytes { bytes })
    }

    pub(crate) fn into_vec(self) -> Vec<u8>
        ensures { result.items ≡ self }
    {
        self.bytes
    }

    pub(crate) fn as_slice(&self) -> &[u8]
        ensures { result.now ≡ self.now }
    {
        &self.bytes
    }

    /// Whether the bytes add up to zero, modulo 256: `BadChecksum` where they don't.
    #[tactic(auto, using(ar_space::proofs::Outcomes::answering), unfolding(crate::specs::Headers::summed))]
    pub(crate) fn summed(&self) -> Result<()>
        ensures { Answers result (summed self.now) }
    {
        summed(self.as_slice())
    }
}

fn bytes_at(alloc: Global, image: &ByteMap, address: u64, count: usize) -> Result<Vec<u8>>
    ensures value { Answers (seen (λ v. v.items) result) (bytes_at image.now address count) }
    ensures len { IfOk result (λ v. length v.items ≡ count) }
{
    let bytes = image.run(alloc, address, count)?;
    if bytes.len() < count {
        return Err(Refusal::Table(TableFault::NotInImage));
    }
    Ok(bytes)
}

/// Whether bytes add up to zero, modulo 256.
#[tactic(auto, using(ar_space::proofs::Outcomes::answering), unfolding(crate::specs::Headers::summed))]
pub(crate) fn summed(bytes: &[u8]) -> Result<()>
    ensures { Answers result (summed bytes.now) }
{
    let mut sum = 0u8;
    for byte in bytes {
        sum = sum.wrapping_add(*byte);
    }
    if sum == 0 {
        Ok(())
    } else {
        Err(Refusal::Table(TableFault::BadChecksum))
    }
}

//! Sums of a log: each is the SHA-256 of the one before and of what was written since.

ghost use Rattle.std.specs.Prelude.{◌≡◌, ◌++◌};
ghost use Rattle.sha2.specs.Sha256.{sha256};

use sha2::{Digest, Sha256};

/// The sum after a piece: the SHA-256 of the sum before it and of the piece.
pub fn next_sum(sum: &[u8; 32], piece: &[u8]) -> [u8; 32]
    ensures { result ≡ sha256 (sum.now ++ piece.now) }
{
    let mut hasher = Sha256::new();
    hasher.update(sum.as_slice());
    hasher.update(piece);
    hasher.finalize()
}

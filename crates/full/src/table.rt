//! The table of the full book.
ghost use Rattle.std.specs.Prelude.{◌≡◌, All, length};
ghost use Rattle.book.specs.Holdings.{Sound};
ghost use Rattle.full.specs.Held.{held_in};

use crate::holding::Holding;

/// Keeps every holding as such, a row of blocks for each thread.
#[derive(Drop)]
pub struct FullBook {
    pub(crate) rows: [[Holding; 64]; 16],
    ghost sixteen: { length rows ≡ 16 },
    ghost whole: { All (λ row. length row ≡ 64) rows },
    ghost sound: { ∥ Sound (held_in rows) ∥₁ },
}

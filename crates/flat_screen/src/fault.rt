use flat_base::NoMemory;
use thiserror::Error;

/// Why there is no display of a size.
#[derive(Clone, Copy, Debug, PartialEq, Eq, Error)]
pub enum ScreenFault {
    /// A side is 0, or there are more pixels than
    /// [`PIXELS_MAX`](flat_render::PIXELS_MAX).
    #[error("a display has no pixels, or more than a picture may have")]
    BadSize,
    /// Out of memory.
    #[error("out of memory")]
    NoMemory,
}

impl From<NoMemory> for ScreenFault {
    ghost use Rattle.std.specs.Prelude.{◌≡◌};
    ghost use Rattle.flat_screen.specs.declared.fault.ScreenFault.TheVariants as fault;

    ghost from_gives = { λ _ e. e ≡ fault.NoMemory };

    fn from(_e: NoMemory) -> ScreenFault {
        ScreenFault::NoMemory
    }
}

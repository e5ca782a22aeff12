use crate::ratios::Ratios;

/// Which frame is open, when the last one began, and the display's pixel ratios.
#[derive(Clone, Copy, PartialEq, Eq)]
pub struct FrameClock {
    /// How many are finished.
    pub frames: u32,
    pub is_open: bool,
    /// When the last one began; 0 before the first.
    pub time: u64,
    pub ratios: Ratios,
}

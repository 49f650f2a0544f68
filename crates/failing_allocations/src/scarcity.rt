//! How much memory a run has.

/// How much memory there is for the calls of a run.
#[derive(Clone, Copy, Drop)]
pub enum Supply {
    /// As much as any call wants.
    Ample,
    /// So many bytes for the start. Each call is made with none, and with more while an allocation fails; the ends of
    /// processes and of the layer are made with none.
    Scarce(usize),
    /// As much as any call wants for so many calls, and none from then on.
    NoneAfter(usize),
}

/// The steps in which more is left.
pub const STEPS: usize = 123;

/// The bytes that are left at a step: each multiple of 16 below 1 KiB, then each of 1 KiB up to 59 KiB.
pub fn bytes_at(step: usize) -> usize {
    if step < 64 {
        step * 16
    } else {
        step.saturating_sub(63).saturating_mul(1024)
    }
}

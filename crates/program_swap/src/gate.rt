//! Who may hold a lane or the installer for a while.

/// Called round each answer and install. Each call returns.
pub trait Gate: Sync {
    fn before_frame(&self, k: u64);

    fn after_frame(&self, k: u64);

    fn before_install(&self, number: u64);

    fn after_install(&self, number: u64);
}

/// It does nothing.
pub struct NoGate;

impl Gate for NoGate {
    fn before_frame(&self, _k: u64) {}

    fn after_frame(&self, _k: u64) {}

    fn before_install(&self, _number: u64) {}

    fn after_install(&self, _number: u64) {}
}

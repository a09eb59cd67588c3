//! Engines: gates, by which a caller holds workers.

/// What a caller may have each worker do before its job and after its submit, as to wait for another. Both return.
pub trait Gate {
    /// Before the job of this turn of the worker, from 0.
    fn before(&self, worker: u32, turn: u64);

    /// After the submit of this turn, or after its job where that gave none.
    fn after(&self, worker: u32, turn: u64);
}

/// An object that threads share is a gate by itself.
impl<'a> Gate for &'a (dyn Gate + Sync) {
    fn before(&self, worker: u32, turn: u64) {
        (**self).before(worker, turn)
    }

    fn after(&self, worker: u32, turn: u64) {
        (**self).after(worker, turn)
    }
}

/// It does nothing.
pub struct NoGate;

impl Gate for NoGate {
    fn before(&self, _worker: u32, _turn: u64) {}

    fn after(&self, _worker: u32, _turn: u64) {}
}

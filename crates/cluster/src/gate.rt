/// What is called before each device call of an operation, outside all locks.
pub trait Gate {
    /// `call` is the number of the device call in its operation, from 1.
    fn before_call(&mut self, call: u64);
}

/// A gate that does nothing: no call waits.
#[derive(Drop)]
pub struct OpenGate;

impl Gate for OpenGate {
    fn before_call(&mut self, _call: u64) {}
}

/// How many objects of each kind come before an object, in object order. Each kind is numbered by its own place there.
#[derive(Clone, Copy, Debug, PartialEq, Eq)]
pub struct Counts {
    /// All objects.
    pub objects: u32,
    /// Instances of modules.
    pub instances: u32,
    /// Signals, buffers and clocks.
    pub signals: u32,
    /// Resolved signals.
    pub resolved: u32,
    /// Fifos.
    pub fifos: u32,
    /// Mutexes.
    pub mutexes: u32,
    /// Semaphores.
    pub semaphores: u32,
    /// Quantum keepers.
    pub keepers: u32,
    /// Memories.
    pub memories: u32,
    /// Variables of instances of modules.
    pub variables: u32,
    /// Ports.
    pub ports: u32,
    /// Processes and clocks.
    pub processes: u32,
    /// Events of objects.
    pub events: u32,
}

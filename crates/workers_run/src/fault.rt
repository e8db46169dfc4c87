//! Why a run of a script of workers ended early.

/// Why not all lines of a run were written.
#[derive(Clone, Copy)]
pub enum RunFault {
    /// The device failed while the compartments were created or opened, or their file was given up.
    Device,
    NoMemory,
    /// The sink failed.
    Write,
}

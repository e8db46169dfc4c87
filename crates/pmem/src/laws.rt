//! The laws of lists of events, for the crates above.

ghost use Rattle.pmem.specs.Law.{AllLaw, OffLaw, FailedLaw, MemoryLaw, DownLaw, GlueLaw};

/// What is known after a list of events, by its answer. The function does nothing.
pub fn device_laws()
    ensures all { AllLaw }
    ensures off { OffLaw }
    ensures failed { FailedLaw }
    ensures memory { MemoryLaw }
    ensures down { DownLaw }
    ensures glue { GlueLaw }
{}

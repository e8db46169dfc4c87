//! The types of answers and faults, for every caller.

/// The types that each emitted header declares, once for all of them.
pub const TYPES: &str = r#"#ifndef CNVM_ANSWER
#define CNVM_ANSWER
#include <stdint.h>

enum cnvm_status {
    CNVM_DONE,     /* it took effect and is durable: value, logged */
    CNVM_ABORTED,  /* a `tx abort` or `tx const` trapped, and nothing of it is left: trap */
    CNVM_TRAPPED,  /* a `tx` trapped, and the pool is unusable from now on: trap */
    CNVM_UNUSABLE, /* refused, since an earlier call trapped: trap */
    CNVM_NUMBERS,  /* refused, since the pool's numbers are used up */
    CNVM_NONE      /* of an opening: no call was owed */
};

enum cnvm_trap {
    CNVM_NULL = 1, CNVM_STALE, CNVM_INDEX, CNVM_DIVIDE,
    CNVM_STEPS, CNVM_ABORT, CNVM_LOGFULL, CNVM_DEPTH
};

struct cnvm_answer { int status, trap; int64_t value; uint64_t logged; };

enum cnvm_sync {
    CNVM_AUTO,       /* CNVM_CACHE on memory that keeps what is flushed (DAX), else CNVM_MSYNC */
    CNVM_CACHE,      /* the best instruction that the processor has */
    CNVM_CLWB, CNVM_CLFLUSHOPT, CNVM_CLFLUSH,
    CNVM_MSYNC,      /* pages are written to the file */
    CNVM_NOSYNC      /* the pool outlives the process, and not the machine */
};

enum cnvm_fault_kind {
    CNVM_SYSTEM = 1, /* error is an errno */
    CNVM_BUSY,       /* another process has the pool */
    CNVM_NOMEMORY,
    CNVM_SHORT,      /* bytes found, wanted */
    CNVM_MAGIC, CNVM_VERSION, CNVM_SIZES, /* found, wanted */
    CNVM_DIGEST,     /* the pool is another program's */
    CNVM_CONTENT,    /* word, value */
    CNVM_STACK       /* bytes of stack found, and wanted for 256 open functions */
};

struct cnvm_fault { int kind, error; int64_t found, wanted; };
#endif

"#;

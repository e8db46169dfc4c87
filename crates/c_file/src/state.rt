//! The layout of a pool, and the state of one that is open.

/// The part of the C file that declares a pool's state.
pub const STATE: &str = r#"
/* ------------------------------------------------------------------------------ the runtime
   Words are uint64_t, in two's complement. There is no signed arithmetic, and each index is
   checked. */

/* A program needs some of these functions. */
#pragma GCC diagnostic ignored "-Wunused-function"

_Static_assert(sizeof(void *) == 8, "addresses have 64 bits");
_Static_assert((int64_t)UINT64_MAX == -1, "int64_t is taken modulo 2^64");

/* The layout. Line k is words 8 k to 8 k + 7. */
enum {
    CN_LAST = 16,      /* line 2: the value of the last finished call, */
    CN_DONE = 17,      /* how many have finished, */
    CN_ATTEMPT = 18,   /* how often the log was made empty, */
    CN_MARK = 19,      /* and 0, or the trap that made the pool unusable */
    CN_FUNCTION = 24,  /* lines 3 to 5: the sealed call's transaction and its arguments, */
    CN_ARGUMENTS = 22,
    CN_SEAL = 47,      /* and done + 1 while that call is owed */
    CN_RECORD = 6,     /* the line of the first record: heap word, old value, stamp */
    CN_HEAP_LINE = CN_RECORD + CN_LOG,
    CN_ROOT_LINES = (CN_ROOT + 7) / 8,
    CN_FIRST = 8 * CN_ROOT_LINES,    /* the heap word of slot 1's header */
    CN_HEAP_LINES = CN_ROOT_LINES + CN_SLOT / 8 * CN_SLOTS,
    CN_HEAP = 8 * CN_HEAP_LINES,     /* the number of heap words */
    CN_LINES = CN_HEAP_LINE + CN_HEAP_LINES,
    CN_GROUPS = CN_SLOTS / 64 + 1,   /* of 64 slots each */
    CN_PLACE_BITS = 64 - __builtin_clzll(2 * CN_LOG - 1),
    CN_PLACES = 1 << CN_PLACE_BITS   /* the least power of two with two places for each record */
};
#define CN_BYTES (UINT64_C(64) * CN_LINES)
#define CN_STACK (UINT64_C(256) * (16 * CN_REGISTERS + 512))
#define CN_MAGIC UINT64_C(5498700876356144707)
#define CN_NUMBERS (UINT64_C(1) << 62)

/* A place of the set of words that have records: a heap word, and the run that put it there. */
struct cn_place { uint64_t word, run; };

/* What a call that stores needs, and the lock. */
struct cn_kept {
    pthread_mutex_t lock;
    uint64_t looking;                /* how many calls look right now */
    /* heap lines that are stored to and not flushed, first store first; and whether a line is */
    uint32_t dirty[CN_HEAP_LINES];
    unsigned char is_dirty[CN_HEAP_LINES];
    struct cn_place places[CN_PLACES]; /* what an earlier run put there counts as nothing */
    /* free slots: a bit for each slot, for 64 of them, for 4096, and for 262144 of them */
    uint64_t free_slots[CN_GROUPS], free_groups[CN_GROUPS / 64 + 1];
    uint64_t free_blocks[CN_GROUPS / 4096 + 1], free_areas;
};

/* A pool that is open. All but its words is volatile, and made anew at each opening. */
struct cn_pool {
    uint64_t *words, *heap;          /* the mapped file, and the first heap word in it */
    int file, sync;
    uint64_t page;                   /* bytes of a page */
    uint64_t from, to;               /* bytes to be written by the next fence, with CNVM_MSYNC */
    uint64_t events[3];              /* stores, flushes and fences, where they are counted */
    struct cn_kept *kept;
    /* of the call that runs */
    uint64_t ticks, open, trap;
    uint64_t records;                /* in the log */
    uint64_t run;                    /* its number since the pool was opened, from 1 on */
    int rolls_back, looks;
    uint64_t dirty_from, dirty_to;   /* the places of `dirty` that are in use */
};

"#;

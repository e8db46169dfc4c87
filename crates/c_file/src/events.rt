//! The three events.

/// The part of the C file that stores, flushes and fences.
pub const EVENTS: &str =
    r#"/* -- Events. What reaches the pool's words goes through cn_store, cn_flush and cn_fence. */

/* Comes before each event. With -DCNVM_CUT=K the process ends right before event K. Events are
   counted from 0 since the pool was created or opened, those of its recovery too. */
static inline void cn_event(struct cn_pool *p, int kind) {
#ifdef CNVM_CUT
    if (p->events[0] + p->events[1] + p->events[2] == (uint64_t)(CNVM_CUT)) _exit(99);
#endif
#if defined CNVM_CUT || defined CNVM_COUNT
    p->events[kind]++;
#endif
    (void)p;
    (void)kind;
}

/* Has a line made durable by the next cn_drain. */
static inline void cn_write_back(struct cn_pool *p, uint64_t line) {
    volatile char *at = (volatile char *)(p->words + 8 * line);
    uint64_t from = 64 * line / p->page * p->page;
    switch (p->sync) {
#ifdef __x86_64__
    case CNVM_CLWB: __asm__ volatile("clwb %0" : "+m"(*at) : : "memory"); break;
    case CNVM_CLFLUSHOPT: __asm__ volatile("clflushopt %0" : "+m"(*at) : : "memory"); break;
    case CNVM_CLFLUSH: __asm__ volatile("clflush %0" : "+m"(*at) : : "memory"); break;
#endif
    case CNVM_MSYNC:
        if (p->to == 0 || from < p->from) p->from = from;
        if (from + p->page > p->to) p->to = from + p->page;
        break;
    default: (void)at; break;
    }
}

/* Waits until the lines that were written back are durable. A file that refuses them ends the
   process, since nothing could be told durable any more. */
static inline void cn_drain(struct cn_pool *p) {
    if (p->sync == CNVM_MSYNC) {
        char *from = (char *)p->words + p->from;
        if (p->to != 0 && msync(from, p->to - p->from, MS_SYNC) != 0) abort();
        p->to = 0;
        return;
    }
#ifdef __x86_64__
    if (p->sync != CNVM_NOSYNC) __asm__ volatile("sfence" : : : "memory");
#endif
    __asm__ volatile("" : : : "memory");
}

/* volatile: each store by itself, in the order of this text */
static inline void cn_store(struct cn_pool *p, uint64_t word, uint64_t value) {
    cn_event(p, 0);
    *(volatile uint64_t *)(p->words + word) = value;
}

static inline void cn_flush(struct cn_pool *p, uint64_t line) {
    cn_event(p, 1);
    cn_write_back(p, line);
}

static inline void cn_fence(struct cn_pool *p) {
    if (p->looks) return; /* there is nothing to wait for, and no event */
    cn_event(p, 2);
    cn_drain(p);
}

"#;

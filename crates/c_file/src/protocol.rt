//! A call and a recovery.

/// The part of the C file that seals, runs, retires and recovers a call.
pub const PROTOCOL: &str = r#"/* -- The protocol: a call is sealed, run and retired. */

/* runs the code of a transaction, at the end of this file */
static uint64_t cn_run(struct cn_pool *p, uint64_t tx, const uint64_t *args);

/* An image that has the seal has the whole call. */
static void cn_seal(struct cn_pool *p, uint64_t tx, const uint64_t *args) {
    uint64_t count = cn_parameters[tx - 1];
    cn_store(p, CN_FUNCTION, tx);
    for (uint64_t i = 0; i < count; i++) cn_store(p, CN_FUNCTION + 1 + i, args[i]);
    for (uint64_t i = 0; i <= count / 8; i++) cn_flush(p, CN_FUNCTION / 8 + i);
    cn_fence(p);
    cn_store(p, CN_SEAL, p->words[CN_DONE] + 1);
    cn_flush(p, CN_SEAL / 8);
    cn_fence(p);
}

/* From here on the call isn't owed any more, and no record is valid. */
static void cn_retire(struct cn_pool *p, uint64_t value) {
    cn_store(p, CN_LAST, value);
    cn_store(p, CN_DONE, p->words[CN_DONE] + 1);
    cn_store(p, CN_ATTEMPT, p->words[CN_ATTEMPT] + 1);
    cn_flush(p, CN_LAST / 8);
    cn_fence(p);
}

/* The trap makes the pool unusable. */
static void cn_mark(struct cn_pool *p) {
    cn_store(p, CN_MARK, p->trap);
    cn_flush(p, CN_MARK / 8);
    cn_fence(p);
}

/* Puts the old values of the first records back, the newest first. */
static void cn_restore(struct cn_pool *p, uint64_t count) {
    for (uint64_t i = count; i > 0; i--) {
        const uint64_t *record = p->words + 8 * (CN_RECORD + i - 1);
        uint64_t x = record[0];
        cn_put(p, x, record[1]);
        cn_flush(p, CN_HEAP_LINE + x / 8);
    }
    if (count != 0) cn_fence(p);
}

/* Makes the log empty. */
static void cn_reset(struct cn_pool *p) {
    cn_store(p, CN_ATTEMPT, p->words[CN_ATTEMPT] + 1);
    cn_flush(p, CN_ATTEMPT / 8);
    cn_fence(p);
}

static void cn_begin(struct cn_pool *p, uint64_t tx) {
    p->ticks = CN_TICKS;
    p->open = 1;
    p->trap = 0;
    p->records = 0;
    p->run++;
    p->rolls_back = cn_rolls_back[tx - 1];
    p->looks = 0;
}

/* Forgets what is dirty. */
static void cn_end(struct cn_pool *p) {
    while (p->dirty_from < p->dirty_to) p->kept->is_dirty[p->kept->dirty[p->dirty_from++]] = 0;
}

/* Runs a sealed call and ends it. */
static struct cnvm_answer cn_settle(struct cn_pool *p, uint64_t tx, const uint64_t *args) {
    cn_begin(p, tx);
    uint64_t value = cn_run(p, tx, args);
    cn_end(p);
    if (p->trap == 0) {
        cn_retire(p, value);
        return (struct cnvm_answer){CNVM_DONE, 0, (int64_t)value, p->records};
    }
    if (!p->rolls_back) {
        cn_mark(p);
        return (struct cnvm_answer){CNVM_TRAPPED, (int)p->trap, 0, 0};
    }
    cn_restore(p, p->records);
    cn_retire(p, p->words[CN_LAST]);
    return (struct cnvm_answer){CNVM_ABORTED, (int)p->trap, 0, 0};
}

static struct cnvm_answer cn_refused(int status, uint64_t trap) {
    return (struct cnvm_answer){status, (int)trap, 0, 0};
}

/* Runs a transaction that only looks: it stores nothing, and its fence is none. What is known of
   the call stands in a copy, so it may run beside others of its kind. */
static struct cnvm_answer cn_look(const struct cn_pool *p, uint64_t tx, const uint64_t *args) {
    struct cn_pool look = *p;
    if (p->words[CN_MARK] != 0) return cn_refused(CNVM_UNUSABLE, p->words[CN_MARK]);
    cn_begin(&look, tx);
    look.looks = 1;
    uint64_t value = cn_run(&look, tx, args);
    if (look.trap != 0) return cn_refused(CNVM_ABORTED, look.trap);
    return (struct cnvm_answer){CNVM_DONE, 0, (int64_t)value, 0};
}

static struct cnvm_answer cn_call_alone(struct cn_pool *p, uint64_t tx, const uint64_t *args) {
    const uint64_t *w = p->words;
    if (w[CN_MARK] != 0) return cn_refused(CNVM_UNUSABLE, w[CN_MARK]);
    if (w[CN_DONE] >= CN_NUMBERS) return cn_refused(CNVM_NUMBERS, 0);
    if (w[CN_ATTEMPT] >= CN_NUMBERS) return cn_refused(CNVM_NUMBERS, 0);
    cn_seal(p, tx, args);
    return cn_settle(p, tx, args);
}

/* Waits until a call may look: beside others that look, and after one that stores. */
static void cn_begin_look(struct cn_pool *p) {
    pthread_mutex_lock(&p->kept->lock);
    __atomic_add_fetch(&p->kept->looking, 1, __ATOMIC_ACQUIRE);
    pthread_mutex_unlock(&p->kept->lock);
}

/* Waits until a call is alone. No look begins from then on, and each ends within its ticks. */
static void cn_begin_alone(struct cn_pool *p) {
    pthread_mutex_lock(&p->kept->lock);
    while (__atomic_load_n(&p->kept->looking, __ATOMIC_ACQUIRE) != 0) sched_yield();
}

static struct cnvm_answer cn_call(struct cn_pool *p, uint64_t tx, const uint64_t *args) {
    struct cnvm_answer answer;
    if (cn_looks[tx - 1]) {
        cn_begin_look(p);
        answer = cn_look(p, tx, args);
        __atomic_sub_fetch(&p->kept->looking, 1, __ATOMIC_RELEASE);
    } else {
        cn_begin_alone(p);
        answer = cn_call_alone(p, tx, args);
        pthread_mutex_unlock(&p->kept->lock);
    }
    return answer;
}

static uint64_t cn_word(struct cn_pool *p, uint64_t word) {
    pthread_mutex_lock(&p->kept->lock);
    uint64_t value = p->words[word];
    pthread_mutex_unlock(&p->kept->lock);
    return value;
}

#ifdef CNVM_COUNT
static void cn_events(struct cn_pool *p, uint64_t *events) {
    pthread_mutex_lock(&p->kept->lock);
    memcpy(events, p->events, sizeof p->events);
    pthread_mutex_unlock(&p->kept->lock);
}
#endif

static int cn_is_sealed(const uint64_t *w) { return w[CN_SEAL] == w[CN_DONE] + 1; }

/* whether record i is of this attempt */
static int cn_is_valid(const uint64_t *w, uint64_t i) {
    return w[8 * (CN_RECORD + i) + 2] == w[CN_ATTEMPT] + 1;
}

/* Ends what an image owes: old values are put back, and a sealed call runs again. */
static struct cnvm_answer cn_recover(struct cn_pool *p) {
    const uint64_t *w = p->words;
    uint64_t count = 0, args[CN_ARGUMENTS];
    if (w[CN_MARK] != 0) return cn_refused(CNVM_UNUSABLE, w[CN_MARK]);
    while (count < CN_LOG && cn_is_valid(w, count)) count++;
    if (count != 0 && w[CN_ATTEMPT] >= CN_NUMBERS) return cn_refused(CNVM_NUMBERS, 0);
    int sealed = cn_is_sealed(w);
    if (sealed) cn_restore(p, count);
    if (count != 0) cn_reset(p);
    if (!sealed) return cn_refused(CNVM_NONE, 0);
    memcpy(args, w + CN_FUNCTION + 1, sizeof args);
    return cn_settle(p, w[CN_FUNCTION], args);
}

"#;

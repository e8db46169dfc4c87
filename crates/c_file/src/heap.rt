//! Free slots, heap words, records and dirty lines.

/// The part of the C file that finds and frees slots.
pub const HEAP: &str = r#"/* -- Free slots, as four levels of bits. Slots are counted from 1. */

static inline void cn_slot_freed(struct cn_pool *p, uint64_t slot) {
    uint64_t s = slot - 1;
    p->kept->free_slots[s / 64] |= UINT64_C(1) << (s % 64);
    p->kept->free_groups[s / 4096] |= UINT64_C(1) << (s / 64 % 64);
    p->kept->free_blocks[s / 262144] |= UINT64_C(1) << (s / 4096 % 64);
    p->kept->free_areas |= UINT64_C(1) << (s / 262144);
}

static inline void cn_slot_taken(struct cn_pool *p, uint64_t slot) {
    uint64_t s = slot - 1;
    p->kept->free_slots[s / 64] &= ~(UINT64_C(1) << (s % 64));
    if (p->kept->free_slots[s / 64] != 0) return;
    p->kept->free_groups[s / 4096] &= ~(UINT64_C(1) << (s / 64 % 64));
    if (p->kept->free_groups[s / 4096] != 0) return;
    p->kept->free_blocks[s / 262144] &= ~(UINT64_C(1) << (s / 4096 % 64));
    if (p->kept->free_blocks[s / 262144] != 0) return;
    p->kept->free_areas &= ~(UINT64_C(1) << (s / 262144));
}

/* the number of the lowest bit; some bit is set */
static inline uint64_t cn_lowest(uint64_t bits) { return (uint64_t)__builtin_ctzll(bits); }

/* FIND: the least slot whose header is 0, or 0 */
static inline uint64_t cn_find(struct cn_pool *p) {
    if (p->kept->free_areas == 0) return 0;
    uint64_t area = cn_lowest(p->kept->free_areas);
    uint64_t block = 64 * area + cn_lowest(p->kept->free_blocks[area]);
    uint64_t group = 64 * block + cn_lowest(p->kept->free_groups[block]);
    return 64 * group + cn_lowest(p->kept->free_slots[group]) + 1;
}

static void cn_look_for_free_slots(struct cn_pool *p) {
    for (uint64_t s = 1; s <= CN_SLOTS; s++)
        if (p->heap[CN_FIRST + CN_SLOT * (s - 1)] == 0) cn_slot_freed(p, s);
}

static inline int cn_is_header(uint64_t x) {
    return x >= CN_FIRST && (x - CN_FIRST) % CN_SLOT == 0;
}

/* -- Heap words and the log. A heap word that isn't there is read as 0, and not stored. */

/* stores a heap word, one event */
static inline void cn_put(struct cn_pool *p, uint64_t x, uint64_t value) {
    cn_store(p, 8 * CN_HEAP_LINE + x, value);
    if (!cn_is_header(x)) return;
    if (value == 0) cn_slot_freed(p, (x - CN_FIRST) / CN_SLOT + 1);
    else cn_slot_taken(p, (x - CN_FIRST) / CN_SLOT + 1);
}

/* The place of a heap word: where it is if this run has a record of it, else where it goes. */
static inline struct cn_place *cn_place_of(struct cn_pool *p, uint64_t x) {
    uint64_t i = x * UINT64_C(0x9E3779B97F4A7C15) >> (64 - CN_PLACE_BITS);
    struct cn_place *places = p->kept->places;
    while (places[i].run == p->run && places[i].word != x) i = (i + 1) % CN_PLACES;
    return &places[i];
}

/* Appends a record of a heap word, five events, if this run has none; 7 if the log is full. */
static inline uint64_t cn_log(struct cn_pool *p, uint64_t x) {
    struct cn_place *place = cn_place_of(p, x);
    uint64_t line = CN_RECORD + p->records;
    if (place->run == p->run) return 0;
    if (p->records == CN_LOG) return CNVM_LOGFULL;
    cn_store(p, 8 * line, x);
    cn_store(p, 8 * line + 1, p->heap[x]);
    cn_store(p, 8 * line + 2, p->words[CN_ATTEMPT] + 1);
    cn_flush(p, line);
    cn_fence(p);
    p->records++;
    *place = (struct cn_place){x, p->run};
    return 0;
}

/* LOAD */
static inline uint64_t cn_load_at(struct cn_pool *p, uint64_t x) {
    return x < CN_HEAP ? p->heap[x] : 0;
}

/* LOG; 7 if the log is full */
static inline uint64_t cn_log_at(struct cn_pool *p, uint64_t x) {
    return x < CN_HEAP ? cn_log(p, x) : 0;
}

/* STORE; its line is dirty from now on. In a call that rolls back it is a LOG first: 7 if the log
   is full. */
static inline uint64_t cn_store_at(struct cn_pool *p, uint64_t x, uint64_t value) {
    if (x >= CN_HEAP) return 0;
    if (p->rolls_back && cn_log(p, x) != 0) return CNVM_LOGFULL;
    cn_put(p, x, value);
    if (p->kept->is_dirty[x / 8]) return 0;
    p->kept->is_dirty[x / 8] = 1;
    if (p->dirty_from == p->dirty_to) p->dirty_from = p->dirty_to = 0;
    p->kept->dirty[p->dirty_to++] = (uint32_t)(x / 8);
    return 0;
}

/* FLUSH: flushes the first dirty line; 0 if there was none */
static inline uint64_t cn_flush_first(struct cn_pool *p) {
    if (p->dirty_from == p->dirty_to) return 0;
    uint64_t line = p->kept->dirty[p->dirty_from++];
    p->kept->is_dirty[line] = 0;
    cn_flush(p, CN_HEAP_LINE + line);
    return 1;
}

"#;

//! What an image may hold, and its first fault.

/// The part of the C file that checks what an image holds.
pub const CONTENT: &str = r#"/* -- What an image may hold. */

/* the least word of record i that breaks a rule, or 0; *gap is set at the first invalid one */
static uint64_t cn_bad_record(const uint64_t *w, uint64_t i, int *gap) {
    uint64_t at = 8 * (CN_RECORD + i);
    int valid = cn_is_valid(w, i);
    if (valid && cn_is_sealed(w)) {
        if (w[at] >= CN_HEAP) return at;
        if (cn_is_header(w[at]) && w[at + 1] > CN_STRUCTS) return at + 1;
    }
    if (w[at + 2] > w[CN_ATTEMPT] + 1 || (valid && *gap)) return at + 2;
    if (!valid) *gap = 1;
    return 0;
}

/* the least word of an image that breaks a rule, or 0 */
static uint64_t cn_bad_word(const uint64_t *w) {
    int gap = 0;
    if (w[CN_DONE] > CN_NUMBERS) return CN_DONE;
    if (w[CN_ATTEMPT] > CN_NUMBERS) return CN_ATTEMPT;
    if (w[CN_MARK] > CNVM_DEPTH) return CN_MARK;
    if (cn_is_sealed(w) && (w[CN_FUNCTION] == 0 || w[CN_FUNCTION] > CN_TRANSACTIONS))
        return CN_FUNCTION;
    for (uint64_t i = 0; i < CN_LOG; i++) {
        uint64_t bad = cn_bad_record(w, i, &gap);
        if (bad != 0) return bad;
    }
    for (uint64_t x = CN_FIRST; x < CN_HEAP; x += CN_SLOT)
        if (w[8 * CN_HEAP_LINE + x] > CN_STRUCTS) return 8 * CN_HEAP_LINE + x;
    return 0;
}

/* Bytes of an image, by its version: the first version's record of arguments is shorter. */
static uint64_t cn_wanted_bytes(uint64_t found, const uint64_t *head) {
    return found >= 16 && head[1] == 1 ? CN_BYTES - 128 : CN_BYTES;
}

static const uint64_t cn_head[6] = {CN_MAGIC, 2, CN_SLOTS, CN_LOG, CN_ROOT, CN_TICKS};

static struct cnvm_fault cn_found(int kind, uint64_t found, uint64_t wanted) {
    return (struct cnvm_fault){kind, 0, (int64_t)found, (int64_t)wanted};
}

/* the first fault of an image of so many bytes, by its first two lines; kind 0 if there is none */
static struct cnvm_fault cn_fault_of(uint64_t bytes, const uint64_t *head) {
    uint64_t wanted = cn_wanted_bytes(bytes, head);
    if (bytes < wanted) return cn_found(CNVM_SHORT, bytes, wanted);
    if (head[0] != CN_MAGIC) return cn_found(CNVM_MAGIC, head[0], CN_MAGIC);
    if (head[1] != 2) return cn_found(CNVM_VERSION, head[1], 2);
    for (int k = 2; k < 6; k++)
        if (head[k] != cn_head[k]) return cn_found(CNVM_SIZES, head[k], cn_head[k]);
    if (bytes > wanted) return cn_found(CNVM_SIZES, wanted + 1, wanted); /* no more is read */
    if (memcmp(head + 8, cn_digest, sizeof cn_digest) != 0) return cn_found(CNVM_DIGEST, 0, 0);
    return cn_found(0, 0, 0);
}

"#;

//! Operations on words that C does not have.

/// The part of the C file that has the numbers of places, lines and limits.
pub const NUMBERS: &str =
    r#"/* -- Numbers. Sums, products, bits and equality are C's own on uint64_t. A word is negative
   where its bit 63 is set; the magnitude of -2^63 is 2^63, so its quotients need no case. */

static inline uint64_t cn_magnitude(uint64_t a) { return a >> 63 ? 0 - a : a; }

static inline uint64_t cn_div0(uint64_t a, uint64_t b) {
    if (b == 0) return 0;
    uint64_t q = cn_magnitude(a) / cn_magnitude(b);
    return (a ^ b) >> 63 ? 0 - q : q;
}

static inline uint64_t cn_rem0(uint64_t a, uint64_t b) {
    if (b == 0) return 0;
    uint64_t r = cn_magnitude(a) % cn_magnitude(b);
    return a >> 63 ? 0 - r : r;
}

static inline uint64_t cn_udiv0(uint64_t a, uint64_t b) { return b == 0 ? 0 : a / b; }
static inline uint64_t cn_urem0(uint64_t a, uint64_t b) { return b == 0 ? 0 : a % b; }

static inline uint64_t cn_shl(uint64_t a, uint64_t b) { return a << (b & 63); }

static inline uint64_t cn_ushr(uint64_t a, uint64_t b) { return a >> (b & 63); }

/* the sign moves in from the left */
static inline uint64_t cn_shr(uint64_t a, uint64_t b) {
    uint64_t sign = 0 - (a >> 63);
    return ((a ^ sign) >> (b & 63)) ^ sign;
}

#define CN_SIGN (UINT64_C(1) << 63)
static inline uint64_t cn_lt(uint64_t a, uint64_t b) { return (a ^ CN_SIGN) < (b ^ CN_SIGN); }
static inline uint64_t cn_le(uint64_t a, uint64_t b) { return (a ^ CN_SIGN) <= (b ^ CN_SIGN); }

"#;

//! Opening, creating and closing a pool.

/// The part of the C file that makes, opens and locks files.
pub const FILES: &str =
    r#"/* -- Files. A function that fails gives -1 or NULL, with what was wrong in *fault. */

static int cn_fail(struct cnvm_fault *fault, int kind, int error) {
    *fault = (struct cnvm_fault){kind, error, 0, 0};
    return -1;
}

static int cn_fail_system(struct cnvm_fault *fault) { return cn_fail(fault, CNVM_SYSTEM, errno); }

/* whether the processor has the instruction; CNVM_CACHE stands for the best one that it has */
static int cn_instruction(int sync) {
#ifdef __x86_64__
    unsigned a = 0, b = 0, c = 0, d = 0;
    if (!__get_cpuid_count(7, 0, &a, &b, &c, &d)) b = 0;
    int has_clwb = b >> 24 & 1, has_clflushopt = b >> 23 & 1;
    if (has_clwb && (sync == CNVM_CACHE || sync == CNVM_CLWB)) return CNVM_CLWB;
    if (has_clflushopt && (sync == CNVM_CACHE || sync == CNVM_CLFLUSHOPT)) return CNVM_CLFLUSHOPT;
    if (sync == CNVM_CACHE || sync == CNVM_CLFLUSH) return CNVM_CLFLUSH;
#endif
    (void)sync;
    return -1;
}

static int cn_map_with(struct cn_pool *p, int flags) {
    void *at = mmap(NULL, CN_BYTES, PROT_READ | PROT_WRITE, flags, p->file, 0);
    if (at == MAP_FAILED) return -1;
    p->words = at;
    p->heap = p->words + 8 * CN_HEAP_LINE;
    return 0;
}

/* Maps the file. MAP_SYNC succeeds on memory that keeps what is flushed, and nowhere else. */
static int cn_map(struct cn_pool *p, int sync, struct cnvm_fault *fault) {
    int is_mapped = 0;
    p->page = (uint64_t)sysconf(_SC_PAGESIZE);
#ifdef MAP_SYNC
    if (sync < CNVM_MSYNC && cn_instruction(CNVM_CACHE) >= 0)
        is_mapped = cn_map_with(p, MAP_SHARED_VALIDATE | MAP_SYNC) == 0;
#endif
    if (sync == CNVM_AUTO) sync = is_mapped ? CNVM_CACHE : CNVM_MSYNC;
    if (!is_mapped && cn_map_with(p, MAP_SHARED) != 0) return cn_fail_system(fault);
    p->sync = sync == CNVM_MSYNC || sync == CNVM_NOSYNC ? sync : cn_instruction(sync);
    return p->sync < 0 ? cn_fail(fault, CNVM_SYSTEM, ENOTSUP) : 0;
}

/* Makes durable what a process that was killed may have left undone. */
static int cn_settle_file(struct cn_pool *p, struct cnvm_fault *fault) {
    if (p->sync == CNVM_NOSYNC) return 0;
    if (p->sync == CNVM_MSYNC) return fsync(p->file) == 0 ? 0 : cn_fail_system(fault);
    for (uint64_t line = 0; line < CN_LINES; line++) cn_write_back(p, line);
    cn_drain(p);
    return 0;
}

static void cn_close(struct cn_pool *p) {
    if (p == NULL) return;
    if (p->words != NULL) munmap(p->words, CN_BYTES);
    if (p->file >= 0) close(p->file);
    pthread_mutex_destroy(&p->kept->lock);
    free(p->kept);
    free(p);
}

/* a pool that isn't mapped yet */
static struct cn_pool *cn_new(int file, struct cnvm_fault *fault) {
    struct cn_pool *p = calloc(1, sizeof *p);
    struct cn_kept *kept = calloc(1, sizeof *kept);
    if (p == NULL || kept == NULL || pthread_mutex_init(&kept->lock, NULL) != 0) {
        free(kept);
        free(p);
        close(file);
        cn_fail(fault, CNVM_NOMEMORY, 0);
        return NULL;
    }
    p->file = file;
    p->kept = kept;
    return p;
}

/* Holds the file, which no other process and no other opening may then open. */
static int cn_hold(int file, struct cnvm_fault *fault) {
    if (flock(file, LOCK_EX | LOCK_NB) == 0) return 0;
    return errno == EWOULDBLOCK ? cn_fail(fault, CNVM_BUSY, 0) : cn_fail_system(fault);
}

/* Tests that 256 open functions have room on the stack of a thread. */
static int cn_test_stack(struct cnvm_fault *fault) {
    struct rlimit stack;
    if (getrlimit(RLIMIT_STACK, &stack) != 0) return cn_fail_system(fault);
    if (stack.rlim_cur >= CN_STACK) return 0;
    *fault = cn_found(CNVM_STACK, stack.rlim_cur, CN_STACK);
    return -1;
}

/* Tests the file's length and its first two lines. */
static int cn_test_head(int file, struct cnvm_fault *fault) {
    uint64_t head[16] = {0};
    struct stat about;
    if (fstat(file, &about) != 0) return cn_fail_system(fault);
    if (pread(file, head, sizeof head, 0) < 0) return cn_fail_system(fault);
    *fault = cn_fault_of((uint64_t)about.st_size, head);
    return fault->kind == 0 ? 0 : -1;
}

static int cn_test_content(struct cn_pool *p, struct cnvm_fault *fault) {
    uint64_t bad = cn_bad_word(p->words);
    if (bad == 0) return 0;
    *fault = cn_found(CNVM_CONTENT, bad, p->words[bad]);
    return -1;
}

static struct cn_pool *cn_open(const char *path, int sync, struct cnvm_answer *recovered,
                               struct cnvm_fault *fault) {
    struct cnvm_fault here;
    struct cnvm_answer answer;
    if (fault == NULL) fault = &here;
    if (recovered == NULL) recovered = &answer;
    int file = open(path, O_RDWR | O_CLOEXEC);
    if (file < 0) return cn_fail_system(fault), NULL;
    if (cn_hold(file, fault) != 0 || cn_test_stack(fault) != 0 || cn_test_head(file, fault) != 0)
        return close(file), NULL;
    struct cn_pool *p = cn_new(file, fault);
    if (p == NULL) return NULL;
    if (cn_map(p, sync, fault) != 0 || cn_settle_file(p, fault) != 0) return cn_close(p), NULL;
    if (cn_test_content(p, fault) != 0) return cn_close(p), NULL;
    cn_look_for_free_slots(p);
    *recovered = cn_recover(p);
    return p;
}

/* Makes the folder durable that a path is in. */
static int cn_settle_folder(const char *path) {
    const char *end = strrchr(path, '/');
    size_t length = end == NULL || end == path ? 1 : (size_t)(end - path);
    char *folder = strndup(end == NULL ? "." : path, length);
    if (folder == NULL) return -1;
    int file = open(folder, O_RDONLY | O_DIRECTORY | O_CLOEXEC);
    int failed = file < 0 ? -1 : fsync(file), error = errno;
    free(folder);
    if (file >= 0) close(file);
    errno = error;
    return failed;
}

/* Opens a new file beside the path, and gives its name, which the caller frees. */
static char *cn_draft(const char *path, int *file) {
    size_t room = strlen(path) + 64;
    char *name = malloc(room);
    for (int k = 0; name != NULL && k < 100; k++) {
        snprintf(name, room, "%s.draft-%ld-%d", path, (long)getpid(), k);
        *file = open(name, O_RDWR | O_CREAT | O_EXCL | O_CLOEXEC, 0666);
        if (*file >= 0) return name;
        if (errno != EEXIST) break;
    }
    int error = errno;
    free(name);
    errno = error;
    return NULL;
}

/* Makes the draft a pool, whole and synced. Its lines are blank but for the first two. */
static int cn_fill(struct cn_pool *p, int sync, struct cnvm_fault *fault) {
    if (cn_hold(p->file, fault) != 0 || cn_test_stack(fault) != 0) return -1;
    int error = posix_fallocate(p->file, 0, CN_BYTES);
    if (error != 0) return cn_fail(fault, CNVM_SYSTEM, error);
    if (cn_map(p, sync, fault) != 0) return -1;
    memcpy(p->words, cn_head, sizeof cn_head);
    memcpy(p->words + 8, cn_digest, sizeof cn_digest);
    if (msync(p->words, CN_BYTES, MS_SYNC) != 0) return cn_fail_system(fault);
    if (fsync(p->file) != 0) return cn_fail_system(fault);
    cn_look_for_free_slots(p);
    return 0;
}

static struct cn_pool *cn_create(const char *path, int sync, struct cnvm_fault *fault) {
    struct cnvm_fault here;
    int file = -1;
    if (fault == NULL) fault = &here;
    char *draft = cn_draft(path, &file);
    if (draft == NULL) return cn_fail_system(fault), NULL;
    struct cn_pool *p = cn_new(file, fault);
    int failed = p == NULL || cn_fill(p, sync, fault) != 0;
    if (!failed && link(draft, path) != 0) failed = cn_fail_system(fault);
    unlink(draft);
    free(draft);
    if (!failed && cn_settle_folder(path) != 0) {
        failed = cn_fail_system(fault);
        unlink(path);
    }
    if (!failed) return p;
    cn_close(p);
    return NULL;
}

"#;

//! The head of the file: what is proved of it and what is trusted.

pub const NOTICE: &str =
    r#"/* Transactions on a pool, printed by `cnvm emit`. A pool is a file whose content is an image
   of `cnvm`, version 2: each takes what the other left, after a kill or a loss of power too.

   Proved: each byte of this file is what a definition says of the program's machine code, which
   agrees with the program's source. The run of the functions below `the program's functions` is
   the machine's run: the same stores, records, flushes and fences in the same order, and the same
   value or trap, as long as the functions of the runtime that they call do what their comments say.

   Not proved but tested: the runtime, which is all between `the runtime` and these functions.
   Trusted: the compiler of C; cn_store, cn_write_back and cn_drain, and that memory keeps what
   they ask of it; files, mappings and locks; and that nobody else writes to the pool's file. */
#ifndef _GNU_SOURCE
#define _GNU_SOURCE
#endif
#include <errno.h>
#include <fcntl.h>
#include <pthread.h>
#include <sched.h>
#include <stdint.h>
#include <stdio.h>
#include <stdlib.h>
#include <string.h>
#include <sys/file.h>
#include <sys/mman.h>
#include <sys/resource.h>
#include <sys/stat.h>
#include <unistd.h>
#ifdef __x86_64__
#include <cpuid.h>
#endif

"#;

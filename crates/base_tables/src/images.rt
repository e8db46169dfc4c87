//! Images by example. What is wanted was written down from the rules, digests by another program.

use nvm_base::Words;
use pool_layout::{
    ImageFault, Layout, Place, RawImage, Sizes, Wanted, digest, image_bytes, pool_lines, read_image,
};
use std::alloc::{AllocError, Global};
use std::test::Fail;

const PROGRAM: &str = "struct R { int64_t n; };\n\
     persistent struct R root;\n\
     tx int64_t inc(int64_t d) { root.n = root.n + d; return root.n; }\n";

const MAGIC: i64 = 5498700876356144707;

const TOP: i64 = 4611686018427387904;

/// No change.
const NONE: (u64, i64) = (u64::MAX, 0);

/// A pool of the first version after one call of `inc` with 5.
const OLD_POOL: [(u64, i64); 9] = [
    (1, 1),
    (16, 5),
    (17, 1),
    (18, 1),
    (24, 1),
    (25, 5),
    (31, 1),
    (34, 1),
    (40, 5),
];

/// The same pool in the second version.
const NEW_POOL: [(u64, i64); 9] = [
    (1, 2),
    (16, 5),
    (17, 1),
    (18, 1),
    (24, 1),
    (25, 5),
    (47, 1),
    (50, 1),
    (56, 5),
];

/// What the pool of the first version is moved to.
const MOVED_POOL: [(u64, i64); 9] = [
    (1, 2),
    (16, 5),
    (17, 1),
    (56, 5),
    NONE,
    NONE,
    NONE,
    NONE,
    NONE,
];

/// A sealed pool whose first two records are valid.
const SEALED_POOL: [(u64, i64); 9] = [
    (1, 2),
    (18, 5),
    (24, 1),
    (47, 1),
    (48, 17),
    (50, 6),
    (56, 18),
    (58, 6),
    (66, 2),
];

/// The words of line 0 and of the digest.
fn head(wanted: &Wanted) -> [(u64, i64); 9] {
    let digest = wanted.digest;
    [
        (0, MAGIC),
        (2, wanted.sizes.slots() as i64),
        (3, wanted.sizes.records() as i64),
        (4, wanted.sizes.root_words() as i64),
        (5, wanted.sizes.ticks() as i64),
        (8, digest[0]),
        (9, digest[1]),
        (10, digest[2]),
        (11, digest[3]),
    ]
}

/// Writes a word of an image, where it is there.
fn put(words: &mut Vec<i64>, word: u64, value: i64) {
    if let Some(place) = words.get_mut(word as usize) {
        *place = value;
    }
}

/// An image of this length in bytes, zero but for these words, the later ones first.
fn image(
    alloc: Global,
    length: usize,
    wanted: &Wanted,
    pool: [(u64, i64); 9],
    changes: [(u64, i64); 2],
) -> Result<Vec<u8>, AllocError> {
    let mut words: Vec<i64> = Vec::new(alloc);
    for _ in 0..length / 8 + 1 {
        words.push(0)?;
    }
    for (word, value) in head(wanted) {
        put(&mut words, word, value);
    }
    for (word, value) in pool {
        put(&mut words, word, value);
    }
    for (word, value) in changes {
        put(&mut words, word, value);
    }
    let mut bytes = Vec::from_slice(alloc, image_bytes(alloc, &words)?.as_slice())?;
    bytes.truncate(length);
    Ok(bytes)
}

/// What reading makes of an image's bytes, which come in two pieces.
fn read(alloc: Global, bytes: &[u8], wanted: &Wanted) -> Result<Words, ImageFault> {
    let mut image = RawImage::new(alloc);
    let (first, rest) = bytes.split_at(bytes.len() / 3);
    image.extend(first)?;
    image.extend(rest)?;
    read_image(alloc, image, wanted)
}

fn fault_of(alloc: Global, bytes: &[u8], wanted: &Wanted) -> Option<ImageFault> {
    read(alloc, bytes, wanted).err()
}

fn wanted_of(sizes: Sizes, txs: u64, structs: u64) -> Wanted {
    Wanted {
        sizes,
        digest: digest(PROGRAM.as_bytes()),
        txs,
        structs,
    }
}

#[test]
fn small_images_are_read_by_rule(rt: HostRuntime) -> Result<(), Fail> {
    let alloc = rt.alloc();
    let Some(sizes) = Sizes::new(1, 1, 1, 16, 100_000) else {
        assert!(rt; false, "the sizes are within their limits");
        return Ok(());
    };
    let wanted = wanted_of(sizes, 1, 1);
    let other = [
        3483955440803133307,
        0,
        3855635240822568736,
        5102681063806287170,
    ];
    for (pool, length, changes, want) in [
        // the first version
        (OLD_POOL, 512, [NONE, NONE], None),
        (OLD_POOL, 512, [(17, TOP), NONE], None),
        (
            OLD_POOL,
            512,
            [(34, 3), NONE],
            Some(ImageFault::Content(34, 3)),
        ),
        (
            OLD_POOL,
            512,
            [(0, 5498700876356144640), NONE],
            Some(ImageFault::Magic(5498700876356144640, MAGIC)),
        ),
        (
            OLD_POOL,
            512,
            [(31, 2), NONE],
            Some(ImageFault::Content(31, 2)),
        ),
        (
            OLD_POOL,
            512,
            [(31, 2), (24, 2)],
            Some(ImageFault::Content(24, 2)),
        ),
        (
            OLD_POOL,
            512,
            [(31, 2), (34, 4)],
            Some(ImageFault::Content(31, 2)),
        ),
        (
            OLD_POOL,
            512,
            [(48, 2), NONE],
            Some(ImageFault::Content(48, 2)),
        ),
        (
            OLD_POOL,
            640,
            [(1, 3), NONE],
            Some(ImageFault::Version(3, 2)),
        ),
        (
            OLD_POOL,
            513,
            [NONE, NONE],
            Some(ImageFault::Sizes(513, 512)),
        ),
        (
            OLD_POOL,
            641,
            [NONE, NONE],
            Some(ImageFault::Sizes(641, 512)),
        ),
        (
            OLD_POOL,
            511,
            [NONE, NONE],
            Some(ImageFault::Short(511, 512)),
        ),
        (OLD_POOL, 16, [NONE, NONE], Some(ImageFault::Short(16, 512))),
        (OLD_POOL, 15, [NONE, NONE], Some(ImageFault::Short(15, 640))),
        (OLD_POOL, 8, [NONE, NONE], Some(ImageFault::Short(8, 640))),
        // the second
        (NEW_POOL, 640, [NONE, NONE], None),
        (NEW_POOL, 0, [NONE, NONE], Some(ImageFault::Short(0, 640))),
        (
            NEW_POOL,
            639,
            [(0, 0), NONE],
            Some(ImageFault::Short(639, 640)),
        ),
        (
            NEW_POOL,
            641,
            [NONE, NONE],
            Some(ImageFault::Sizes(641, 640)),
        ),
        (NEW_POOL, 640, [(50, 2), NONE], None),
        (
            NEW_POOL,
            640,
            [(24, 2), (47, 2)],
            Some(ImageFault::Content(24, 2)),
        ),
        (NEW_POOL, 640, [(18, TOP), (50, TOP + 1)], None),
        // one fault after another
        (
            NEW_POOL,
            640,
            [(0, 7), (1, 7)],
            Some(ImageFault::Magic(7, MAGIC)),
        ),
        (
            NEW_POOL,
            640,
            [(1, 0), (2, 7)],
            Some(ImageFault::Version(0, 2)),
        ),
        (
            NEW_POOL,
            640,
            [(2, -1), (3, 7)],
            Some(ImageFault::Sizes(-1, 1)),
        ),
        (
            NEW_POOL,
            640,
            [(3, 7), (4, 7)],
            Some(ImageFault::Sizes(7, 1)),
        ),
        (
            NEW_POOL,
            640,
            [(4, 2), (5, 7)],
            Some(ImageFault::Sizes(2, 1)),
        ),
        (
            NEW_POOL,
            641,
            [(5, 7), (8, 7)],
            Some(ImageFault::Sizes(7, 100_000)),
        ),
        (
            NEW_POOL,
            641,
            [(9, 0), (17, -1)],
            Some(ImageFault::Sizes(641, 640)),
        ),
        (
            NEW_POOL,
            640,
            [(17, -1), (19, 9)],
            Some(ImageFault::Content(17, -1)),
        ),
    ] {
        let bytes = image(alloc, length, &wanted, pool, changes)?;
        assert_eq!(rt;
            fault_of(alloc, &bytes, &wanted),
            want,
            "{length} {changes:?}"
        );
    }
    let bytes = image(alloc, 640, &wanted, NEW_POOL, [(9, 0), (17, -1)])?;
    assert_eq!(rt;
        fault_of(alloc, &bytes, &wanted),
        Some(ImageFault::Digest(other, wanted.digest))
    );

    let first = image(alloc, 512, &wanted, OLD_POOL, [NONE, NONE])?;
    let moved = read(alloc, &first, &wanted);
    let second = image(alloc, 640, &wanted, MOVED_POOL, [NONE, NONE])?;
    match moved {
        Ok(words) => assert_eq!(rt;
            image_bytes(alloc, words.as_slice())?.as_slice(),
            &second[..]
        ),
        Err(fault) => assert!(rt; false, "{fault:?}"),
    }
    Ok(())
}

#[test]
fn content_is_judged_by_rule(rt: HostRuntime) -> Result<(), Fail> {
    let alloc = rt.alloc();
    // two slots, three records, nine root words: the heap starts at word 72, its headers are words
    // 88 and 104
    let Some(sizes) = Sizes::new(2, 3, 9, 16, 1) else {
        assert!(rt; false, "the sizes are within their limits");
        return Ok(());
    };
    let wanted = wanted_of(sizes, 2, 3);
    for (changes, want) in [
        ([NONE, NONE], None),
        ([(17, -1), (18, -1)], Some((17, -1))),
        ([(17, TOP), NONE], None),
        ([(17, TOP + 1), (88, 4)], Some((17, TOP + 1))),
        ([(17, i64::MIN), NONE], Some((17, i64::MIN))),
        ([(17, i64::MAX), (47, i64::MIN)], Some((17, i64::MAX))),
        ([(18, -1), (50, 0)], Some((18, -1))),
        ([(18, TOP), (50, TOP + 1)], None),
        ([(18, TOP + 1), NONE], Some((18, TOP + 1))),
        ([(18, i64::MAX), (50, i64::MIN)], Some((18, i64::MAX))),
        ([(19, 8), NONE], None),
        ([(19, 9), (24, 0)], Some((19, 9))),
        ([(19, -1), NONE], Some((19, -1))),
        // the function, and a pool that isn't sealed
        ([(24, 2), NONE], None),
        ([(24, 0), (50, 9)], Some((24, 0))),
        ([(24, 3), NONE], Some((24, 3))),
        ([(24, 3), (47, 2)], None),
        ([(24, 3), (17, 1)], None),
        ([(46, -1), (16, i64::MIN)], None),
        // heap words and old values of valid records
        ([(48, 0), (49, i64::MAX)], None),
        ([(48, -1), NONE], Some((48, -1))),
        ([(48, 47), (56, 48)], Some((56, 48))),
        ([(48, 48), (47, 0)], None),
        ([(64, -1), NONE], None),
        ([(48, 16), (49, 3)], None),
        ([(48, 16), (49, 4)], Some((49, 4))),
        ([(48, 32), (49, -1)], Some((49, -1))),
        ([(48, 15), (49, -1)], None),
        ([(48, 33), (49, 4)], None),
        ([(64, 16), (65, 4)], None),
        // stamps
        ([(50, -1), NONE], Some((50, -1))),
        ([(50, 7), (58, 7)], Some((50, 7))),
        ([(50, 5), NONE], Some((58, 6))),
        ([(58, 0), (66, 6)], Some((66, 6))),
        ([(58, 0), (50, 0)], None),
        ([(66, 6), (64, 48)], Some((64, 48))),
        // headers, and words beside them
        ([(88, 3), (104, 0)], None),
        ([(88, 4), (104, 4)], Some((88, 4))),
        ([(104, -1), NONE], Some((104, -1))),
        ([(87, -1), (89, 4)], None),
        ([(72, i64::MIN), (119, i64::MAX)], None),
    ] {
        let bytes = image(alloc, 960, &wanted, SEALED_POOL, changes)?;
        let want = want.map(|(word, value)| ImageFault::Content(word, value));
        assert_eq!(rt; fault_of(alloc, &bytes, &wanted), want, "{changes:?}");
    }
    Ok(())
}

#[test]
fn places_and_digests(rt: HostRuntime) -> Result<(), Fail> {
    for (slots, records, root_words, ticks, want) in [
        (1024, 256, 1, 100_000, Some(2311)),
        (65_535, 4096, 512, 1_000_000, Some(135_236)),
        (1, 1, 1, 1, Some(10)),
        (0, 1, 1, 1, None),
        (1_048_576, 65_536, 65_536, 1_000_000, Some(2_170_886)),
        (1_048_577, 1, 1, 1, None),
        (1, 0, 1, 1, None),
        (1, 65_537, 1, 1, None),
        (1, 1, 0, 1, None),
        (1, 1, 65_537, 1, None),
        (1, 1, 1, 0, None),
        (1, 1, 1, 1_000_001, None),
    ] {
        let sizes = Sizes::new(slots, records, root_words, 16, ticks);
        let lines = sizes.map(|sizes| pool_lines(&sizes));
        assert_eq!(rt; lines, want, "{slots} {records} {root_words} {ticks}");
    }
    if let Some(sizes) = Sizes::new(2, 3, 9, 16, 1) {
        let layout = Layout::new(&sizes);
        for (word, place) in [
            (15, Place::Super(15)),
            (18, Place::Attempt),
            (46, Place::Argument(22)),
            (47, Place::Seal),
            (48, Place::RecordWord(0)),
            (66, Place::RecordStamp(2)),
            (71, Place::RecordSpare(2, 4)),
            (72, Place::Heap(0)),
            (119, Place::Heap(47)),
        ] {
            assert_eq!(rt; layout.place(word), place, "{word}");
        }
    }
    for (text, words) in [
        (
            "",
            [
                1449310910991872227,
                2646268962349054874,
                5517924826087534119,
                6176777564751238564,
            ],
        ),
        (
            "abc",
            [
                -1527000031757436742,
                2531777658719584577,
                -7171393520880516176,
                -5974868289610903372,
            ],
        ),
        (
            PROGRAM,
            [
                3483955440803133307,
                -2610298839165199193,
                3855635240822568736,
                5102681063806287170,
            ],
        ),
    ] {
        assert_eq!(rt; digest(text.as_bytes()), words);
    }
    Ok(())
}

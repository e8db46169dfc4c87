//! One cache through stores, flushes, fences and power cuts.

use cache_model::{BadPick, Cache, Choice, Pick, Picks, Rest};
use std::test::Fail;

/// Of line 1 the number of versions, and its first two words.
fn line_one(cache: &Cache) -> Option<(u64, i64, i64)> {
    if cache.lines() < 2 {
        return None;
    }
    Some((cache.versions(1), cache.load(8), cache.load(9)))
}

#[test]
fn a_cache_keeps_its_versions(rt: HostRuntime) -> Result<(), Fail> {
    let mut cache = Cache::new(rt.alloc(), 3)?;
    cache.store(8, 1)?;
    cache.store(9, 2)?;
    cache.store(8, 3)?;
    cache.flush(1);
    cache.store(9, 4)?;
    cache.flush(2);
    assert_eq!(rt; line_one(&cache), Some((5, 3, 4)));
    cache.fence();
    assert_eq!(rt; line_one(&cache), Some((2, 3, 4)));

    for (line, version, want) in [
        (3, 0, Some((3, 0))),
        (1, 2, Some((1, 2))),
        (1, 0, None),
        (1, 1, Some((1, 1))),
    ] {
        let mut picks = Picks::new(rt.alloc());
        picks.push(Pick { line, version })?;
        let answer = cache.collapse(&Choice {
            rest: Rest::New,
            picks,
        });
        assert_eq!(rt;
            answer.err(),
            want.map(|(line, versions)| BadPick { line, versions }),
            "at {line} {version}"
        );
    }
    assert_eq!(rt; line_one(&cache), Some((1, 3, 2)));
    Ok(())
}

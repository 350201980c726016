// A pass alone in its round, whose resizes leave words that are known.
use super::*;

// The opening has HEAD 4, its only bucket at 6, and NEXT 10; the row of 1 is put at 10. The generation
// lies behind it, and its two buckets are nil. A growth that fills them, freezes the bucket before
// or draws a word more would fail here too.
#[test]
fn a_growth_puts_a_generation_of_nil_buckets_before_the_head(rt: HostRuntime) -> Result<(), Fail> {
    let (round, mut pass) = begin(rt.alloc(), &[], 100)?;
    assert_eq!(rt; inserted(&round, &mut pass, 1), changed(1));
    assert_eq!(rt; grow(&round, &mut pass), now_has(1));
    assert_eq!(rt; exponent(&round, &mut pass), 1);
    assert_eq!(rt; (pass.calls(), pass.spent()), (1, None));
    let words = ended_alone(rt.alloc(), round, pass)?;
    assert_eq!(rt; words.as_slice().get(0..2), Some([14, 18].as_slice()));
    assert_eq!(rt; words.as_slice().get(4..7), Some([0, 0, 20].as_slice()));
    assert_eq!(rt; words.as_slice().get(14..18), Some([1, 4, 0, 0].as_slice()));
    assert_eq!(rt; live_keys(rt.alloc(), &words)?.as_slice(), [1].as_slice());
    Ok(())
}

// Behind that, a shrinking freezes the bucket at 6, and puts the row of the first bucket, which has no
// key, at 18, and that of the second, which has 1, at 21; then comes the generation, at 25. One bucket
// shrinks no further, and nothing more is drawn.
#[test]
fn a_shrinking_fills_both_nil_buckets_first(rt: HostRuntime) -> Result<(), Fail> {
    let (round, mut pass) = begin(rt.alloc(), &[], 100)?;
    assert_eq!(rt; inserted(&round, &mut pass, 1), changed(1));
    assert_eq!(rt; grow(&round, &mut pass), now_has(1));
    assert_eq!(rt; shrink(&round, &mut pass), now_has(0));
    assert_eq!(rt; exponent(&round, &mut pass), 0);
    assert_eq!(rt; shrink(&round, &mut pass), Resized::AtLimit);
    assert_eq!(rt; (pass.calls(), pass.spent()), (1, None));
    let words = ended_alone(rt.alloc(), round, pass)?;
    assert_eq!(rt; words.as_slice().get(0..2), Some([25, 28].as_slice()));
    assert_eq!(rt; words.as_slice().get(4..7), Some([0, 0, 21].as_slice()));
    let behind = [1, 4, 36, 42, 0, 0, 0, 1, 0, 0, 1, 0, 14, 0];
    assert_eq!(rt; words.as_slice().get(14..28), Some(behind.as_slice()));
    assert_eq!(rt; live_keys(rt.alloc(), &words)?.as_slice(), [1].as_slice());
    Ok(())
}

// 17 keys open with 8 buckets, none of them nil, and 55 words. A generation of 16 has 18.
#[test]
fn a_growth_over_filled_buckets_draws_its_generation_alone(rt: HostRuntime) -> Result<(), Fail> {
    let keys = [1, 2, 3, 4, 5, 6, 7, 8, 9, 10, 11, 12, 13, 14, 15, 16, 17];
    let (round, mut pass) = begin(rt.alloc(), &keys, 100)?;
    assert_eq!(rt; exponent(&round, &mut pass), 3);
    assert_eq!(rt; grow(&round, &mut pass), now_has(4));
    assert_eq!(rt; exponent(&round, &mut pass), 4);
    let words = ended_alone(rt.alloc(), round, pass)?;
    assert_eq!(rt; words.as_slice().get(0..2), Some([55, 73].as_slice()));
    assert_eq!(rt; words.as_slice().get(55..57), Some([4, 4].as_slice()));
    assert_eq!(rt; live_keys(rt.alloc(), &words)?.as_slice(), keys.as_slice());
    Ok(())
}

// 16 keys open with 4 buckets and 38 words, and grow into 8 nil ones, which are 10 words. The next growth
// fills these with rows of 8 × 3 + 16 words, at 48, before its generation of 18, at 88. One that
// leaves the last bucket nil would fail here too.
#[test]
fn a_growth_over_nil_buckets_draws_their_rows_too(rt: HostRuntime) -> Result<(), Fail> {
    let keys = [1, 2, 3, 4, 5, 6, 7, 8, 9, 10, 11, 12, 13, 14, 15, 16];
    let (round, mut pass) = begin(rt.alloc(), &keys, 100)?;
    assert_eq!(rt; grow(&round, &mut pass), now_has(3));
    assert_eq!(rt; grow(&round, &mut pass), now_has(4));
    let words = ended_alone(rt.alloc(), round, pass)?;
    assert_eq!(rt; words.as_slice().get(0..2), Some([88, 106].as_slice()));
    assert_eq!(rt; words.as_slice().get(38..40), Some([3, 4].as_slice()));
    assert_eq!(rt; words.as_slice().get(88..90), Some([4, 38].as_slice()));
    assert_eq!(rt; live_keys(rt.alloc(), &words)?.as_slice(), keys.as_slice());
    Ok(())
}

// The 8 nil buckets are filled in the same way before a generation of 4, which has 6 words, at 88. Each of
// its own is then filled from two: rows of 4 × 3 + 16 words, at 94, before a generation of 2, at 122.
#[test]
fn a_second_shrinking_joins_buckets_before_its_generation(rt: HostRuntime) -> Result<(), Fail> {
    let keys = [1, 2, 3, 4, 5, 6, 7, 8, 9, 10, 11, 12, 13, 14, 15, 16];
    let (round, mut pass) = begin(rt.alloc(), &keys, 100)?;
    assert_eq!(rt; grow(&round, &mut pass), now_has(3));
    assert_eq!(rt; shrink(&round, &mut pass), now_has(2));
    assert_eq!(rt; shrink(&round, &mut pass), now_has(1));
    assert_eq!(rt; exponent(&round, &mut pass), 1);
    let words = ended_alone(rt.alloc(), round, pass)?;
    assert_eq!(rt; words.as_slice().get(0..2), Some([122, 126].as_slice()));
    assert_eq!(rt; words.as_slice().get(88..90), Some([2, 38].as_slice()));
    assert_eq!(rt;
        words.as_slice().get(122..126),
        Some([1, 88, 0, 0].as_slice())
    );
    assert_eq!(rt; live_keys(rt.alloc(), &words)?.as_slice(), keys.as_slice());
    Ok(())
}

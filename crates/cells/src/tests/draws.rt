use super::{begin_alone, end_alone};
use std::test::Fail;

// 19 words are the opening's, and 4 are room: a draw that hands out a block twice, or is Full while
// there is room, fails here.
#[test]
fn a_draw_past_the_end_is_full_and_raises_next_once(rt: HostRuntime) -> Result<(), Fail> {
    let (round, mut pass) = begin_alone(rt.alloc(), &[1, 2, 3, 4, 5], 4)?;
    let Ok(block) = round.draw(&mut pass, 4) else {
        panic!(rt; "there is room for 4 words")
    };
    assert!(rt; block.at() == 19 && block.len() == 4 && pass.spent().is_none());
    assert!(rt; round.draw(&mut pass, 1).is_err() && pass.spent() == Some(23));
    assert!(rt; round.draw(&mut pass, 1).is_err() && pass.spent() == Some(23));
    let words = end_alone(rt.alloc(), round, pass)?;
    assert_eq!(rt; words.as_slice().get(1), Some(&24));
    assert_eq!(rt; words.len(), 23);
    Ok(())
}

// What is written in hand stands in the words at the end, and nothing else is changed.
#[test]
fn a_block_is_written_where_it_was_drawn(rt: HostRuntime) -> Result<(), Fail> {
    let (round, mut pass) = begin_alone(rt.alloc(), &[], 3)?;
    let Ok(mut block) = round.draw(&mut pass, 2) else {
        panic!(rt; "there is room for 2 words")
    };
    round.write(&mut pass, &mut block, 0, 7);
    round.write(&mut pass, &mut block, 1, 8);
    let words = end_alone(rt.alloc(), round, pass)?;
    assert_eq!(rt;
        words.as_slice(),
        [4, 12, 0, 0, 0, 0, 14, 0, 0, 0, 7, 8, 0].as_slice()
    );
    Ok(())
}

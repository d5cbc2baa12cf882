use crate::codes::HIGHEST;
use crate::driver::{Ending, run};
use word_frames::{Frames, MOST_FRAMES};

/// The words of a thread as deep as may be, where no stack has more than three words: the first, 67 for each frame, and 67 after them.
const MOST: usize = 1 + MOST_FRAMES * 67 + 67;

#[test]
fn arguments_come_in_order(rt: HostRuntime) {
    let mut frames = Frames::new(rt.alloc(), HIGHEST).expect(&rt, "memory");
    assert_eq!(rt;
        run(rt.alloc(), &mut frames, 0, None),
        Ending::Returned(753)
    );
    assert_eq!(rt; frames.depth(), 1);
    assert_eq!(rt; frames.words.len(), 1 + 2 * 67 + 67);
}

#[test]
fn calls_are_as_deep_as_may_be(rt: HostRuntime) {
    let mut frames = Frames::new(rt.alloc(), HIGHEST).expect(&rt, "memory");
    assert_eq!(rt; frames.words.len(), 1 + 67);
    assert_eq!(rt;
        run(rt.alloc(), &mut frames, 2, Some(255)),
        Ending::Returned(32_640)
    );
    assert_eq!(rt; frames.words.len(), MOST);
    assert_eq!(rt; frames.words.capacity(), MOST);
    assert_eq!(rt; frames.frames.capacity(), MOST_FRAMES);
}

#[test]
fn one_call_too_many(rt: HostRuntime) {
    let mut frames = Frames::new(rt.alloc(), HIGHEST).expect(&rt, "memory");
    assert_eq!(rt; run(rt.alloc(), &mut frames, 2, Some(256)), Ending::TooDeep);
    assert_eq!(rt; frames.depth(), MOST_FRAMES);
}

#[test]
fn a_second_thread_in_the_same_memory(rt: HostRuntime) {
    let mut frames = Frames::new(rt.alloc(), HIGHEST).expect(&rt, "memory");
    assert_eq!(rt; run(rt.alloc(), &mut frames, 2, Some(256)), Ending::TooDeep);
    assert_eq!(rt;
        run(rt.alloc(), &mut frames, 0, None),
        Ending::Returned(753)
    );
    assert_eq!(rt;
        run(rt.alloc(), &mut frames, 2, Some(4)),
        Ending::Returned(10)
    );
    assert_eq!(rt; frames.words.len(), MOST);
}

/// Asks that a value may cross threads.
fn crosses_threads<T: Send + Sync>(_value: &T) {}

#[test]
fn frames_cross_threads(rt: HostRuntime) {
    let frames = Frames::new(rt.alloc(), HIGHEST).expect(&rt, "memory");
    crosses_threads(&frames);
}

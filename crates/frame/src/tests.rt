// Words that come many at once: all of them, as many as there is room for, and none again.
use crate::*;

#[test]
fn words_come_many_at_once(rt: HostRuntime) {
    let mut words = Words::new();
    words.extend(&[1, 2, 3]);
    words.extend(&[4]);
    assert_eq!(rt; words.as_slice(), [1, 2, 3, 4].as_slice());
    words.hold(&[5, 6]);
    assert_eq!(rt; words.as_slice(), [1, 2, 3, 4, 5, 6].as_slice());
    words.hold(&[7, 8, 9, 10, 11, 12, 13, 14, 15, 16, 17, 18]);
    assert_eq!(rt;
        words.as_slice(),
        [1, 2, 3, 4, 5, 6, 7, 8, 9, 10, 11, 12, 13, 14, 15, 16].as_slice()
    );
    words.clear();
    assert_eq!(rt; words.as_slice().len(), 0);
    words.push(17);
    assert_eq!(rt; words.as_slice(), [17].as_slice());
}

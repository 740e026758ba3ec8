// Three elements out of a slice, and their words.
use crate::*;

#[test]
fn words_of_three_elements_of_a_slice(rt: HostRuntime) {
    let elements = [
        Element { c: [1, 2, 3, 4] },
        Element { c: [5, 6, 7, 8] },
        Element { c: [9, 10, 11, 12] },
    ];
    let held = &elements[..];
    let parts = Parts::new(held[0], held[1], held[2]);
    assert_eq!(rt; parts.words(), [1, 2, 3, 4, 5, 6, 7, 8, 9, 10, 11, 12]);
}

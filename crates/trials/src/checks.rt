use std::alloc::Global;
use std::fmt::{Debug, Display};
use std::process::Abort;

// Fails the test where something else is found than is wanted, and tells of what, and both.
pub fn check<T: Copy + PartialEq + Debug>(rt: &impl Abort, what: &str, found: T, wanted: T) {
    assert_eq!(rt; found, wanted, "{what}");
}

// Fails the test where something is not written in these words.
pub fn check_words<T: Display>(rt: &impl Abort, heap: Global, thing: &T, words: &str) {
    let text = format!(in heap; "{thing}").expect(rt, "memory for the words");
    check(rt, words, text.as_str(), words);
}

// What a table tells of a value in short.
pub trait InShort<S> {
    fn in_short(&self) -> S;
}

// Fails the test where the values found are not these, one for each, in their order.
pub fn check_each<T: InShort<S>, S: Copy + PartialEq + Debug>(
    rt: &impl Abort,
    what: &str,
    found: &[T],
    wanted: &[S],
) {
    check(rt, what, found.len(), wanted.len());
    for (value, short) in found.iter().zip(wanted) {
        check(rt, what, value.in_short(), *short);
    }
}
